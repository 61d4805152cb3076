// The value at a node where no branch is left to take, by what stands there.
ghost use Rattle.forms.specs.Form.{FormAt, AppForm};

use crate::made::made_form;
use crate::number::indexed_form;
use crate::word::word_form;
use arena::{Node, node_at};
use marks::marked;
use shapes::{Found, Kind, shape_at};

// A text is so many bytes of the arena's text from an offset on, a member's of the name bytes; a bit vector is the lowest bits of a pair of words.
#[derive(Clone, Copy)]
pub enum Form {
    Truth(bool),
    Text {
        offset: u64,
        size: u64,
    },
    Number {
        kind: Kind,
        low: u64,
    },
    Bits {
        width: u64,
        low: u64,
        high: u64,
    },
    Nothing,
    Inside(usize),
    Set,
    Entity {
        row: usize,
        offset: u64,
        size: u64,
    },
    Member {
        row: usize,
        offset: u64,
        size: u64,
    },
    Record {
        row: usize,
        first: usize,
        count: u64,
    },
    NoForm,
}

// An application by its shape; what an operator gives is remembered of its node.
fn app_form(
    sorts: &[u64],
    names: &[u8],
    nodes: &[u64],
    text: &[u8],
    marks: &[u64],
    at: usize,
) -> Form
    ensures { AppForm sorts.now names.now nodes.now text.now marks.now at result }
{
    let shape = shape_at(nodes, text, at);
    match shape {
        Found::AsNone { sort: _ } => Form::Nothing,
        Found::AsSome { sort: _, value } => Form::Inside(value),
        Found::SomeOf { value } => Form::Inside(value),
        Found::AsEmpty { sort: _ } => Form::Set,
        Found::Singleton { value: _ } => Form::Set,
        Found::Union { left: _, right: _ } => Form::Set,
        Found::Extension { kind, low } => Form::Number { kind, low },
        Found::Indexed {
            offset,
            size,
            low,
            high: _,
        } => indexed_form(text, offset, size, low),
        Found::Made {
            offset,
            size,
            first,
            count,
        } => made_form(sorts, names, nodes, text, offset, size, first, count),
        Found::Unary { op: _, value: _ } => Form::Truth(marked(marks, at)),
        Found::Binary {
            op: _,
            left: _,
            right: _,
        } => Form::Truth(marked(marks, at)),
        _ => Form::NoForm,
    }
}

pub fn form_at(
    sorts: &[u64],
    members: &[u64],
    names: &[u8],
    nodes: &[u64],
    text: &[u8],
    marks: &[u64],
    at: usize,
) -> Form
    ensures { FormAt sorts.now members.now names.now nodes.now text.now marks.now at result }
{
    let node = node_at(nodes, at);
    match node {
        Node::BitVec { width, low, high } => Form::Bits { width, low, high },
        Node::String { size, offset } => Form::Text { offset, size },
        Node::Symbol { size, offset } => word_form(members, names, text, offset, size),
        Node::App {
            children: _,
            end: _,
        } => app_form(sorts, names, nodes, text, marks, at),
        _ => Form::NoForm,
    }
}
