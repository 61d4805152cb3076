// What is written of a value before the values inside it are: all of it, or what stands before its fields or its members.
ghost use Rattle.value_text.specs.Opened.{OpensValue, OpensApp, OpensMade};

use crate::leaf::{
    write_bits, write_extension, write_head, write_indexed, write_named, write_string, write_word,
};
use crate::made::{Made, made_of};
use arena::{Node, node_at};
use lent::put;
use shapes::{Found, shape_at};
use tables::clamp;
use words::Pair;

// Of a value without another one in it how long its text is; of the others the place after what stands before the fields, which `)` ends, or before the members.
#[derive(Clone, Copy)]
pub enum Opened {
    Whole(usize),
    Fields {
        first: usize,
        count: u64,
        place: usize,
    },
    Set(usize),
}

const PAREN: u8 = b'(';

// (NAME ..)
fn open_made(
    sorts: &[u64],
    names: &[u8],
    nodes: &[u64],
    text: &[u8],
    offset: u64,
    size: u64,
    first: usize,
    count: u64,
    out: &mut [u8],
) -> Opened
    ensures { OpensMade sorts.now names.now nodes.now text.now offset size first count out.old out.new result }
{
    let range = clamp(offset, size, text.len());
    let start = range.start;
    let end = range.end;
    let made = made_of(sorts, names, &text[start..end]);
    match made {
        Made::Entity(row) => Opened::Whole(write_named(nodes, text, row, first, out)),
        Made::Record(row) => {
            let place = write_head(b"r", row as u64, PAREN, out);
            Opened::Fields {
                first,
                count,
                place,
            }
        }
        Made::NoName => Opened::Whole(0),
    }
}

// An application by its shape. `some(a)` is written as a record of one field is.
fn open_app(
    sorts: &[u64],
    names: &[u8],
    nodes: &[u64],
    text: &[u8],
    at: usize,
    out: &mut [u8],
) -> Opened
    ensures { OpensApp sorts.now names.now nodes.now text.now at out.old out.new result }
{
    let shape = shape_at(nodes, text, at);
    match shape {
        Found::AsNone { .. } => Opened::Whole(put(b"none", out, 0)),
        Found::AsSome { value, .. } => Opened::Fields {
            first: value,
            count: 1,
            place: put(b"some(", out, 0),
        },
        Found::SomeOf { value } => Opened::Fields {
            first: value,
            count: 1,
            place: put(b"some(", out, 0),
        },
        Found::AsEmpty { .. } | Found::Singleton { .. } | Found::Union { .. } => Opened::Set(put(
            b"{", out, 0,
        )),
        Found::Extension { kind, low } => Opened::Whole(write_extension(kind, low, out)),
        Found::Indexed {
            offset,
            size,
            low,
            ..
        } => Opened::Whole(write_indexed(text, offset, size, low, out)),
        Found::Made {
            offset,
            size,
            first,
            count,
        } => open_made(sorts, names, nodes, text, offset, size, first, count, out),
        _ => Opened::Whole(0),
    }
}

// The value at a node, at the front of what is lent.
pub fn open_value(
    sorts: &[u64],
    members: &[u64],
    names: &[u8],
    nodes: &[u64],
    text: &[u8],
    at: usize,
    out: &mut [u8],
) -> Opened
    ensures { OpensValue sorts.now members.now names.now nodes.now text.now at out.old out.new result }
{
    let node = node_at(nodes, at);
    match node {
        Node::BitVec { width, low, high } => {
            Opened::Whole(write_bits(Pair { low, high }, width, out))
        }
        Node::String { size, offset } => Opened::Whole(write_string(text, offset, size, out)),
        Node::Symbol { size, offset } => {
            Opened::Whole(write_word(members, names, text, offset, size, out))
        }
        Node::App { .. } => open_app(sorts, names, nodes, text, at, out),
        _ => Opened::Whole(0),
    }
}
