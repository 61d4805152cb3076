// The literal at a node, as far as its own node and words tell: a whole literal, or what is left to read below it.
ghost use Rattle.literals.specs.Plan.{EntityAt, RecordAs, PlansRow, PlansMade, PlansInside, PlansApp, PlansAt};

use crate::answer::{Literal, text_need};
use crate::form::{Form, Then, bare_of, expect_in, inside_row};
use crate::leaf::{bits_of, extension_of, string_of, word_of};
use crate::number::indexed_of;
use arena::{Node, node_at};
use refusals::Refusal;
use shapes::{Found as Shape, shape_at};
use sorts::read_sort;
use tables::{SortRow, clamp, find_sort_name, sort_at};

// One literal inside, and what is made of it; two of a union; or as many fields as a record has, from a first one on.
#[derive(Clone, Copy)]
pub enum Plan {
    Done(Literal),
    One {
        value: usize,
        inside: Option<usize>,
        then: Then,
    },
    Two {
        left: usize,
        right: usize,
    },
    Record {
        row: usize,
        node: usize,
        first: usize,
        count: usize,
    },
}

// (NAME "text") of an entity's row.
fn entity_of(nodes: &[u64], row: usize, first: usize, count: u64) -> Result<Literal, Refusal>
    ensures { EntityAt nodes.now row first count result }
{
    if count != 1 {
        return Err(Refusal::UnknownLiteral);
    }
    let Node::String { size, .. } = node_at(nodes, first) else {
        return Err(Refusal::UnknownLiteral);
    };
    Ok(Literal {
        row,
        need: text_need(row, size as usize),
        is_set: false,
    })
}

// A record's row, whose fields are so many from a first one on, of which the list has most.
fn record_of(
    most: usize,
    row: usize,
    begin: u64,
    size: u64,
    node: usize,
    count: u64,
) -> Result<Plan, Refusal>
    ensures { RecordAs most row begin size node count result }
{
    let range = clamp(begin, size, most);
    let many = range.end - range.start;
    if many as u64 != count {
        return Err(Refusal::UnmatchedRecordType);
    }
    Ok(Plan::Record {
        row,
        node,
        first: range.start,
        count: many,
    })
}

// (NAME ..) by NAME's row.
fn plan_row(
    sorts: &[u64],
    most: usize,
    nodes: &[u64],
    row: usize,
    first: usize,
    count: u64,
) -> Result<Plan, Refusal>
    ensures { PlansRow sorts.now most nodes.now row first count result }
{
    let sort = sort_at(sorts, row);
    match sort {
        SortRow::Entity => {
            let literal = entity_of(nodes, row, first, count)?;
            Ok(Plan::Done(literal))
        }
        SortRow::Record { first: begin, size } => record_of(most, row, begin, size, first, count),
        _ => Err(Refusal::UnknownLiteral),
    }
}

// (NAME ..).
fn plan_made(
    sorts: &[u64],
    most: usize,
    names: &[u8],
    nodes: &[u64],
    name: &[u8],
    first: usize,
    count: u64,
) -> Result<Plan, Refusal>
    ensures { PlansMade sorts.now most names.now nodes.now name.now first count result }
{
    let Some(row) = find_sort_name(sorts, names, name) else {
        return Err(Refusal::UnknownLiteral);
    };
    plan_row(sorts, most, nodes, row, first, count)
}

// (some v) and (set.singleton v): what is expected inside follows from what is expected.
fn plan_inside(
    sorts: &[u64],
    expected: Option<usize>,
    form: Form,
    value: usize,
) -> Result<Plan, Refusal>
    ensures { PlansInside sorts.now expected form value result }
{
    let inside = expect_in(sorts, expected, form)?;
    match form {
        Form::Option => Ok(Plan::One {
            value,
            inside,
            then: Then::Some,
        }),
        Form::Set => Ok(Plan::One {
            value,
            inside,
            then: Then::Singleton,
        }),
    }
}

// An application by its shape; most is how many fields the list of fields has. Of ((as some T) v) T's row tells what is expected inside, and what the whole has to be.
fn plan_app(
    sorts: &[u64],
    most: usize,
    names: &[u8],
    nodes: &[u64],
    text: &[u8],
    at: usize,
    expected: Option<usize>,
    below: usize,
) -> Result<Plan, Refusal>
    ensures { PlansApp sorts.now most names.now nodes.now text.now at expected below result }
{
    let shape = shape_at(nodes, text, at);
    match shape {
        Shape::Uncovered | Shape::Unary { .. } | Shape::Binary { .. } | Shape::Ite { .. } => {
            Err(Refusal::NotCovered)
        }
        Shape::AsNone { sort } => {
            let row = read_sort(sorts, names, nodes, text, sort, below)?;
            let literal = bare_of(sorts, row, Form::Option)?;
            Ok(Plan::Done(literal))
        }
        Shape::AsSome { sort, value } => {
            let row = read_sort(sorts, names, nodes, text, sort, below)?;
            let inside = inside_row(sorts, row, Form::Option);
            Ok(Plan::One {
                value,
                inside,
                then: Then::SomeAs(row),
            })
        }
        Shape::SomeOf { value } => plan_inside(sorts, expected, Form::Option, value),
        Shape::AsEmpty { sort } => {
            let row = read_sort(sorts, names, nodes, text, sort, below)?;
            let literal = bare_of(sorts, row, Form::Set)?;
            Ok(Plan::Done(literal))
        }
        Shape::Singleton { value } => plan_inside(sorts, expected, Form::Set, value),
        Shape::Union { left, right } => Ok(Plan::Two { left, right }),
        Shape::Extension { kind, low } => {
            let literal = extension_of(sorts, kind, low)?;
            Ok(Plan::Done(literal))
        }
        Shape::Indexed {
            offset,
            size,
            low,
            high,
        } => {
            let literal = indexed_of(sorts, text, offset, size, low, high)?;
            Ok(Plan::Done(literal))
        }
        Shape::Made {
            offset,
            size,
            first,
            count,
        } => {
            let range = clamp(offset, size, text.len());
            let start = range.start;
            let end = range.end;
            plan_made(sorts, most, names, nodes, &text[start..end], first, count)
        }
        Shape::Other => Err(Refusal::UnknownLiteral),
    }
}

// The literal at a node, with so many levels below it.
pub fn plan_at(
    sorts: &[u64],
    fields: &[u64],
    members: &[u64],
    names: &[u8],
    nodes: &[u64],
    text: &[u8],
    at: usize,
    expected: Option<usize>,
    below: usize,
) -> Result<Plan, Refusal>
    ensures { PlansAt sorts.now fields.now members.now names.now nodes.now text.now at expected below result }
{
    let node = node_at(nodes, at);
    match node {
        Node::BitVec { width, .. } => {
            let literal = bits_of(sorts, width)?;
            Ok(Plan::Done(literal))
        }
        Node::String { size, .. } => {
            let literal = string_of(sorts, size as usize)?;
            Ok(Plan::Done(literal))
        }
        Node::Symbol { size, offset } => {
            let literal = word_of(sorts, members, names, text, offset, size)?;
            Ok(Plan::Done(literal))
        }
        Node::App { .. } => {
            let most = fields.len();
            plan_app(sorts, most, names, nodes, text, at, expected, below)
        }
        Node::Numeral { .. } | Node::NoNode => Err(Refusal::UnknownLiteral),
    }
}
