// The literal decoder and the record walk call each other: one level is spent on each literal read, none on the walk.
ghost use Rattle.std.specs.Prelude.{◌≡◌, ◌+◌, get_or};
ghost use Rattle.literals.specs.Field.{field_answer, record_need};
ghost use Rattle.literals.specs.Plan.{DecodesAt, FieldsAt};

use crate::answer::{Literal, plus};
use crate::form::{finish, union_of};
use crate::plan::{Plan, plan_at};
use arena::after;
use decimals::digit_count;
use refusals::Refusal;

// Field i of those from the first on, as a row.
fn field_row(fields: &[u64], first: usize, i: usize) -> usize
    ensures { result ≡ get_or fields.now (first + i) 0 }
{
    if fields.len() <= first {
        return 0;
    }
    if fields.len() - first <= i {
        return 0;
    }
    fields[first + i] as usize
}

fn field_of(literal: Result<Literal, Refusal>, wanted: usize) -> Result<usize, Refusal>
    ensures { result ≡ field_answer literal wanted }
{
    let found = literal?;
    if found.row != wanted {
        return Err(Refusal::UnmatchedFieldType);
    }
    Ok(found.need)
}

// `r`, the row, `(`, the fields with a comma between two, `)`; total counts each field and one byte more.
fn record_need(row: usize, total: usize) -> usize
    ensures { result ≡ record_need row total }
{
    let frame = digit_count(row as u64) + 3;
    if total == 0 {
        return frame;
    }
    plus(total - 1, frame)
}

// The fields of a record of the row, so many from the first on, that stand from a node on.
#[cycle(decode_fields_decode_literal)]
fn decode_fields(
    sorts: &[u64],
    fields: &[u64],
    members: &[u64],
    names: &[u8],
    nodes: &[u64],
    text: &[u8],
    row: usize,
    node: usize,
    first: usize,
    count: usize,
    allow: usize,
) -> Result<Literal, Refusal>
    ensures { FieldsAt sorts.now fields.now members.now names.now nodes.now text.now row node first count allow result }
{
    let mut place = node;
    let mut total: usize = 0;
    for i in 0..count {
        let wanted = field_row(fields, first, i);
        let literal = decode_literal(
            sorts,
            fields,
            members,
            names,
            nodes,
            text,
            place,
            Some(wanted),
            allow,
        );
        let need = field_of(literal, wanted)?;
        total = plus(total, plus(need, 1));
        place = after(nodes, place);
    }
    Ok(Literal {
        row,
        need: record_need(row, total),
        is_set: false,
    })
}

// The literal at a node, where a sort is expected or none, with so many levels.
#[cycle(decode_fields_decode_literal)]
pub fn decode_literal(
    sorts: &[u64],
    fields: &[u64],
    members: &[u64],
    names: &[u8],
    nodes: &[u64],
    text: &[u8],
    at: usize,
    expected: Option<usize>,
    allow: usize,
) -> Result<Literal, Refusal>
    ensures { DecodesAt sorts.now fields.now members.now names.now nodes.now text.now at expected allow result }
{
    if allow == 0 {
        return Err(Refusal::TooNested);
    }
    let below = allow - 1;
    let plan = plan_at(
        sorts, fields, members, names, nodes, text, at, expected, below,
    )?;
    match plan {
        Plan::Done(literal) => Ok(literal),
        Plan::One {
            value,
            inside,
            then,
        } => {
            let inner = decode_literal(
                sorts, fields, members, names, nodes, text, value, inside, below,
            )?;
            finish(sorts, inner, then)
        }
        Plan::Two { left, right } => {
            let first = decode_literal(
                sorts, fields, members, names, nodes, text, left, expected, below,
            )?;
            let second = decode_literal(
                sorts, fields, members, names, nodes, text, right, expected, below,
            )?;
            union_of(first, second)
        }
        Plan::Record {
            row,
            node,
            first,
            count,
        } => decode_fields(
            sorts, fields, members, names, nodes, text, row, node, first, count, below,
        ),
    }
}
