// All lines: the kinds in their order, to the text's end, and rows that break no rule.
ghost use Rattle.tables_text.specs.Parsing.{Rooms, Parses, Passing};

use crate::sorts::sort_rows;
use crate::walk::{function_rows, member_rows, variable_rows};
use tables::STRIDE;

// How many words each table has, or lines that are no lawful tables' form.
#[derive(Clone, Copy)]
pub struct Counts {
    pub sorts: usize,
    pub fields: usize,
    pub variables: usize,
    pub functions: usize,
    pub members: usize,
}

// Parts are taken and paths part here, where nothing is lent to be written: both cost the proof more, the more is lent so.
fn judge(
    parsed: Option<Counts>,
    text: &[u8],
    a: &[u64],
    b: &[u64],
    c: &[u64],
    d: &[u64],
    e: &[u64],
) -> Option<Counts>
    requires { Parses text.now a.now b.now c.now d.now e.now parsed }
    ensures { Passing text.now a.now b.now c.now d.now e.now result }
{
    let counts = parsed?;
    let answer = tables::check_tables(
        &a[..counts.sorts],
        &b[..counts.fields],
        &c[..counts.variables],
        &d[..counts.functions],
        &e[..counts.members],
        text,
    );
    match answer {
        Ok(()) => Some(counts),
        Err(_) => None,
    }
}

pub fn parse_rows(
    text: &[u8],
    sorts: &mut [u64],
    fields: &mut [u64],
    variables: &mut [u64],
    functions: &mut [u64],
    members: &mut [u64],
) -> Option<Counts>
    requires { Rooms text.now sorts.old fields.old variables.old functions.old members.old }
    ensures { Passing text.now sorts.new fields.new variables.new functions.new members.new result }
{
    let first = sort_rows(text, sorts, fields);
    let second = variable_rows(text, first.at, variables);
    let third = function_rows(text, second.at, functions);
    let last = member_rows(text, third.at, members);
    if last.at < text.len() {
        return None;
    }
    let parsed = Some(Counts {
        sorts: first.rows * STRIDE,
        fields: first.fields,
        variables: second.rows * STRIDE,
        functions: third.rows * STRIDE,
        members: last.rows * STRIDE,
    });
    judge(parsed, text, sorts, fields, variables, functions, members)
}
