// The lines one after the other: each row's words behind those of the rows before it, names as places in the text.
ghost use Rattle.std.specs.Prelude.{◌≡◌, ◌+◌, ◌*◌, ◌≤◌, length, drop};
ghost use Rattle.std.proofs.lemmas.List.Edits.{sets};
ghost use Rattle.tables.specs.Layout.{stride};
ghost use Rattle.tables.specs.Rules.{row_limit};
ghost use Rattle.tables_text.specs.Line.{variable_line, function_line, member_line};
ghost use Rattle.tables_text.specs.Words.{row_words, variable_words, function_words, member_words};
ghost use Rattle.tables_text.specs.Parse.{line_row, walk, variable_in, function_in, member_in};
ghost use Rattle.tables_text.specs.Told.{Lined, WalkedTo};

use crate::line::end_at;
use crate::row::{FunctionLine, MemberLine, VariableLine, function_in, member_in, variable_in};
use tables::STRIDE;

pub const ROW_LIMIT: usize = 1024;

// Where the rows of a kind end, and how many they are.
#[derive(Clone, Copy)]
pub struct Walk {
    pub at: usize,
    pub rows: usize,
}

pub fn put_row(table: &mut [u64], row: usize, a: u64, b: u64, c: u64, d: u64, e: u64)
    requires { row * stride + stride ≤ length table.old }
    ensures { table.new ≡ sets table.old (row * stride) (row_words a b c d e) }
{
    let first = row * STRIDE;
    table[first] = a;
    table[first + 1] = b;
    table[first + 2] = c;
    table[first + 3] = d;
    table[first + 4] = e;
}

fn variable_line(text: &[u8], at: usize, table: &mut [u64], row: usize) -> Option<usize>
    requires { (at ≤ length text.now) × (row * stride + stride ≤ length table.old) }
    ensures { Lined variable_line variable_words at row (line_row variable_in (drop at text.now)) table.old table.new result }
{
    let end = end_at(text, at, b'\n');
    if text.len() <= end {
        return None;
    }
    let VariableLine { name, sort } = variable_in(&text[at..end])?;
    put_row(table, row, (at + 4) as u64, name as u64, sort, 0, 0);
    Some(end + 1)
}

// Stays: one walk for all kinds has a contract over the row's type, reader, writer, words and two laws: longer than three loops.
pub fn variable_rows(text: &[u8], start: usize, table: &mut [u64]) -> Walk
    requires { (start ≤ length text.now) × (row_limit * stride ≤ length table.old) }
    ensures { WalkedTo variable_line variable_words start (walk variable_in row_limit (drop start text.now)) table.new result }
{
    let mut at = start;
    for row in 0..ROW_LIMIT {
        let Some(next) = variable_line(text, at, table, row) else {
            return Walk { at, rows: row };
        };
        at = next;
    }
    Walk {
        at,
        rows: ROW_LIMIT,
    }
}

fn function_line(text: &[u8], at: usize, table: &mut [u64], row: usize) -> Option<usize>
    requires { (at ≤ length text.now) × (row * stride + stride ≤ length table.old) }
    ensures { Lined function_line function_words at row (line_row function_in (drop at text.now)) table.old table.new result }
{
    let end = end_at(text, at, b'\n');
    if text.len() <= end {
        return None;
    }
    let FunctionLine {
        name,
        argument,
        result,
    } = function_in(&text[at..end])?;
    put_row(
        table,
        row,
        (at + 4) as u64,
        name as u64,
        argument,
        result,
        0,
    );
    Some(end + 1)
}

pub fn function_rows(text: &[u8], start: usize, table: &mut [u64]) -> Walk
    requires { (start ≤ length text.now) × (row_limit * stride ≤ length table.old) }
    ensures { WalkedTo function_line function_words start (walk function_in row_limit (drop start text.now)) table.new result }
{
    let mut at = start;
    for row in 0..ROW_LIMIT {
        let Some(next) = function_line(text, at, table, row) else {
            return Walk { at, rows: row };
        };
        at = next;
    }
    Walk {
        at,
        rows: ROW_LIMIT,
    }
}

fn member_line(text: &[u8], at: usize, table: &mut [u64], row: usize) -> Option<usize>
    requires { (at ≤ length text.now) × (row * stride + stride ≤ length table.old) }
    ensures { Lined member_line member_words at row (line_row member_in (drop at text.now)) table.old table.new result }
{
    let end = end_at(text, at, b'\n');
    if text.len() <= end {
        return None;
    }
    let MemberLine {
        name,
        entity,
        text: size,
    } = member_in(&text[at..end])?;
    put_row(
        table,
        row,
        (at + 5) as u64,
        name as u64,
        entity,
        (end - size) as u64,
        size as u64,
    );
    Some(end + 1)
}

pub fn member_rows(text: &[u8], start: usize, table: &mut [u64]) -> Walk
    requires { (start ≤ length text.now) × (row_limit * stride ≤ length table.old) }
    ensures { WalkedTo member_line member_words start (walk member_in row_limit (drop start text.now)) table.new result }
{
    let mut at = start;
    for row in 0..ROW_LIMIT {
        let Some(next) = member_line(text, at, table, row) else {
            return Walk { at, rows: row };
        };
        at = next;
    }
    Walk {
        at,
        rows: ROW_LIMIT,
    }
}
