// A name to its row: the first one that has it.
ghost use Rattle.std.specs.Prelude.{◌≡◌, ◌-◌};
ghost use Rattle.arena.specs.Text.{same_text};
ghost use Rattle.tables.specs.Layout.{count, name_at};
ghost use Rattle.tables.specs.Lookup.{MayBeNamed, FindsVariable, FindsFunction, FindsMember};
ghost use Rattle.tables.specs.Search.{is_row, first_row};

use crate::row::{clamp, count, is_inside, word};
use arena::same;

pub fn is_row(found: Option<usize>) -> bool
    ensures { result ≡ is_row found }
{
    found.is_some()
}

// A quick answer, no only where the row does not have the name: names of one table mostly differ in length or in the last byte.
pub fn may_be_named(rows: &[u64], names: &[u8], row: usize, name: &[u8]) -> bool
    ensures { MayBeNamed rows.now names.now name.now row result }
{
    let first = word(rows, row, 0);
    let size = word(rows, row, 1);
    if !is_inside(first, size, names.len()) {
        return true;
    }
    if size != name.len() as u64 {
        return false;
    }
    if size == 0 {
        return true;
    }
    let last = name.len() - 1;
    let there = first as usize + last;
    names[there] == name[last]
}

// Lengths are compared first, then bytes from the first one on.
pub fn is_named(rows: &[u64], names: &[u8], row: usize, name: &[u8]) -> bool
    ensures { result ≡ same_text name.now (name_at names.now rows.now row) }
{
    let range = clamp(word(rows, row, 0), word(rows, row, 1), names.len());
    same(name, &names[range.start..range.end])
}

// The rows of all tables begin with their name, so one search serves them; the check goes on behind a row by it.
// Stays: a `while`, since a `for` over the rows tests each row's place a second time: lookups in full tables took a seventh longer.
pub fn find_name(rows: &[u64], names: &[u8], name: &[u8], from: usize) -> Option<usize>
    ensures { result ≡ first_row (λ i. same_text name.now (name_at names.now rows.now i)) from (count rows.now - from) }
{
    let rows_there = count(rows);
    let mut i = from;
    while i < rows_there {
        if !may_be_named(rows, names, i, name) {
            i += 1;
            continue;
        }
        if is_named(rows, names, i, name) {
            return Some(i);
        }
        i += 1;
    }
    None
}

pub fn find_variable(variables: &[u64], names: &[u8], name: &[u8]) -> Option<usize>
    ensures { FindsVariable variables.now names.now name.now result }
{
    find_name(variables, names, name, 0)
}

pub fn find_function(functions: &[u64], names: &[u8], name: &[u8]) -> Option<usize>
    ensures { FindsFunction functions.now names.now name.now result }
{
    find_name(functions, names, name, 0)
}

pub fn find_member(members: &[u64], names: &[u8], name: &[u8]) -> Option<usize>
    ensures { FindsMember members.now names.now name.now result }
{
    find_name(members, names, name, 0)
}
