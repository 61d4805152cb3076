// One row against the form and the rules.
ghost use Rattle.std.specs.Prelude.{◌≡◌, ◌&&◌, leb, ltb};
ghost use Rattle.ground.specs.Lists.{all};
ghost use Rattle.tables.specs.Rules.{name_right};
ghost use Rattle.tables.specs.Right.{right_name, right_own, right_text, right_fields, entity_at, right_sort, right_variable, right_function, right_member};

use crate::kept::is_kept;
use crate::row::{clamp, count, is_inside, word};
use crate::sort::{BIT_VEC, ENTITY};
use lexicon::is_symbol;
use utf8::is_utf8;

const MOST_BYTES: usize = 65536;

const MOST_FIELDS: usize = 256;

const MOST_WIDTH: u64 = 128;

const LAST_KIND: u64 = 10;

fn is_right(name: &[u8]) -> bool
    ensures { result ≡ name_right name.now }
{
    name.len() <= MOST_BYTES && is_symbol(name)
}

fn is_name(rows: &[u64], names: &[u8], row: usize) -> bool
    ensures { result ≡ right_name names.now rows.now row }
{
    let first = word(rows, row, 0);
    let size = word(rows, row, 1);
    if !is_inside(first, size, names.len()) {
        return false;
    }
    let range = clamp(first, size, names.len());
    is_right(&names[range.start..range.end])
}

// The name of a sort or an enum member.
fn is_own(rows: &[u64], names: &[u8], row: usize) -> bool
    ensures { result ≡ right_own names.now rows.now row }
{
    if !is_name(rows, names, row) {
        return false;
    }
    let range = clamp(word(rows, row, 0), word(rows, row, 1), names.len());
    !is_kept(&names[range.start..range.end])
}

fn is_text(names: &[u8], first: u64, size: u64) -> bool
    ensures { result ≡ right_text names.now first size }
{
    if !is_inside(first, size, names.len()) {
        return false;
    }
    let text = clamp(first, size, names.len());
    if MOST_BYTES < text.end - text.start {
        return false;
    }
    is_utf8(&names[text.start..text.end])
}

fn are_below(fields: &[u64], row: u64) -> bool
    ensures { result ≡ all (λ field. ltb field row) fields.now }
{
    for field in fields {
        if row <= *field {
            return false;
        }
    }
    true
}

// A record's fields, so many from the first on.
fn are_fields(fields: &[u64], first: u64, size: u64, row: usize) -> bool
    ensures { result ≡ right_fields fields.now first size row }
{
    if !is_inside(first, size, fields.len()) {
        return false;
    }
    let range = clamp(first, size, fields.len());
    if MOST_FIELDS < range.end - range.start {
        return false;
    }
    are_below(&fields[range.start..range.end], row as u64)
}

// By the kind: the first ones have nothing else, then come a width, a row, a name, a name and fields.
pub fn is_sort(sorts: &[u64], fields: &[u64], names: &[u8], row: usize) -> bool
    ensures { result ≡ right_sort sorts.now fields.now names.now row }
{
    let kind = word(sorts, row, 2);
    if kind == 0 {
        return false;
    }
    if kind < BIT_VEC {
        return true;
    }
    let number = word(sorts, row, 3);
    if kind == BIT_VEC {
        return is_width(number);
    }
    if kind < ENTITY {
        return number < row as u64;
    }
    if LAST_KIND < kind {
        return false;
    }
    if !is_own(sorts, names, row) {
        return false;
    }
    if kind == ENTITY {
        return true;
    }
    are_fields(fields, number, word(sorts, row, 4), row)
}

fn is_width(width: u64) -> bool
    ensures { result ≡ (leb 1 width && leb width 128) }
{
    1 <= width && width <= MOST_WIDTH
}

pub fn is_variable(variables: &[u64], names: &[u8], row: usize, sorts: usize) -> bool
    ensures { result ≡ right_variable variables.now names.now sorts row }
{
    is_name(variables, names, row) && word(variables, row, 2) < sorts as u64
}

pub fn is_function(functions: &[u64], names: &[u8], row: usize, sorts: usize) -> bool
    ensures { result ≡ right_function functions.now names.now sorts row }
{
    is_name(functions, names, row)
        && word(functions, row, 2) < sorts as u64
        && word(functions, row, 3) < sorts as u64
}

fn is_entity(sorts: &[u64], row: u64) -> bool
    ensures { result ≡ entity_at sorts.now row }
{
    row < count(sorts) as u64 && word(sorts, row as usize, 2) == ENTITY
}

pub fn is_member(members: &[u64], sorts: &[u64], names: &[u8], row: usize) -> bool
    ensures { result ≡ right_member members.now sorts.now names.now row }
{
    is_own(members, names, row)
        && is_entity(sorts, word(members, row, 2))
        && is_text(names, word(members, row, 3), word(members, row, 4))
}
