// A sort row by its number, and the rows of a sort and of a sort's name.
ghost use Rattle.std.specs.Prelude.{◌≡◌, ◌-◌};
ghost use Rattle.tables.specs.Layout.{count};
ghost use Rattle.tables.specs.Search.{first_row};
ghost use Rattle.tables.specs.View.{sort_row_of, sort_row_at, key_of, sort_wanted, is_kind, has_name, is_named};
ghost use Rattle.tables.specs.Lookup.{FindsSort, FindsNamed};

use crate::find::{is_named, may_be_named};
use crate::row::{count, word};

// What a sort row says; a name is words 0 and 1 of the row, a record's fields are so many from the first on.
#[derive(Clone, Copy)]
pub enum SortRow {
    Bool,
    String,
    Decimal,
    Datetime,
    Duration,
    BitVec(u64),
    Option(u64),
    Set(u64),
    Entity,
    Record { first: u64, size: u64 },
    NoRow,
}

// Stays: a kind is a word of the lent tables, which C writes; `SortRow` is the view of it by name, and `NoRow` one of its eleven ways, so it is no Option of the other ten.
fn sort_of(kind: u64, number: u64, size: u64) -> SortRow
    ensures { result ≡ sort_row_of kind number size }
{
    match kind {
        1 => SortRow::Bool,
        2 => SortRow::String,
        3 => SortRow::Decimal,
        4 => SortRow::Datetime,
        5 => SortRow::Duration,
        6 => SortRow::BitVec(number),
        7 => SortRow::Option(number),
        8 => SortRow::Set(number),
        9 => SortRow::Entity,
        _ => SortRow::Record {
            first: number,
            size,
        },
    }
}

pub fn sort_at(sorts: &[u64], row: usize) -> SortRow
    ensures { result ≡ sort_row_at sorts.now row }
{
    if count(sorts) <= row {
        return SortRow::NoRow;
    }
    sort_of(
        word(sorts, row, 2),
        word(sorts, row, 3),
        word(sorts, row, 4),
    )
}

// The first kind with a number, a width or a row; kinds below it stand for one sort each.
pub const BIT_VEC: u64 = 6;

// The first kind with a name.
pub const ENTITY: u64 = 9;

// A sort that has no name.
#[derive(Clone, Copy)]
pub enum Wanted {
    Bool,
    String,
    Decimal,
    Datetime,
    Duration,
    BitVec(u64),
    Option(u64),
    Set(u64),
}

#[derive(Clone, Copy)]
pub struct Key {
    pub kind: u64,
    pub number: u64,
}

fn key_of(wanted: Wanted) -> Key
    ensures { result ≡ key_of wanted }
{
    match wanted {
        Wanted::Bool => Key { kind: 1, number: 0 },
        Wanted::String => Key { kind: 2, number: 0 },
        Wanted::Decimal => Key { kind: 3, number: 0 },
        Wanted::Datetime => Key { kind: 4, number: 0 },
        Wanted::Duration => Key { kind: 5, number: 0 },
        Wanted::BitVec(width) => Key {
            kind: 6,
            number: width,
        },
        Wanted::Option(row) => Key {
            kind: 7,
            number: row,
        },
        Wanted::Set(row) => Key {
            kind: 8,
            number: row,
        },
    }
}

fn is_kind(sorts: &[u64], row: usize, kind: u64, number: u64) -> bool
    ensures { result ≡ is_kind sorts.now kind number row }
{
    word(sorts, row, 2) == kind && (kind < BIT_VEC || word(sorts, row, 3) == number)
}

// Stays: a `while`, as `find_name`'s.
pub fn find_kind(sorts: &[u64], kind: u64, number: u64, from: usize) -> Option<usize>
    ensures { result ≡ first_row (is_kind sorts.now kind number) from (count sorts.now - from) }
{
    let rows_there = count(sorts);
    let mut i = from;
    while i < rows_there {
        if is_kind(sorts, i, kind, number) {
            return Some(i);
        }
        i += 1;
    }
    None
}

pub fn find_sort(sorts: &[u64], wanted: Wanted) -> Option<usize>
    ensures { FindsSort sorts.now (sort_wanted wanted) result }
{
    let key = key_of(wanted);
    find_kind(sorts, key.kind, key.number, 0)
}

// Whether a row is told from the others by its name: an entity's, and any that is read as a record.
pub fn has_name(kind: u64) -> bool
    ensures { result ≡ has_name kind }
{
    kind == 0 || ENTITY <= kind
}

fn is_named_sort(sorts: &[u64], names: &[u8], row: usize, name: &[u8]) -> bool
    ensures { result ≡ is_named sorts.now names.now name.now row }
{
    has_name(word(sorts, row, 2)) && is_named(sorts, names, row, name)
}

// Stays: a `while`, as `find_name`'s.
pub fn find_named(sorts: &[u64], names: &[u8], name: &[u8], from: usize) -> Option<usize>
    ensures { result ≡ first_row (is_named sorts.now names.now name.now) from (count sorts.now - from) }
{
    let rows_there = count(sorts);
    let mut i = from;
    while i < rows_there {
        if !may_be_named(sorts, names, i, name) {
            i += 1;
            continue;
        }
        if is_named_sort(sorts, names, i, name) {
            return Some(i);
        }
        i += 1;
    }
    None
}

// An entity's or a record's row.
pub fn find_sort_name(sorts: &[u64], names: &[u8], name: &[u8]) -> Option<usize>
    ensures { FindsNamed sorts.now names.now name.now result }
{
    find_named(sorts, names, name, 0)
}
