// The lines of sorts.
ghost use Rattle.std.specs.Prelude.{◌≡◌, ◌+◌, ◌-◌, ◌*◌, ◌≤◌, length, drop};
ghost use Rattle.tables_text.specs.Parse.{numbered, named_form, numbered_form, form};
ghost use Rattle.tables_text.specs.Told.{form_told, FieldsPut, numbered_told};

use crate::line::{end_at, starts};
use crate::number::number_in;
use arena::same;

// The kind and the number of a sort without a name.
#[derive(Clone, Copy)]
pub enum SortLine {
    Plain { kind: u64, number: u64 },
    Entity,
    Record,
    Other,
}

// How long the name is, and how many fields follow it.
#[derive(Clone, Copy)]
pub struct RecordLine {
    pub name: usize,
    pub count: usize,
}

fn numbered_sort(kind: u64, s: &[u8], start: usize) -> SortLine
    requires { start ≤ length s.now }
    ensures { result ≡ numbered_told kind (drop start s.now) }
{
    match number_in(&s[start..]) {
        Some(number) => SortLine::Plain { kind, number },
        None => SortLine::Other,
    }
}

fn named_form(s: &[u8]) -> SortLine
    ensures { result ≡ form_told (named_form s.now) }
{
    if starts(s, b"sort=entity ") {
        return SortLine::Entity;
    }
    if starts(s, b"sort=record ") {
        return SortLine::Record;
    }
    SortLine::Other
}

fn numbered_form(s: &[u8]) -> SortLine
    ensures { result ≡ form_told (numbered_form s.now) }
{
    if starts(s, b"sort=bitvec ") {
        return numbered_sort(6, s, 12);
    }
    if starts(s, b"sort=option ") {
        return numbered_sort(7, s, 12);
    }
    if starts(s, b"sort=set ") {
        return numbered_sort(8, s, 9);
    }
    named_form(s)
}

pub fn form_of(s: &[u8]) -> SortLine
    ensures { result ≡ form_told (form s.now) }
{
    if same(s, b"sort=bool") {
        return SortLine::Plain { kind: 1, number: 0 };
    }
    if same(s, b"sort=string") {
        return SortLine::Plain { kind: 2, number: 0 };
    }
    if same(s, b"sort=decimal") {
        return SortLine::Plain { kind: 3, number: 0 };
    }
    if same(s, b"sort=datetime") {
        return SortLine::Plain { kind: 4, number: 0 };
    }
    if same(s, b"sort=duration") {
        return SortLine::Plain { kind: 5, number: 0 };
    }
    numbered_form(s)
}

// The fields of a record's line, put behind those that are there.
pub fn record_in(s: &[u8], fields: &mut [u64], before: usize) -> Option<RecordLine>
    requires { (12 ≤ length s.now) × (before * 2 + length s.now ≤ length fields.old * 2) }
    ensures { FieldsPut before (drop 12 s.now) fields.old fields.new result }
{
    let first = end_at(s, 12, b' ');
    let mut at = first;
    let mut count = 0;
    while at < s.len() {
        let from = at + 1;
        let end = end_at(s, from, b' ');
        let number = number_in(&s[from..end])?;
        fields[before + count] = number;
        count += 1;
        at = end;
    }
    Some(RecordLine {
        name: first - 12,
        count,
    })
}
