// A written sort is read by its shape; `(Option T)` and `(Set T)` read T first, one level below.
ghost use Rattle.std.specs.Prelude.{◌≡◌, ◌+◌, ◌*◌, ◌^◌};
ghost use Rattle.arena.specs.Text.{text_at};
ghost use Rattle.sorts.specs.Reads.{RowOf, WordSort, WidthSort, ReadsSort};

use arena::same;
use refusals::Refusal;
use shapes::{SortFound, sort_shape_at};
use tables::{Wanted, clamp, find_sort, find_sort_name};

// How many levels may be read: the outermost sort or value, and 1,023 below it.
pub const LEVELS: usize = 1024;

// The row of a sort that is met or formed.
pub fn row_of(sorts: &[u64], wanted: Wanted) -> Result<usize, Refusal>
    ensures { RowOf sorts.now wanted result }
{
    find_sort(sorts, wanted).ok_or(Refusal::NoSortRow)
}

fn sort_word(sorts: &[u64], names: &[u8], name: &[u8]) -> Result<usize, Refusal>
    ensures { WordSort sorts.now names.now name.now result }
{
    if same(name, b"Bool") {
        return row_of(sorts, Wanted::Bool);
    }
    if same(name, b"String") {
        return row_of(sorts, Wanted::String);
    }
    if same(name, b"Decimal") {
        return row_of(sorts, Wanted::Decimal);
    }
    if same(name, b"Datetime") {
        return row_of(sorts, Wanted::Datetime);
    }
    if same(name, b"Duration") {
        return row_of(sorts, Wanted::Duration);
    }
    find_sort_name(sorts, names, name).ok_or(Refusal::UnknownType)
}

// The first width that a written sort cannot have.
const WIDE: u64 = 1 << 32;

fn sort_width(sorts: &[u64], low: u64, high: u64) -> Result<usize, Refusal>
    ensures { WidthSort sorts.now (low + high * 2 ^ 64) result }
{
    if high != 0 || WIDE <= low {
        return Err(Refusal::IntegerOverflow);
    }
    if low == 0 {
        return Err(Refusal::ZeroWidthBitVec);
    }
    row_of(sorts, Wanted::BitVec(low))
}

fn word_at(
    sorts: &[u64],
    names: &[u8],
    text: &[u8],
    offset: u64,
    size: u64,
) -> Result<usize, Refusal>
    ensures { WordSort sorts.now names.now (text_at text.now offset size) result }
{
    let range = clamp(offset, size, text.len());
    sort_word(sorts, names, &text[range.start..range.end])
}

pub fn read_sort(
    sorts: &[u64],
    names: &[u8],
    nodes: &[u64],
    text: &[u8],
    at: usize,
    allow: usize,
) -> Result<usize, Refusal>
    ensures { ReadsSort sorts.now names.now nodes.now text.now at allow result }
{
    if allow == 0 {
        return Err(Refusal::TooNested);
    }
    match sort_shape_at(nodes, text, at) {
        SortFound::Word { offset, size } => word_at(sorts, names, text, offset, size),
        SortFound::Width { low, high } => sort_width(sorts, low, high),
        SortFound::OptionOf(inner) => {
            let row = read_sort(sorts, names, nodes, text, inner, allow - 1)?;
            row_of(sorts, Wanted::Option(row as u64))
        }
        SortFound::SetOf(inner) => {
            let row = read_sort(sorts, names, nodes, text, inner, allow - 1)?;
            row_of(sorts, Wanted::Set(row as u64))
        }
        SortFound::NoSort => Err(Refusal::UnknownType),
    }
}
