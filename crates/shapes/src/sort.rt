// The shape of a written sort: a word, `(_ BitVec n)`, `(Option T)`, `(Set T)`, or none.
ghost use Rattle.shapes.specs.SortShape.{SortShapeAt, SortListAt, SortOneAt, SortTwoAt};

use crate::look::{Index, Word, list_at, numeral_at, symbol_at};
use arena::{after, text_is};

// A width is two words, the low one first.
#[derive(Clone, Copy)]
pub enum SortFound {
    Word { offset: u64, size: u64 },
    Width { low: u64, high: u64 },
    OptionOf(usize),
    SetOf(usize),
    NoSort,
}

// (Option T), (Set T)
fn sort_one(nodes: &[u64], text: &[u8], offset: u64, size: u64, first: usize) -> SortFound
    ensures { SortOneAt nodes.now text.now offset size first result }
{
    if text_is(text, offset, size, b"Option") {
        return SortFound::OptionOf(first);
    }
    if text_is(text, offset, size, b"Set") {
        return SortFound::SetOf(first);
    }
    SortFound::NoSort
}

// (_ BitVec n)
fn sort_two(nodes: &[u64], text: &[u8], offset: u64, size: u64, first: usize) -> SortFound
    ensures { SortTwoAt nodes.now text.now offset size first result }
{
    let Some(word) = symbol_at(nodes, first) else {
        return SortFound::NoSort;
    };
    let second = after(nodes, first);
    let Some(Index { low, high }) = numeral_at(nodes, second) else {
        return SortFound::NoSort;
    };
    if text_is(text, offset, size, b"_") && text_is(text, word.offset, word.size, b"BitVec") {
        return SortFound::Width { low, high };
    }
    SortFound::NoSort
}

// So many parts from a node on.
fn sort_list(nodes: &[u64], text: &[u8], at: usize, count: u64) -> SortFound
    ensures { SortListAt nodes.now text.now at count result }
{
    if count == 0 {
        return SortFound::NoSort;
    }
    let Some(Word { size, offset }) = symbol_at(nodes, at) else {
        return SortFound::NoSort;
    };
    let first = after(nodes, at);
    match count {
        2 => sort_one(nodes, text, offset, size, first),
        3 => sort_two(nodes, text, offset, size, first),
        _ => SortFound::NoSort,
    }
}

// The shape of the sort that is written at a node.
pub fn sort_shape_at(nodes: &[u64], text: &[u8], at: usize) -> SortFound
    ensures { SortShapeAt nodes.now text.now at result }
{
    if let Some(Word { size, offset }) = symbol_at(nodes, at) {
        return SortFound::Word { offset, size };
    }
    let Some(count) = list_at(nodes, at) else {
        return SortFound::NoSort;
    };
    sort_list(nodes, text, at + 1, count)
}
