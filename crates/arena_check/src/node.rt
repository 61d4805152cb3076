// One node against the text before it and the ends of the nodes behind it.
ghost use Rattle.std.specs.Prelude.{◌≡◌, cond, ◌+◌};
ghost use Rattle.words.specs.Pair.{value};
ghost use Rattle.arena.specs.Tree.{BitVector};
ghost use Rattle.arena_check.specs.Right.{Tells, Steps, StepsAt, Chain, Written};

use arena::{Node, after, node_at};
use utf8::is_utf8;
use words::Pair;

const MOST_WIDTH: u64 = 1 << 26;

// Sign-extended is what fits the signed range of the width: the number, or its complement, stays below the sign bit.
fn is_bit_vector(width: u64, number: Pair) -> bool
    ensures { Tells (BitVector width (value number)) result }
{
    if width == 0 || MOST_WIDTH < width {
        return false;
    }
    let complement = Pair {
        low: u64::MAX - number.low,
        high: u64::MAX - number.high,
    };
    !(number.reaches(width - 1) && complement.reaches(width - 1))
}

// Whether so many nodes follow each other by their ends, the last one up to the end.
fn is_chain(words: &[u64], from: usize, count: u64, end: usize) -> bool
    ensures { Tells (Chain count words.now from end) result }
{
    let mut at = from;
    for linked in 0..count {
        let next = after(words, at);
        if next <= at || end < next {
            return false;
        }
        at = next;
    }
    at == end
}

// The text of a node begins where the text before it ended, so that there is no gap.
fn check_text(text: &[u8], size: u64, offset: u64, from: usize) -> Option<usize>
    ensures { Steps (Written text.now size offset from) (from + size) result }
{
    if offset != from as u64 {
        return None;
    }
    let end = from.checked_add(size as usize)?;
    let own = text.get(from..end)?;
    is_utf8(own).then_some(end)
}

pub fn check_node(words: &[u64], text: &[u8], at: usize, from: usize) -> Option<usize>
    ensures { StepsAt words.now text.now at from result }
{
    match node_at(words, at) {
        Node::BitVec { width, low, high } => {
            is_bit_vector(width, Pair { low, high }).then_some(from)
        }
        Node::Numeral { .. } => Some(from),
        Node::String { size, offset } | Node::Symbol { size, offset } => {
            check_text(text, size, offset, from)
        }
        Node::App { children, end } => {
            is_chain(words, at + 1, children, end as usize).then_some(from)
        }
        Node::NoNode => None,
    }
}
