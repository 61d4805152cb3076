// Tests: the list of them that a body can be, and the key that each has.
ghost use Rattle.commands.specs.TestShows.{TestsAt, ArgumentIs, KeyAt};

use arena::{after, text_is};
use shapes::{list_at, symbol_at};
use tables::clamp;

// The tests from a node on, so many of them.
#[derive(Clone, Copy)]
pub struct Disjunction {
    pub first: usize,
    pub count: u64,
}

// (or TEST ..), or anything else.
pub fn tests_at(nodes: &[u64], text: &[u8], at: usize) -> Option<Disjunction>
    ensures { TestsAt nodes.now text.now at result }
{
    let count = list_at(nodes, at)?;
    if count == 0 {
        return None;
    }
    let head = at + 1;
    let word = symbol_at(nodes, head)?;
    if text_is(text, word.offset, word.size, b"or") {
        let first = after(nodes, head);
        return Some(Disjunction {
            first,
            count: count - 1,
        });
    }
    None
}

// Whether the argument's name, whose text is told, stands at the node; bars are bytes like others.
fn is_argument(nodes: &[u64], text: &[u8], at: usize, offset: u64, size: u64) -> bool
    ensures { ArgumentIs nodes.now text.now at offset size result }
{
    let Some(word) = symbol_at(nodes, at) else {
        return false;
    };
    let range = clamp(offset, size, text.len());
    text_is(text, word.offset, word.size, &text[range.start..range.end])
}

// The key of (= ARG v), or else of (= v ARG).
pub fn key_at(
    nodes: &[u64],
    text: &[u8],
    at: usize,
    arg_offset: u64,
    arg_length: u64,
) -> Option<usize>
    ensures { KeyAt nodes.now text.now at arg_offset arg_length result }
{
    let count = list_at(nodes, at)?;
    if count != 3 {
        return None;
    }
    let head = at + 1;
    let word = symbol_at(nodes, head)?;
    if text_is(text, word.offset, word.size, b"=") {
        let left = after(nodes, head);
        let right = after(nodes, left);
        if is_argument(nodes, text, left, arg_offset, arg_length) {
            return Some(right);
        }
        if is_argument(nodes, text, right, arg_offset, arg_length) {
            return Some(left);
        }
    }
    None
}
