// A list of two whose first is a symbol: (ARG SORT) of a function, (NAME VALUE) of a reply to get-value.
ghost use Rattle.std.specs.Prelude.{◌+◌};
ghost use Rattle.arena.specs.Node.{after_at};
ghost use Rattle.commands.specs.PairShows.{PairAt, TwoAt, SecondAt};

use arena::after;
use shapes::{list_at, symbol_at};

// The symbol's text, and the node of the second.
#[derive(Clone, Copy)]
pub struct NamedPair {
    pub size: u64,
    pub offset: u64,
    pub second: usize,
}

// Its two parts from a node on.
fn two(nodes: &[u64], first: usize) -> Option<NamedPair>
    ensures two_at { TwoAt nodes.now first result }
    ensures second_at { SecondAt (after_at nodes.now first) result }
{
    let word = symbol_at(nodes, first)?;
    let second = after(nodes, first);
    Some(NamedPair {
        size: word.size,
        offset: word.offset,
        second,
    })
}

pub fn pair_at(nodes: &[u64], at: usize) -> Option<NamedPair>
    ensures pair_at { PairAt nodes.now at result }
    ensures second_at { SecondAt (after_at nodes.now (at + 1)) result }
{
    let count = list_at(nodes, at)?;
    if count != 2 {
        return None;
    }
    two(nodes, at + 1)
}
