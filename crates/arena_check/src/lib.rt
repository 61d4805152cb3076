// The check of 27: whether words and a text start with the arena of a tree.
#![tactic(auto)]

mod node;

ghost use Rattle.arena_check.specs.Checks.{Checks};

use arena::after;
use node::check_node;
use refusals::Refusal;

#[derive(Clone, Copy)]
pub struct Checked {
    pub nodes: usize,
    pub text: usize,
}

const MOST_NODES: usize = 1 << 24;

const MOST_TEXT: usize = 1 << 25;

// One root: the nodes up to its end are the whole. Each node is looked at once, and since a node is reached only when all that hold it
// were right, it is hopped over by one application alone: the time is linear in the words and the text.
pub fn check_arena(words: &[u64], text: &[u8]) -> Result<Checked, Refusal>
    ensures { Checks words.now text.now result }
{
    let end = after(words, 0);
    if end == 0 || MOST_NODES < end {
        return Err(Refusal::BadArena);
    }
    let mut from = 0;
    for at in 0..end {
        from = check_node(words, text, at, from).ok_or(Refusal::BadArena)?;
    }
    if MOST_TEXT < from {
        return Err(Refusal::BadArena);
    }
    Ok(Checked {
        nodes: end,
        text: from,
    })
}
