// One step of a function's body: an arm and the node of what follows it, or the default.
ghost use Rattle.commands.specs.LinkShows.{LinkAt};

use arena::{after, text_is};
use shapes::{list_at, symbol_at};

#[derive(Clone, Copy)]
pub struct Link {
    pub test: usize,
    pub value: usize,
    pub rest: usize,
}

// (ite TEST VALUE REST), or anything else.
pub fn link_at(nodes: &[u64], text: &[u8], at: usize) -> Option<Link>
    ensures { LinkAt nodes.now text.now at result }
{
    let count = list_at(nodes, at)?;
    if count != 4 {
        return None;
    }
    let head = at + 1;
    let word = symbol_at(nodes, head)?;
    if text_is(text, word.offset, word.size, b"ite") {
        let test = after(nodes, head);
        let value = after(nodes, test);
        let rest = after(nodes, value);
        return Some(Link { test, value, rest });
    }
    None
}
