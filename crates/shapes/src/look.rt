// What stands at a node, as far as an arm looks at it: a symbol, a numeral, a bit vector of 64 bits, or anything else.
ghost use Rattle.shapes.specs.Shows.{WordAt, IndexOf, WideAt, PartsAt};

use arena::{Node, node_at};

#[derive(Clone, Copy)]
pub struct Word {
    pub size: u64,
    pub offset: u64,
}

#[derive(Clone, Copy)]
pub struct Index {
    pub low: u64,
    pub high: u64,
}

pub fn symbol_at(nodes: &[u64], at: usize) -> Option<Word>
    ensures { WordAt nodes.now at result }
{
    match node_at(nodes, at) {
        Node::Symbol { size, offset } => Some(Word { size, offset }),
        _ => None,
    }
}

pub fn numeral_at(nodes: &[u64], at: usize) -> Option<Index>
    ensures { IndexOf nodes.now at result }
{
    match node_at(nodes, at) {
        Node::Numeral { low, high } => Some(Index { low, high }),
        _ => None,
    }
}

// How wide a bit vector is that holds a signed 64-bit number.
const SIXTY_FOUR: u64 = 64;

pub fn wide_at(nodes: &[u64], at: usize) -> Option<u64>
    ensures { WideAt nodes.now at result }
{
    match node_at(nodes, at) {
        Node::BitVec { width, low, .. } if width == SIXTY_FOUR => Some(low),
        _ => None,
    }
}

pub fn list_at(nodes: &[u64], at: usize) -> Option<u64>
    ensures { PartsAt nodes.now at result }
{
    match node_at(nodes, at) {
        Node::App { children, .. } => Some(children),
        _ => None,
    }
}
