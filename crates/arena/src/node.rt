// A node by its number. The stride, the kinds and the place of each word are named here and nowhere else in the code.
ghost use Rattle.std.specs.Prelude.{◌≡◌};
ghost use Rattle.arena.specs.Node.{unused, node_of, node_at, after_at};

// What a node's words say; a number is two words, the low one first.
// Stays: `NoNode` is one of six ways to read words, which a match names beside the others, so it is no Option of the other five.
#[derive(Clone, Copy)]
pub enum Node {
    BitVec { width: u64, low: u64, high: u64 },
    Numeral { low: u64, high: u64 },
    String { size: u64, offset: u64 },
    Symbol { size: u64, offset: u64 },
    App { children: u64, end: u64 },
    NoNode,
}

// How many words a node has.
pub const STRIDE: usize = 4;

// The kinds, as word 0 has them.
// Stays: numbers, since the lent words are what C reads too; `Node` is the view of them by name.
pub const BIT_VEC: u64 = 1;

pub const NUMERAL: u64 = 2;

pub const STRING: u64 = 3;

pub const SYMBOL: u64 = 4;

pub const APP: u64 = 5;

// The places of the words behind the kind.
pub const FIRST: usize = 1;

pub const SECOND: usize = 2;

pub const THIRD: usize = 3;

// Where an application counts its children, and where it has its end.
pub const CHILDREN: usize = FIRST;

pub const END: usize = SECOND;

// A node whose kind leaves a word unused, where that word is 0.
fn unused(word: u64, node: Node) -> Node
    ensures { result ≡ unused word node }
{
    if word == 0 { node } else { Node::NoNode }
}

// A kind, and words 1 to 3.
fn node_of(kind: u64, w1: u64, w2: u64, w3: u64) -> Node
    ensures { result ≡ node_of kind w1 w2 w3 }
{
    match kind {
        BIT_VEC => Node::BitVec {
            width: w1,
            low: w2,
            high: w3,
        },
        NUMERAL => unused(w1, Node::Numeral { low: w2, high: w3 }),
        STRING => unused(
            w3,
            Node::String {
                size: w1,
                offset: w2,
            },
        ),
        SYMBOL => unused(
            w3,
            Node::Symbol {
                size: w1,
                offset: w2,
            },
        ),
        APP => unused(
            w3,
            Node::App {
                children: w1,
                end: w2,
            },
        ),
        _ => Node::NoNode,
    }
}

// The node of a number: none where the words end before it, where its kind is none of the five, or where an unused word is not 0.
pub fn node_at(words: &[u64], at: usize) -> Node
    ensures { result ≡ node_at words.now at }
{
    if words.len() / STRIDE <= at {
        return Node::NoNode;
    }
    let first = at * STRIDE;
    let kind = words[first];
    let w1 = words[first + FIRST];
    let w2 = words[first + SECOND];
    let w3 = words[first + THIRD];
    node_of(kind, w1, w2, w3)
}

// The node after a node and all its descendants; where there is no node, the same number.
pub fn after(words: &[u64], at: usize) -> usize
    ensures { result ≡ after_at words.now at }
{
    match node_at(words, at) {
        Node::App { end, .. } => end as usize,
        Node::NoNode => at,
        _ => at + 1,
    }
}
