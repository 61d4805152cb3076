// Nodes written as the walk meets them: an application's words are completed where it ends.
ghost use Rattle.std.specs.Prelude.{◌≡◌, [], ◌∷◌, ◌++◌, ◌+◌, ◌*◌, ◌≤◌, length, drop, replicate};
ghost use Rattle.std.proofs.lemmas.List.Edits.{sets};
ghost use Rattle.arena.specs.Layout.{stride, node_words, app_words};
ghost use Rattle.brackets.specs.Put.{node_n, bump_n, close_n, leaf_n, Counts, FineOpen, FineClose, FineLeaf, Opened};

use arena::{APP, CHILDREN, END, FIRST, SECOND, STRIDE, THIRD};

// The words of one node.
#[derive(Clone, Copy)]
pub struct Words {
    pub kind: u64,
    pub one: u64,
    pub two: u64,
    pub three: u64,
}

fn put_node(nodes: &mut [u64], at: usize, words: Words)
    requires { at * stride + stride ≤ length nodes.old }
    ensures { nodes.new ≡ node_n at (node_words words.kind words.one words.two words.three) nodes.old }
{
    let first = at * STRIDE;
    nodes[first] = words.kind;
    nodes[first + FIRST] = words.one;
    nodes[first + SECOND] = words.two;
    nodes[first + THIRD] = words.three;
}

// One child more of the innermost of so many open lists.
fn bump(depth: usize, nodes: &mut [u64], stack: &[u64])
    requires { Counts depth nodes.old stack.now }
    ensures { nodes.new ≡ bump_n depth nodes.old stack.now }
{
    if depth == 0 {
        return;
    }
    let list = stack[depth - 1] as usize;
    let cell = list * STRIDE + CHILDREN;
    nodes[cell] += 1;
}

// A list begins: its count and its end are still to come.
pub fn put_open(at: usize, depth: usize, nodes: &mut [u64], stack: &mut [u64])
    requires { FineOpen at depth nodes.old stack.old }
    ensures { Opened at depth nodes.old nodes.new stack.old stack.new }
{
    let words = Words {
        kind: APP,
        one: 0,
        two: 0,
        three: 0,
    };
    put_node(nodes, at, words);
    stack[depth] = at as u64;
}

// The innermost of so many lists ends before a node.
pub fn put_close(at: usize, depth: usize, nodes: &mut [u64], stack: &[u64])
    requires { FineClose depth nodes.old stack.now }
    ensures { nodes.new ≡ close_n at depth nodes.old stack.now }
{
    let outer = depth - 1;
    let list = stack[outer] as usize;
    let cell = list * STRIDE + END;
    nodes[cell] = at as u64;
    bump(outer, nodes, stack);
}

// An atom, inside so many lists.
pub fn put_leaf(at: usize, depth: usize, words: Words, nodes: &mut [u64], stack: &[u64])
    requires { FineLeaf at depth (node_words words.kind words.one words.two words.three) nodes.old stack.now }
    ensures { nodes.new ≡ leaf_n at depth (node_words words.kind words.one words.two words.three) nodes.old stack.now }
{
    put_node(nodes, at, words);
    bump(depth, nodes, stack);
}

// So many first entries are 0.
pub fn clear(stack: &mut [u64], count: usize)
    requires { count ≤ length stack.old }
    ensures { stack.new ≡ replicate count 0 ++ drop count stack.old }
{
    stack[..count].fill(0);
}
