// What is remembered of the nodes of an arena, in lent words: one bit for two nodes.
#![tactic(auto)]

ghost use Rattle.std.specs.Prelude.{◌≡◌, false, ◌<◌};
ghost use Rattle.marks.specs.Mark.{with_bit, marked, remembered};

// How many nodes one word tells of.
const NODES: usize = 128;

// Nodes past the words have nothing remembered.
pub fn marked(marks: &[u64], node: usize) -> bool
    ensures { result ≡ marked marks.now node }
{
    let Some(word) = marks.get(node / NODES) else {
        return false;
    };
    let bit = (node / 2 % 64) as u64;
    (word >> bit) % 2 == 1
}

// A word with a bit taken out of it, where it is set.
fn cleared(word: u64, bit: u64) -> u64
    requires { bit < 64 }
    ensures { result ≡ with_bit word bit false }
{
    if (word >> bit) % 2 == 0 {
        word
    } else {
        word - (1u64 << bit)
    }
}

pub fn remember(marks: &mut [u64], node: usize, truth: bool)
    ensures { marks.new ≡ remembered marks.old node truth }
{
    let place = node / NODES;
    if marks.len() <= place {
        return;
    }
    let bit = (node / 2 % 64) as u64;
    let word = cleared(marks[place], bit);
    marks[place] = if truth { word + (1u64 << bit) } else { word };
}
