// The table of last definitions, so many words a slot. The stride and each word's place stand here and nowhere else in the code.
ghost use Rattle.std.specs.Prelude.{◌≡◌};
ghost use Rattle.walk.specs.Last.{word_at, Keeps};

const STRIDE: usize = 3;
// The node of the last command, 0 where none defines the name.
pub const NODE: usize = 0;
// The node of its value or its body.
pub const VALUE: usize = 1;
// How long its text is.
pub const NEED: usize = 2;

// A slot for each variable and each function of full tables.
pub const WORDS: usize = 2048 * STRIDE;

// A later command replaces an earlier one.
pub fn keep(last: &mut [usize], slot: usize, node: usize, value: usize, need: usize)
    ensures { Keeps last.old slot node value need last.new }
{
    if last.len() / STRIDE <= slot {
        return;
    }
    last[slot * STRIDE + NODE] = node;
    last[slot * STRIDE + VALUE] = value;
    last[slot * STRIDE + NEED] = need;
}

// A word of a slot, 0 where the words end before it.
pub fn noted(last: &[usize], slot: usize, word: usize) -> usize
    ensures { result ≡ word_at last.now slot word }
{
    if last.len() / STRIDE < slot {
        return 0;
    }
    let first = slot * STRIDE;
    if last.len() - first <= word {
        return 0;
    }
    last[first + word]
}
