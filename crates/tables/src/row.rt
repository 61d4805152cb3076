// A row's words, and the bytes or fields that two of them stand for. The stride stands here and nowhere else in the code.
ghost use Rattle.std.specs.Prelude.{◌≡◌, ◌+◌, leb};
ghost use Rattle.tables.specs.Layout.{count, word};
ghost use Rattle.tables.specs.Range.{Clamps};

// How many words a row has.
pub const STRIDE: usize = 5;

pub fn count(words: &[u64]) -> usize
    ensures { result ≡ count words.now }
{
    words.len() / STRIDE
}

// Word k of a row, 0 where the words end before it.
pub fn word(words: &[u64], row: usize, k: usize) -> u64
    ensures { result ≡ word words.now row k }
{
    if words.len() / STRIDE < row {
        return 0;
    }
    let first = row * STRIDE;
    if words.len() - first <= k {
        return 0;
    }
    words[first + k]
}

// Whether so many entries from the first on are all there.
pub fn is_inside(first: u64, size: u64, most: usize) -> bool
    ensures { result ≡ leb (first + size) most }
{
    let room = most as u64;
    first <= room && size <= room - first
}

// What lies from start to end.
#[derive(Clone, Copy)]
pub struct Range {
    pub start: usize,
    pub end: usize,
}

// So many entries from the first on, as far as there are any.
pub fn clamp(first: u64, size: u64, most: usize) -> Range
    ensures { Clamps first size most result }
{
    if most as u64 <= first {
        return Range {
            start: most,
            end: most,
        };
    }
    let start = first as usize;
    let left = most - start;
    if left as u64 <= size {
        return Range { start, end: most };
    }
    Range {
        start,
        end: start + size as usize,
    }
}
