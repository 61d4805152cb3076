// Words of rows, each in as few digits as it takes; they are gathered in a lent line and written when that is nearly full.
ghost use Rattle.std.specs.Prelude.{◌<◌, ◌≤◌, length};
ghost use Rattle.replay.specs.Places.{Onward};

use crate::output::room;
use crate::puts::{put, put_digits};

// Enough for a word, what parts it from the one before, and the name of what follows the last one.
const SPARE: usize = 64;

// What parts the word at a number from the one before it: rows of so many words are parted otherwise than the words of one.
fn put_parting(at: usize, stride: usize, row: &[u8], line: &mut [u8], start: usize) -> usize
    requires { 0 < stride }
    ensures { Onward (length line.old) start result }
{
    if at == 0 {
        start
    } else if at % stride == 0 {
        put(row, line, start)
    } else {
        put(b",", line, start)
    }
}

// The words from a place of the line on; answers where they end.
pub fn put_words(words: &[u64], stride: usize, row: &[u8], line: &mut [u8], start: usize) -> usize
    requires stride { 0 < stride }
    requires within { start ≤ length line.old }
    ensures { result ≤ length line.old }
{
    let mut end = start;
    for (at, word) in words.iter().enumerate() {
        let free = room(line, end, SPARE);
        let parted = put_parting(at, stride, row, line, free);
        end = put_digits(*word, line, parted);
    }
    end
}
