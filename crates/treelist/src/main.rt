// Reads one S-expression from standard input and lists its tree: the needs, a line a node, and the text.
#![tactic(auto)]

mod shows;

ghost use Rattle.std.specs.Prelude.{◌≡◌, length};
ghost use Rattle.reader.specs.Program.{program_words};

use reader::PROGRAM_WORDS;
use refusals::Refusal;
use replay::INPUT;

// Stays: arrays of a fixed length, since a program has fixed memory and no heap.
fn main() {
    let mut input = io::large_buffer();
    let mut nodes = node_words();
    let mut text = io::large_buffer();
    let mut stack = replay::stack_words();
    let mut line = io::large_buffer();
    list(&mut input, &mut nodes, &mut text, &mut stack, &mut line);
}

// Room for as many nodes as the other programs lend.
fn node_words() -> [u64; PROGRAM_WORDS]
    ensures { program_words ≡ length result }
{
    [0; PROGRAM_WORDS]
}

fn list(input: &mut [u8], nodes: &mut [u64], text: &mut [u8], stack: &mut [u64], line: &mut [u8]) {
    let got = io::read_full(INPUT, input);
    if more_follows() {
        return shows::refusal(Refusal::InputTooLong, line);
    }
    match reader::parse_sexpr(&input[..got], nodes, text, stack) {
        Ok(found) => shows::tree(found, nodes, text, line),
        Err(why) => shows::refusal(why, line),
    }
}

// Whether standard input has a byte more than was read: one past the room is enough to know.
fn more_follows() -> bool {
    let mut byte = [0u8; 1];
    0 < io::read_full(INPUT, &mut byte)
}
