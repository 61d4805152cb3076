// Replays the vectors of the reader: a case a line, answered by a line.
#![tactic(auto)]

mod cases;
mod shows;

ghost use Rattle.std.specs.Prelude.{◌≡◌, length};

// Stays: arrays of a fixed length, since a program has fixed memory and no heap.
fn main() {
    let mut input = io::large_buffer();
    let mut bytes = io::large_buffer();
    let mut nodes = node_words();
    let mut text = io::large_buffer();
    let mut stack = replay::stack_words();
    let mut line = io::large_buffer();
    replay::each_line(&mut input, |case| {
        cases::answer(
            case, &mut bytes, &mut nodes, &mut text, &mut stack, &mut line,
        )
    });
}

// Room for 8,192 nodes: the widest tree of the vectors has 7,501, the deepest 2,500 open brackets.
fn node_words() -> [u64; 32768]
    ensures { 32768 ≡ length result }
{
    [0; 32768]
}
