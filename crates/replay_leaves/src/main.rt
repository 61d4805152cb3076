// Replays the vectors of the leaves: a case a line, answered by a line.
#![tactic(auto)]

mod cases;
mod shows;

// Stays: arrays of a fixed length, since a program has fixed memory and no heap.
fn main() {
    let mut input = io::large_buffer();
    let mut bytes = io::large_buffer();
    let mut text = io::large_buffer();
    let mut line = io::large_buffer();
    replay::each_line(&mut input, |case| {
        cases::answer(case, &mut bytes, &mut text, &mut line)
    });
}
