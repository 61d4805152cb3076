// Replays the vectors of the script lines: a case a line, answered by a line.
#![tactic(auto)]

mod cases;
mod forms;
mod lists;
mod rooms;
mod shows;

fn main() {
    let mut input = io::large_buffer();
    let mut line = io::large_buffer();
    replay::each_line(&mut input, |case| cases::answer(case, &mut line));
}
