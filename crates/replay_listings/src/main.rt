// Replays the vectors of the listings: a case a line, answered by what is printed, by what other rooms make of it, and by an empty line.
#![tactic(auto)]

mod cases;
mod rooms;

ghost use Rattle.std.specs.Prelude.{◌≡◌, length};

fn main() {
    let mut input = line_bytes();
    replay::each_line(&mut input, |case| cases::answer(case));
}

// Room for the longest line, of some 140,000 bytes.
fn line_bytes() -> [u8; 196608]
    ensures { 196608 ≡ length result }
{
    [0; 196608]
}
