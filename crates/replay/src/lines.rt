// The lines of standard input, read piece by piece into a lent buffer.
ghost use Rattle.std.specs.Prelude.{◌≡◌, ◌≤◌, length, IfSome};

use crate::fields::field_end;
use crate::streams::INPUT;

// A line from its start up to its line feed, where the next one starts, and where what was read ends.
// Stays: places in the lent buffer in place of slices, since `next_line` moves what stands there and reads behind it.
#[derive(Clone, Copy)]
pub struct Line {
    pub start: usize,
    pub stop: usize,
    pub next: usize,
    pub end: usize,
}

// What stands before the first line: nothing that was read.
pub fn before_lines() -> Line
    ensures { (result.start ≡ 0) × (result.stop ≡ 0) }
{
    Line {
        start: 0,
        stop: 0,
        next: 0,
        end: 0,
    }
}

// The line that starts at a place, where its line feed has been read.
fn line_at(input: &[u8], start: usize, end: usize) -> Option<Line>
    ensures { IfSome result (λ line. (line.start ≤ line.stop) × (line.stop ≤ length input.now)) }
{
    let stop = field_end(input, start, b'\n');
    if end <= stop || input.len() <= stop {
        return None;
    }
    Some(Line {
        start,
        stop,
        next: stop + 1,
        end,
    })
}

// What stands from a place up to an end, moved to the front; answers how much that is.
pub fn keep(input: &mut [u8], start: usize, end: usize) -> usize
    ensures { result ≤ length input.old }
{
    let stop = end.min(input.len());
    if stop <= start {
        return 0;
    }
    input.copy_within(start..stop, 0);
    stop - start
}

// The line after one; where no whole one is left, what is left goes to the front and more is read behind it.
pub fn next_line(input: &mut [u8], last: Line) -> Option<Line>
    ensures { IfSome result (λ line. (line.start ≤ line.stop) × (line.stop ≤ length input.old)) }
{
    let here = line_at(input, last.next, last.end);
    if here.is_some() {
        return here;
    }
    let kept = keep(input, last.next, last.end);
    let got = io::read_full(INPUT, &mut input[kept..]);
    line_at(input, 0, kept + got)
}

// Standard input has fewer lines than that: a loop needs an end.
const MOST: usize = 1000000000;

// Each line of standard input, handed to what answers it.
pub fn each_line<F: FnMut(&[u8])>(input: &mut [u8], mut answer: F)
    requires { F.IsAlwaysCallable answer }
{
    let mut last = before_lines();
    for _ in 0..MOST {
        let Some(line) = next_line(input, last) else {
            return;
        };
        answer(&input[line.start..line.stop]);
        last = line;
    }
}
