// A run of arms as their lines, in the bytes where it stands.
ghost use Rattle.arms.specs.Settle.{Lines, Settles};

use literals::plus;
use moves::replace;
use runs::{END, STOP, arrange};

// The records in order, the last of each key, a line end behind each; answers how many bytes.
fn line_up(run: &mut [u8], scratch: &mut [u8]) -> usize
    ensures { Lines run.old run.new result }
{
    let count = arrange(run, scratch, true);
    replace(run, END, STOP);
    count
}

// The same of the run from a place up to another; answers the place after the lines.
pub fn settle(scratch: &mut [u8], out: &mut [u8], start: usize, end: usize) -> usize
    ensures { Settles out.old out.new start end result }
{
    if end < start {
        return start;
    }
    if out.len() < end {
        return start;
    }
    let count = line_up(&mut out[start..end], scratch);
    plus(start, count)
}
