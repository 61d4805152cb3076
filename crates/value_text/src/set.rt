// The members of a set as a run of records, and the run as the rest of the set's text.
ghost use Rattle.value_text.specs.Closed.{Closes};
ghost use Rattle.value_text.specs.Opened.{ClosesSet};

use lent::put;
use literals::plus;
use moves::replace;
use runs::{END, arrange};

const COMMA: u8 = b',';

const BRACE: u8 = b'}';

// The records in order without repeats, a comma between two and a brace behind the last; answers how many bytes. The run has a record.
fn close(run: &mut [u8], scratch: &mut [u8]) -> usize
    ensures { Closes run.old run.new result }
{
    let count = arrange(run, scratch, true);
    if count == 0 {
        return 0;
    }
    if run.len() < count {
        return 0;
    }
    replace(run, END, COMMA);
    run[count - 1] = BRACE;
    count
}

// The set whose members stand from a place up to an end, behind its first brace.
pub fn close_set(out: &mut [u8], place: usize, end: usize, scratch: &mut [u8]) -> usize
    ensures { ClosesSet out.old out.new place end result }
{
    if end <= place {
        return put(b"}", out, place);
    }
    if out.len() < end {
        return place;
    }
    let count = close(&mut out[place..end], scratch);
    plus(place, count)
}
