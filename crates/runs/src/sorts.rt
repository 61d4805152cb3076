// Records brought into order.
ghost use Rattle.runs.specs.Merge.{Sorted};
ghost use Rattle.runs.specs.Arrange.{ArrangedAs};

use crate::ends::half;
use crate::index::try_short;
use crate::merges::merge;

// All records in order at the front, one of each key; answers how many bytes. What a short run needs beside it stands in the scratch: this function
// calls itself, and a buffer of its own would be held once a level.
fn sort(s: &mut [u8], scratch: &mut [u8], last: bool) -> usize
    ensures { Sorted last s.old s.new result }
{
    if s.len() == 0 {
        return 0;
    }
    if let Some(n) = try_short(s, scratch, last) {
        return n;
    }
    let k = half(s, s.len());
    if k == 0 {
        return s.len();
    }
    let m = sort(&mut s[..k], scratch, last);
    let n = sort(&mut s[k..], scratch, last);
    let e = moves::draw(s, m, k, n);
    merge(&mut s[..e], m, scratch, last)
}

// The records of a run in order by their keys, one of each key, closed up, with 0 behind; answers how many bytes. The scratch may have any length.
pub fn arrange(s: &mut [u8], scratch: &mut [u8], last: bool) -> usize
    ensures { ArrangedAs last s.old s.new result }
{
    let n = sort(s, scratch, last);
    moves::clear(&mut s[n..]);
    n
}
