// Where records begin and end.
ghost use Rattle.std.specs.Prelude.{◌≤◌, ◌<◌, length};
ghost use Rattle.runs.specs.Place.{Ended, Begun, Halved, Lower};

use crate::keys::below;

// The byte after a record.
pub const END: u8 = 0;

// The place after the record at p.
pub fn after(s: &[u8], p: usize) -> usize
    requires { p ≤ length s.now }
    ensures { Ended s.now p result }
{
    for i in p..s.len() {
        if s[i] == END {
            return i + 1;
        }
    }
    s.len()
}

// The place where the record that holds the byte at `at` begins, found by going back to the end before it.
pub fn begin(s: &[u8], from: usize, at: usize) -> usize
    requires { (from ≤ at) × (at ≤ length s.now) }
    ensures { Begun s.now from at result }
{
    for i in (from..at).rev() {
        if s[i] == END {
            return i + 1;
        }
    }
    from
}

// A place inside the first k bytes where a record begins, near the middle; 0 where they are one record.
// Stays: a plain place in place of an Option, since 0 is a place too, where the first record begins, and `merge` splits there.
pub fn half(s: &[u8], k: usize) -> usize
    requires { (0 < k) × (k ≤ length s.now) }
    ensures { Halved s.now k result }
{
    let p = begin(s, 0, k / 2);
    if p != 0 {
        return p;
    }
    let e = after(s, 0);
    if e < k {
        return e;
    }
    0
}

// The place of the first record from `from` on that is not before the one at x, found by halving.
pub fn lower(s: &[u8], x: usize, from: usize) -> usize
    requires { (x ≤ length s.now) × (from ≤ length s.now) }
    ensures { Lower s.now x from result }
{
    let mut lo = from;
    let mut hi = s.len();
    while lo < hi {
        let p = begin(s, lo, lo + (hi - lo) / 2);
        if below(s, p, x) {
            lo = after(s, p);
        } else {
            hi = p;
        }
    }
    lo
}
