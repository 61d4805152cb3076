// Short runs, brought into order by the places of their records.
ghost use Rattle.std.specs.Prelude.{◌<◌, ◌≤◌, length, IfSome};
ghost use Rattle.runs.specs.Index.{Found, Inserted, Settled, Listed, Wrote};
ghost use Rattle.runs.specs.Merge.{Tried};
ghost use Rattle.runs.specs.Pair.{pairs, places, base, reach};

use crate::ends::after;
use crate::keys::below;
use crate::laying::lay;
use crate::places::{place, set_place};

// How many bytes at most a short run has; each place in it fits a pair of bytes.
const SHORT: usize = 16384;

// How many places at most an index has: those of a short run whose records have 8 bytes each.
const PLACES: usize = 512;

// Where in the scratch the records stand, behind the index.
const BASE: usize = 1024;

// How many of the first n places have a key before that at p, found by halving.
fn find(s: &[u8], index: &[u8], n: usize, p: usize) -> usize
    requires { n ≤ length (pairs index.now) }
    ensures { Found s.now (pairs index.now) n p result }
{
    let mut lo = 0;
    let mut hi = n;
    while lo < hi {
        let m = lo + (hi - lo) / 2;
        let q = place(index, m);
        if below(s, q, p) {
            lo = m + 1;
        } else {
            hi = m;
        }
    }
    lo
}

// The place p put in at the number `at`: each place from there on is handed one further.
// Stays: a loop and no `copy_within`, for the reason of lent::copy.
fn insert(index: &mut [u8], at: usize, n: usize, p: usize)
    requires { (at ≤ n) × (n < length (pairs index.old)) × (p < reach) }
    ensures { Inserted (pairs index.old) (pairs index.new) at n p }
{
    let mut carried = p;
    for i in at..n + 1 {
        let next = place(index, i);
        set_place(index, i, carried);
        carried = next;
    }
}

// The place p put among the first n by its key; answers how many there are then.
fn settle(s: &[u8], index: &mut [u8], n: usize, p: usize, last: bool) -> usize
    requires { (n < length (pairs index.old)) × (p < reach) }
    ensures { Settled last s.now (pairs index.old) (pairs index.new) n p result }
{
    let at = find(s, index, n, p);
    if n <= at || below(s, p, place(index, at)) {
        insert(index, at, n, p);
        return n + 1;
    }
    if last {
        set_place(index, at, p);
    }
    n
}

// The places of all records by their keys, one of each key; answers how many, where the index has room.
fn list(s: &[u8], index: &mut [u8], last: bool) -> Option<usize>
    requires { (length s.now ≤ reach) × (base ≤ length index.old) }
    ensures { IfSome result (λ n. Listed last s.now (pairs index.new) n) }
{
    let mut n = 0;
    let mut p = 0;
    while p < s.len() {
        if PLACES <= n {
            return None;
        }
        n = settle(s, index, n, p, last);
        p = after(s, p);
    }
    Some(n)
}

// The records at the first n places, one after the other behind the index; answers how many bytes, where there is room.
fn write(out: &mut [u8], s: &[u8], n: usize) -> Option<usize>
    requires { (n ≤ places) × (base ≤ length out.old) }
    ensures { IfSome result (λ r. Wrote s.now out.old n out.new r) }
{
    let mut w: usize = BASE;
    for i in 0..n {
        let p = place(out, i);
        if s.len() < p || out.len() - w < s.len() - p {
            return None;
        }
        w = lay(out, w, s, p);
    }
    Some(w - BASE)
}

// A short run brought into order at its front, where the scratch has room for an index and for its records; answers how many bytes. Where it is not
// short or there is no room, it stays.
pub fn try_short(s: &mut [u8], scratch: &mut [u8], last: bool) -> Option<usize>
    ensures { Tried last s.old s.new result }
{
    if SHORT < s.len() || scratch.len() < BASE + s.len() {
        return None;
    }
    let n = list(s, scratch, last)?;
    let w = write(scratch, s, n)?;
    if s.len() < w {
        return None;
    }
    Some(lent::copy(&scratch[BASE..BASE + w], s))
}
