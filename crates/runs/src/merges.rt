// Two runs made one.
ghost use Rattle.std.specs.Prelude.{◌<◌, ◌≤◌, length};
ghost use Rattle.runs.specs.Merge.{Merged, Apart, Turned, Knitted, Met};

use crate::ends::{after, begin, half, lower};
use crate::keys::{below, less};
use crate::laying::{lay, slide};

// Places in two runs, and in what is made of them.
#[derive(Clone, Copy)]
pub struct Places {
    a: usize,
    b: usize,
    to: usize,
}

// The lower of the records at i and j is written to w; of two with one key, one is passed over.
fn turn(s: &mut [u8], a: &[u8], i: usize, j: usize, w: usize, last: bool) -> Places
    requires { (i < length a.now) × (j < length s.old) × Apart a.now s.old i j w }
    ensures { Turned last a.now s.old s.new i j w result }
{
    if less(a, i, s, j) {
        let next = lay(s, w, a, i);
        return Places {
            a: i + (next - w),
            b: j,
            to: next,
        };
    }
    if less(s, j, a, i) {
        let next = slide(s, w, j);
        return Places {
            a: i,
            b: j + (next - w),
            to: next,
        };
    }
    if last {
        let e = after(a, i);
        return Places { a: e, b: j, to: w };
    }
    let e = after(s, j);
    Places { a: i, b: e, to: w }
}

// The run `a` and the run in s behind as many bytes, made one in s.
fn knit(s: &mut [u8], a: &[u8], last: bool) -> usize
    requires { length a.now ≤ length s.old }
    ensures { Knitted last a.now s.old s.new result }
{
    let mut i = 0;
    let mut j = a.len();
    let mut w = 0;
    while i < a.len() {
        if s.len() <= j {
            return lent::put(&a[i..], s, w);
        }
        Places { a: i, b: j, to: w } = turn(s, a, i, j, w, last);
    }
    let n = s.len() - j;
    moves::draw(s, w, j, n)
}

// The first k bytes to the scratch, and from there merged.
fn weave(s: &mut [u8], k: usize, scratch: &mut [u8], last: bool) -> usize
    requires { (k ≤ length s.old) × (k ≤ length scratch.old) }
    ensures { Merged last k s.old s.new result }
{
    lent::copy(&s[..k], scratch);
    knit(s, &scratch[..k], last)
}

// Two runs that meet in one key, the first one's last at p and the second's first at k: one of the two is closed up.
fn meet(s: &mut [u8], p: usize, k: usize, last: bool) -> usize
    requires { (p ≤ k) × (k ≤ length s.old) }
    ensures { Met last s.old p k s.new result }
{
    if last {
        let n = s.len() - k;
        return moves::draw(s, p, k, n);
    }
    let e = after(s, k);
    let n = s.len() - e;
    moves::draw(s, k, e, n)
}

// Two runs in order, of which the first has k bytes, made one at the front; answers how many bytes.
pub fn merge(s: &mut [u8], k: usize, scratch: &mut [u8], last: bool) -> usize
    ensures { Merged last k s.old s.new result }
{
    if k == 0 || s.len() <= k {
        return s.len();
    }
    let p = begin(s, 0, k - 1);
    if below(s, p, k) {
        return s.len();
    }
    if !below(s, k, p) {
        return meet(s, p, k, last);
    }
    if k <= scratch.len() {
        return weave(s, k, scratch, last);
    }
    let h = half(s, k);
    let q = lower(s, h, k);
    moves::rotate(&mut s[h..q], k - h);
    let b = h + (q - k);
    if b == 0 {
        return s.len();
    }
    let m = merge(&mut s[..b], h, scratch, last);
    let n = merge(&mut s[b..], k - h, scratch, last);
    moves::draw(s, m, b, n)
}
