// Records moved, each up to its end.
ghost use Rattle.std.specs.Prelude.{◌+◌, ◌-◌, ◌≤◌, length, drop};
ghost use Rattle.lent.specs.Put.{Puts};
ghost use Rattle.runs.specs.Piece.{piece};

use crate::ends::after;

// The record at i of another buffer, copied to w; answers the place after it.
pub fn lay(s: &mut [u8], w: usize, a: &[u8], i: usize) -> usize
    requires { (i ≤ length a.now) × (w + (length a.now - i) ≤ length s.old) }
    ensures { Puts s.old s.new w (piece (drop i a.now)) result }
{
    lent::put(&a[i..after(a, i)], s, w)
}

// The record at j, moved to w, which is not behind it; answers the place after it.
pub fn slide(s: &mut [u8], w: usize, j: usize) -> usize
    requires { (w ≤ j) × (j ≤ length s.old) }
    ensures { Puts s.old s.new w (piece (drop j s.old)) result }
{
    let n = after(s, j) - j;
    moves::draw(s, w, j, n)
}
