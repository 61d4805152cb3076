// Bytes moved inside a buffer: drawn together, turned round, cleared; and one byte in place of another.
#![tactic(auto)]

ghost use Rattle.std.specs.Prelude.{◌≡◌, ◌++◌, ◌+◌, ◌≤◌, length, take, drop, replicate};
ghost use Rattle.lent.specs.Put.{Puts};
ghost use Rattle.moves.specs.Replace.{replaced};

// The n bytes from j on, moved to w, which is not behind them; answers the place after them.
// Stays: a loop and no `copy_within`, for the reason of lent::copy. Where w is j each byte is in its place already.
pub fn draw(s: &mut [u8], w: usize, j: usize, n: usize) -> usize
    requires { (w ≤ j) × (j + n ≤ length s.old) }
    ensures { Puts s.old s.new w (take n (drop j s.old)) result }
{
    if w != j {
        for i in 0..n {
            s[w + i] = s[j + i];
        }
    }
    w + n
}

// The bytes from k on, then the first k.
// Stays: three reversals and no `rotate_left`, which moves by one place with `memmove`.
pub fn rotate(s: &mut [u8], k: usize)
    requires { k ≤ length s.old }
    ensures { s.new ≡ drop k s.old ++ take k s.old }
{
    let (front, back) = s.split_at_mut(k);
    front.reverse();
    back.reverse();
    s.reverse();
}

// All bytes 0.
pub fn clear(s: &mut [u8])
    ensures { s.new ≡ replicate (length s.old) 0 }
{
    s.fill(0);
}

// One byte in place of another, wherever that stands.
pub fn replace(s: &mut [u8], from: u8, to: u8)
    ensures { s.new ≡ replaced from to s.old }
{
    for byte in s.iter_mut() {
        *byte = if *byte == from { to } else { *byte };
    }
}
