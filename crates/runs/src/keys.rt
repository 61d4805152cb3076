// Keys, compared byte by byte.
ghost use Rattle.std.specs.Prelude.{◌≡◌, drop};
ghost use Rattle.order.specs.Order.{before};
ghost use Rattle.runs.specs.Piece.{mark, key_at};
ghost use Rattle.runs.specs.Place.{Skipped};

// The byte after a key that something hangs on.
pub const STOP: u8 = 10;

// The byte at i that is compared, 0 where the key has ended.
fn mark(s: &[u8], i: usize) -> u8
    ensures { result ≡ mark (drop i s.now) }
{
    match s.get(i) {
        Some(byte) if *byte != STOP => *byte,
        _ => 0,
    }
}

// The place up to which the key at p of the one has the bytes of the key at q of the other; a byte up to the stop may end them.
// Stays: a loop over two places, since nothing says that p and q lie inside: a zip of the two rests has to test both first, and counts its bytes too.
fn past_same(a: &[u8], p: usize, b: &[u8], q: usize) -> usize
    ensures { Skipped a.now b.now p q result }
{
    let mut i = p;
    let mut j = q;
    while i < a.len() {
        if b.len() <= j {
            return i;
        }
        if a[i] != b[j] {
            return i;
        }
        if a[i] <= STOP {
            return i;
        }
        i += 1;
        j += 1;
    }
    i
}

// Whether the key at p of the one is before the key at q of the other.
// Stays: a loop over two places, since a key that ends counts as 0 there: no range has an end that both keys reach, and a slice of each key would be
// searched for its end before the first byte is compared.
pub fn less(a: &[u8], p: usize, b: &[u8], q: usize) -> bool
    ensures { result ≡ before (key_at a.now p) (key_at b.now q) }
{
    let mut i = past_same(a, p, b, q);
    let mut j = q + (i - p);
    loop {
        let x = mark(a, i);
        let y = mark(b, j);
        if y == 0 {
            return false;
        }
        if x < y {
            return true;
        }
        if y < x {
            return false;
        }
        i += 1;
        j += 1;
    }
}

// The same of two keys in one run.
pub fn below(s: &[u8], p: usize, q: usize) -> bool
    ensures { result ≡ before (key_at s.now p) (key_at s.now q) }
{
    less(s, p, s, q)
}
