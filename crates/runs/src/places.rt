// Places of records, each kept as a pair of bytes.
ghost use Rattle.std.specs.Prelude.{◌≡◌, ◌<◌, length, set};
ghost use Rattle.runs.specs.Pair.{pairs, reach, Place};

// The place that has the number i.
pub fn place(index: &[u8], i: usize) -> usize
    requires { i < length (pairs index.now) }
    ensures { Place index.now i result }
{
    index[2 * i] as usize + index[2 * i + 1] as usize * 256
}

// The place p at the number i.
pub fn set_place(index: &mut [u8], i: usize, p: usize)
    requires { (i < length (pairs index.old)) × (p < reach) }
    ensures { pairs index.new ≡ set (pairs index.old) i p }
{
    index[2 * i] = (p % 256) as u8;
    index[2 * i + 1] = (p / 256) as u8;
}
