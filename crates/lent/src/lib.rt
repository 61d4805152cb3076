// Texts at the front of a lent buffer, and pieces at a place in it.
#![tactic(auto)]

ghost use Rattle.std.specs.Prelude.{◌≤◌, length};
ghost use Rattle.lent.specs.Put.{Fronts, Offers};

use refusals::Refusal;

// Bytes at the front of a buffer that has room for them; answers how many.
// Stays: a loop and no `copy_from_slice`, with which the archive for C would need `memmove`, and short pieces would take a call of it.
pub fn copy(bytes: &[u8], out: &mut [u8]) -> usize
    requires { length bytes.now ≤ length out.old }
    ensures { Fronts bytes.now out.old out.new result }
{
    for (at, byte) in bytes.iter().enumerate() {
        out[at] = *byte;
    }
    bytes.len()
}

// A piece at a place, where there is room for it; answers the place after it.
pub fn put(piece: &[u8], out: &mut [u8], at: usize) -> usize
    ensures { Offers out.old out.new at piece.now result }
{
    if out.len() < at || out.len() - at < piece.len() {
        return at;
    }
    at + copy(piece, &mut out[at..])
}
