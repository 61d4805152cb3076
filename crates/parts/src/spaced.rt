// A text that stays on its line.
ghost use Rattle.std.specs.Prelude.{◌≡◌, map, ◌≤◌, length};
ghost use Rattle.lent.specs.Put.{Fronts, Offers};
ghost use Rattle.parts.specs.Texts.{spaced};

fn space_for_feed(byte: u8) -> u8
    ensures { result ≡ spaced byte }
{
    if byte == b'\n' { b' ' } else { byte }
}

// A text with a space for each line feed, at the front of a buffer that has room for it.
fn copy_spaced(text: &[u8], out: &mut [u8]) -> usize
    requires { length text.now ≤ length out.old }
    ensures { Fronts (map spaced text.now) out.old out.new result }
{
    for (at, byte) in text.iter().enumerate() {
        out[at] = space_for_feed(*byte);
    }
    text.len()
}

// The same at a place, where there is room for it.
// Stays: lent::put with another copy, but a function for both would take the copy as a closure, with clauses on the rest of the buffer.
pub fn put_spaced(text: &[u8], out: &mut [u8], at: usize) -> usize
    ensures { Offers out.old out.new at (map spaced text.now) result }
{
    if out.len() < at || out.len() - at < text.len() {
        return at;
    }
    at + copy_spaced(text, &mut out[at..])
}
