// The text of a string: found too long or refused in a first pass, written in a second.
ghost use Rattle.std.specs.Prelude.{◌≡◌, ◌+◌, ◌≤◌, length};
ghost use Rattle.lent.specs.Left.{Leaves};
ghost use Rattle.utf8.specs.Encoding.{bytes_of};
ghost use Rattle.strings.specs.Text.{text, measured, decoded};
ghost use Rattle.lent.specs.Put.{Puts, Fronts};

use crate::character::character_at;
use refusals::{INPUT_LIMIT, Refusal};
use utf8::{Encoded, encode, encoded_length};

// How many bytes the text has, unless a surrogate, which has no UTF-8, stands in it.
pub fn measure(s: &[u8]) -> Option<usize>
    ensures { result ≡ measured s.now }
{
    let mut total: usize = 0;
    let mut at = 0;
    while at < s.len() {
        let found = character_at(s, at);
        let size = encoded_length(found.point);
        if size == 0 {
            return None;
        }
        total += size;
        at = at + 1 + found.more;
    }
    Some(total)
}

// The bytes of one code point, at a place.
fn put(out: &mut [u8], at: usize, bytes: Encoded) -> usize
    requires { at + length (bytes_of bytes) ≤ length out.old }
    ensures { Puts out.old out.new at (bytes_of bytes) result }
{
    match bytes {
        Encoded::One(a) => {
            out[at] = a;
            at + 1
        }
        Encoded::Two(a, b) => {
            out[at] = a;
            out[at + 1] = b;
            at + 2
        }
        Encoded::Three(a, b, c) => {
            out[at] = a;
            out[at + 1] = b;
            out[at + 2] = c;
            at + 3
        }
        Encoded::Four(a, b, c, d) => {
            out[at] = a;
            out[at + 1] = b;
            out[at + 2] = c;
            out[at + 3] = d;
            at + 4
        }
        Encoded::NoEncoding => at,
    }
}

// The text at the front of a buffer that has room for it; answers its length.
pub fn write_text(s: &[u8], out: &mut [u8]) -> usize
    requires { length (text s.now) ≤ length out.old }
    ensures { Fronts (text s.now) out.old out.new result }
{
    let mut to = 0;
    let mut at = 0;
    while at < s.len() {
        let found = character_at(s, at);
        let bytes = encode(found.point);
        to = put(out, to, bytes);
        at = at + 1 + found.more;
    }
    to
}

// The text of a string literal's inside, or a refusal: 9 for a string too long, 3 for a surrogate, 11 with the need for want of room.
pub fn decode_string(s: &[u8], out: &mut [u8]) -> Result<usize, Refusal>
    ensures { Leaves (decoded s.now out.old) result out.new }
{
    if INPUT_LIMIT < s.len() {
        return Err(Refusal::InputTooLong);
    }
    let need = measure(s).ok_or(Refusal::StringParseError)?;
    if out.len() < need {
        return Err(Refusal::TextRoom(need));
    }
    write_text(s, out);
    Ok(need)
}
