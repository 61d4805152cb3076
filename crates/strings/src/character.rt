// What stands at one place of a string: a code point.
ghost use Rattle.std.specs.Prelude.{◌≡◌, ◌<◌, length, drop};
ghost use Rattle.strings.specs.Points.{character_at};

use crate::escape::{Escape, escape_at};

// A code point, and how many bytes past the first stand for it.
#[derive(Clone, Copy)]
pub struct Character {
    pub point: u32,
    pub more: usize,
}

pub fn character_at(s: &[u8], at: usize) -> Character
    requires { at < length s.now }
    ensures { result ≡ character_at (drop at s.now) }
{
    let byte = s[at];
    if byte == b'\\' {
        return match escape_at(s, at + 1) {
            Some(Escape { value, bytes }) => Character {
                point: value,
                more: bytes,
            },
            None => Character { point: 92, more: 0 },
        };
    }
    if byte == b'"' && at + 1 < s.len() && s[at + 1] == b'"' {
        return Character { point: 34, more: 1 };
    }
    Character {
        point: u32::from(byte),
        more: 0,
    }
}
