// Escapes of the Unicode Strings theory: `\u` and four digits, or digits in braces.
ghost use Rattle.std.specs.Prelude.{◌≡◌, ◌≤◌, length, drop};
ghost use Rattle.strings.specs.Escape.{braced, braced_escape, four_digits, escape};

use words::digit_worth;

// Hexadecimal digits up to a closing brace: the number read and how many digits it has.
#[derive(Clone, Copy)]
pub struct Braced {
    pub value: u32,
    pub digits: usize,
}

// What follows a backslash, where it is an escape: its code point and how many bytes it takes.
#[derive(Clone, Copy)]
pub struct Escape {
    pub value: u32,
    pub bytes: usize,
}

// At most six digits are looked at.
fn hex_digits(s: &[u8], start: usize) -> Option<Braced>
    requires { start ≤ length s.now }
    ensures { result ≡ braced (drop start s.now) }
{
    let mut value: u32 = 0;
    let mut digits: usize = 0;
    let mut at = start;
    loop {
        if s.len() <= at {
            break None;
        }
        let byte = s[at];
        if byte == b'}' {
            break Some(Braced { value, digits });
        }
        let worth = digit_worth(byte);
        if 6 <= digits || 16 <= worth {
            break None;
        }
        value = value * 16 + u32::from(worth);
        digits += 1;
        at += 1;
    }
}

// After `\u{`: one digit at least, and a number of the theory's characters.
fn braced_escape(s: &[u8], start: usize) -> Option<Escape>
    requires { start ≤ length s.now }
    ensures { result ≡ braced_escape (drop start s.now) }
{
    let Braced { value, digits } = hex_digits(s, start)?;
    if digits == 0 || 0x2FFFF < value {
        return None;
    }
    Some(Escape {
        value,
        bytes: digits + 3,
    })
}

// After `\u` with no brace.
fn four_digits(s: &[u8], start: usize) -> Option<Escape>
    requires { start ≤ length s.now }
    ensures { result ≡ four_digits (drop start s.now) }
{
    let four = s.get(start..start + 4)?;
    let mut value = 0;
    for digit in four {
        let worth = digit_worth(*digit);
        if 16 <= worth {
            return None;
        }
        value = value * 16 + u32::from(worth);
    }
    Some(Escape { value, bytes: 5 })
}

// What follows the backslash before start.
pub fn escape_at(s: &[u8], start: usize) -> Option<Escape>
    requires { start ≤ length s.now }
    ensures { result ≡ escape (drop start s.now) }
{
    if s.len() <= start || s[start] != b'u' {
        return None;
    }
    let next = start + 1;
    if next < s.len() && s[next] == b'{' {
        return braced_escape(s, next + 1);
    }
    four_digits(s, next)
}
