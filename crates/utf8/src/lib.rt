// UTF-8: whether a string of bytes is UTF-8, and the bytes of one code point.
#![tactic(auto)]

ghost use Rattle.std.specs.Prelude.{◌≡◌, cond, [], ◌∷◌, ◌+◌, ◌<◌, ◌≤◌, length, drop, replicate, None, Some, MatchOption};
ghost use Rattle.utf8.specs.Rows.{◌to◌, tail, rows};
ghost use Rattle.utf8.specs.Octets.{starts_with, width, utf8};
ghost use Rattle.utf8.specs.Encoding.{scalar, encoded, bytes_of};

pub fn is_utf8(s: &[u8]) -> bool
    ensures { result ≡ utf8 s.now }
{
    let mut i = 0;
    while i < s.len() {
        let Some(n) = sequence_at(s, i) else {
            return false;
        };
        i += n;
    }
    true
}

// The length of the sequence that starts at i, if one does: the lead byte tells its row.
// Stays: a match over the rows becomes a jump table, about a fifth slower on text of three bytes a character.
fn sequence_at(s: &[u8], i: usize) -> Option<usize>
    requires { i < length s.now }
    ensures { MatchOption result (width rows (drop i s.now) ≡ 0) (λ n. (0 < n) × (n ≡ width rows (drop i s.now))) }
{
    let lead = s[i];
    if lead < 0x80 {
        return Some(1);
    }
    if lead < 0xC2 {
        return None;
    }
    if lead < 0xE0 {
        return rest_at(s, i, 0x80, 0xBF, 0);
    }
    if lead < 0xE1 {
        return rest_at(s, i, 0xA0, 0xBF, 1);
    }
    if lead < 0xED {
        return rest_at(s, i, 0x80, 0xBF, 1);
    }
    if lead < 0xEE {
        return rest_at(s, i, 0x80, 0x9F, 1);
    }
    if lead < 0xF0 {
        return rest_at(s, i, 0x80, 0xBF, 1);
    }
    if lead < 0xF1 {
        return rest_at(s, i, 0x90, 0xBF, 2);
    }
    if lead < 0xF4 {
        return rest_at(s, i, 0x80, 0xBF, 2);
    }
    if lead < 0xF5 {
        return rest_at(s, i, 0x80, 0x8F, 2);
    }
    None
}

// The length of the sequence whose lead is at i, if after it come a byte from first to last and then so many tails.
fn rest_at(s: &[u8], i: usize, first: u8, last: u8, tails: usize) -> Option<usize>
    requires { (i < length s.now) × (tails ≤ 2) }
    ensures { result ≡ cond (starts_with (first to last ∷ replicate tails tail) (drop (i + 1) s.now)) (Some (2 + tails)) None }
{
    if !octet_at(s, i + 1, first, last) {
        return None;
    }
    for j in i + 2..i + 2 + tails {
        if !octet_at(s, j, 0x80, 0xBF) {
            return None;
        }
    }
    Some(2 + tails)
}

fn octet_at(s: &[u8], j: usize, first: u8, last: u8) -> bool
    ensures { result ≡ starts_with (first to last ∷ []) (drop j s.now) }
{
    s.get(j).is_some_and(|b| first <= *b && *b <= last)
}

// The bytes of one code point, if it has an encoding.
#[derive(Clone, Copy)]
pub enum Encoded {
    One(u8),
    Two(u8, u8),
    Three(u8, u8, u8),
    Four(u8, u8, u8, u8),
    NoEncoding,
}

pub fn encode(point: u32) -> Encoded
    ensures { result ≡ encoded point }
{
    if point < 0x80 {
        return Encoded::One(point as u8);
    }
    let last = (0x80 + point % 64) as u8;
    if point < 0x800 {
        return Encoded::Two((0xC0 + point / 64) as u8, last);
    }
    if !is_scalar(point) {
        return Encoded::NoEncoding;
    }
    let third = (0x80 + point / 64 % 64) as u8;
    if point < 0x10000 {
        return Encoded::Three((0xE0 + point / 4096) as u8, third, last);
    }
    let second = (0x80 + point / 4096 % 64) as u8;
    Encoded::Four((0xF0 + point / 262144) as u8, second, third, last)
}

// How many bytes the encoding has: 0 for a code point that has none.
pub fn encoded_length(point: u32) -> usize
    ensures { result ≡ length (bytes_of (encoded point)) }
{
    if point < 0x80 {
        return 1;
    }
    if point < 0x800 {
        return 2;
    }
    if !is_scalar(point) {
        return 0;
    }
    if point < 0x10000 {
        return 3;
    }
    4
}

#[tactic(auto, unfolding(crate::specs::Encoding::scalar))]
fn is_scalar(point: u32) -> bool
    ensures { result ≡ scalar point }
{
    point < 0xD800 || 0xE000 <= point && point <= 0x10FFFF
}
