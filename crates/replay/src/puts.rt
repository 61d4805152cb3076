// Pieces of an answer, each put at a place of a lent buffer.
// Stays: a lent buffer with a place beside it, since no heap is used: each piece answers the place of the next one.
ghost use Rattle.std.specs.Prelude.{length};
ghost use Rattle.replay.specs.Places.{Onward};

use refusals::Refusal;

// Bytes as they are from a place on, as many as there is room for.
pub fn put(bytes: &[u8], out: &mut [u8], start: usize) -> usize
    ensures { Onward (length out.old) start result }
{
    if out.len() <= start {
        return start;
    }
    let count = bytes.len().min(out.len() - start);
    out[start..start + count].copy_from_slice(&bytes[..count]);
    start + count
}

fn digit(worth: u8) -> u8 {
    b"0123456789abcdef"[(worth % 16) as usize]
}

// Bytes as pairs of digits from a place on, as many as there is room for.
pub fn put_hex(bytes: &[u8], out: &mut [u8], start: usize) -> usize
    ensures { Onward (length out.old) start result }
{
    if out.len() <= start {
        return start;
    }
    let count = bytes.len().min((out.len() - start) / 2);
    for (byte, pair) in bytes.iter().zip(out[start..].chunks_exact_mut(2)) {
        pair[0] = digit(*byte / 16);
        pair[1] = digit(*byte % 16);
    }
    start + 2 * count
}

// A number's decimal text from a place on, or nothing where there is no room for it.
pub fn put_number(number: u64, out: &mut [u8], start: usize) -> usize
    ensures { Onward (length out.old) start result }
{
    if out.len() <= start {
        return start;
    }
    match decimals::write_natural(number, &mut out[start..]) {
        Ok(count) if count <= out.len() - start => start + count,
        _ => start,
    }
}

// A word as sixteen digits from a place on.
pub fn put_word(word: u64, out: &mut [u8], start: usize) -> usize
    ensures { Onward (length out.old) start result }
{
    put_hex(&word.to_be_bytes(), out, start)
}

// A word in as few digits as it takes from a place on.
pub fn put_digits(word: u64, out: &mut [u8], start: usize) -> usize
    ensures { Onward (length out.old) start result }
{
    let mut digits = [0u8; 16];
    let count = io::hex(word, 1, &mut digits);
    put(&digits[..count], out, start)
}

// A name and a number.
pub fn put_named(name: &[u8], number: usize, out: &mut [u8], start: usize) -> usize
    ensures { Onward (length out.old) start result }
{
    let named = put(name, out, start);
    put_number(number as u64, out, named)
}

pub fn put_refusal(why: Refusal, out: &mut [u8], start: usize) -> usize
    ensures { Onward (length out.old) start result }
{
    put_named(b"refused=", why.number() as usize, out, start)
}

// A refusal with its detail.
pub fn put_detailed(why: Refusal, out: &mut [u8], start: usize) -> usize
    ensures { Onward (length out.old) start result }
{
    let end = put_refusal(why, out, start);
    put_named(b" detail=", why.detail(), out, end)
}
