// The fields of a case: numbers, lists of words, and bytes.
ghost use Rattle.std.specs.Prelude.{◌≤◌, length};

use words::Radix;

// So much as is asked for, as far as there is so much.
pub fn least(asked: u64, most: usize) -> usize
    ensures { result ≤ most }
{
    asked.min(most as u64) as usize
}

// A word behind those that are there; what is no number is none.
fn put_word(field: &[u8], out: &mut [u64], count: usize) -> usize
    requires { count ≤ length out.old }
    ensures { result ≤ length out.old }
{
    let Ok(pair) = words::parse(field, Radix::Hexadecimal) else {
        return count;
    };
    if out.len() <= count {
        return count;
    }
    out[count] = pair.low;
    count + 1
}

// The words of a list, commas between them; answers how many they are.
pub fn put_words(list: &[u8], out: &mut [u64]) -> usize
    ensures { result ≤ length out.old }
{
    let mut count = 0;
    for word in list.split(|byte| *byte == b',') {
        count = put_word(word, out, count);
    }
    count
}

// The bytes from start on up to a place, again and again up to an end.
fn repeat(out: &mut [u8], start: usize, from: usize, end: usize)
    requires { end ≤ length out.old }
{
    if from <= start {
        return;
    }
    let size = from - start;
    for at in from..end {
        out[at] = out[at - size];
    }
}

// A part in hexadecimal; with `*` and a number behind it, the part again and again until it is so long.
fn put_part(field: &[u8], out: &mut [u8], start: usize) -> usize
    requires { start ≤ length out.old }
    ensures { result ≤ length out.old }
{
    let star = replay::field_end(field, 0, b'*');
    let from = start + replay::unhex(&field[..star], &mut out[start..]);
    if field.len() <= star {
        return from;
    }
    let end = start + least(replay::number(&field[star + 1..]).low, out.len() - start);
    repeat(out, start, from, end);
    end
}

// The bytes of parts, points between them; answers how many they are.
pub fn put_bytes(parts: &[u8], out: &mut [u8]) -> usize
    ensures { result ≤ length out.old }
{
    let mut count = 0;
    for part in parts.split(|byte| *byte == b'.') {
        count = put_part(part, out, count);
    }
    count
}
