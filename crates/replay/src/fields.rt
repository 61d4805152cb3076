// The fields of a case.
ghost use Rattle.std.specs.Prelude.{◌≤◌, length};
ghost use Rattle.replay.specs.Places.{Onward};

use words::{Pair, Radix, digit_worth};

// Where the field that begins at a place ends: at the stop byte, at a line feed, or with the input.
pub fn field_end(input: &[u8], start: usize, stop: u8) -> usize
    ensures { Onward (length input.now) start result }
{
    if input.len() <= start {
        return start;
    }
    let rest = &input[start..];
    match rest.iter().position(|byte| *byte == b'\n' || *byte == stop) {
        Some(count) => start + count,
        None => input.len(),
    }
}

// Where the field behind the one at a place begins, or the case ends.
pub fn next_field(case: &[u8], at: usize) -> usize
    ensures { result ≤ length case.now }
{
    let stop = field_end(case, at, b' ');
    if stop < case.len() {
        stop + 1
    } else {
        case.len()
    }
}

// The field at the front of a case, and what stands behind it.
pub fn split_field(case: &[u8]) -> (&[u8], &[u8])
    ensures { (length result.0.now ≤ length case.now) × (length result.1.now ≤ length case.now) }
{
    let stop = field_end(case, 0, b' ');
    let next = next_field(case, 0);
    (&case[..stop], &case[next..])
}

// The bytes that a field's pairs of digits stand for, as many as there is room for.
pub fn unhex(field: &[u8], out: &mut [u8]) -> usize
    ensures { result ≤ length out.old }
{
    let count = (field.len() / 2).min(out.len());
    for (pair, byte) in field.chunks_exact(2).zip(out.iter_mut()) {
        *byte = digit_worth(pair[0]) % 16 * 16 + digit_worth(pair[1]) % 16;
    }
    count
}

// The number that a field's hexadecimal digits stand for; a field that is none counts as 0.
pub fn number(field: &[u8]) -> Pair {
    words::parse(field, Radix::Hexadecimal).unwrap_or(Pair::zero())
}
