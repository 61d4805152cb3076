// Hexadecimal digits: two a byte of a text, and of a number as many as a width takes.
ghost use Rattle.std.specs.Prelude.{◌≡◌, ◌++◌, ◌-◌, ◌/◌, ◌%◌, ◌^◌, ◌≤◌, ◌<◌, length, take, drop};
ghost use Rattle.lent.specs.Put.{Offers};
ghost use Rattle.words.specs.Pair.{value};
ghost use Rattle.values.specs.Text.{hex_digit, hex, hex_text};

use words::Pair;

fn digit(worth: u8) -> u8
    requires { worth < 16 }
    ensures { result ≡ hex_digit worth }
{
    if worth < 10 {
        return b'0' + worth;
    }
    b'a' + (worth - 10)
}

fn high_digit(byte: u8) -> u8
    ensures { result ≡ hex_digit (byte / 16) }
{
    digit(byte / 16)
}

fn low_digit(byte: u8) -> u8
    ensures { result ≡ hex_digit (byte % 16) }
{
    digit(byte % 16)
}

// Two digits a byte at a place, where there is room for them all; answers the place after them.
pub fn write_hex(bytes: &[u8], out: &mut [u8], at: usize) -> usize
    ensures { Offers out.old out.new at (hex_text bytes.now) result }
{
    if out.len() < at {
        return at;
    }
    if (out.len() - at) / 2 < bytes.len() {
        return at;
    }
    let mut to = at;
    for &byte in bytes {
        out[to] = high_digit(byte);
        out[to + 1] = low_digit(byte);
        to += 2;
    }
    to
}

// 2^60: what the lowest digit of the high word is worth in the low word, once both are a digit shorter.
const TOP: u64 = 1 << 60;

fn shortened(number: Pair) -> Pair
    ensures { value result ≡ value number / 16 }
{
    let low = number.low;
    let high = number.high;
    Pair {
        low: low / 16 + high % 16 * TOP,
        high: high / 16,
    }
}

fn last_digit(number: Pair) -> u8
    ensures { result ≡ hex_digit (value number % 16) }
{
    digit((number.low % 16) as u8)
}

// The last digits of a number in the places from start up to end, the last one first.
fn put_digits(number: Pair, out: &mut [u8], start: usize, end: usize)
    requires { (start ≤ end) × (end ≤ length out.old) }
    ensures { out.new ≡ take start out.old ++ (hex (end - start) (value number) ++ drop end out.old) }
{
    let mut rest = number;
    for at in (start..end).rev() {
        out[at] = last_digit(rest);
        rest = shortened(rest);
    }
}

// So many digits of a number at a place, where there is room for them; answers the place after them.
pub fn write_digits(number: Pair, count: u64, out: &mut [u8], at: usize) -> usize
    ensures { Offers out.old out.new at (hex count (value number)) result }
{
    if out.len() < at {
        return at;
    }
    let room = (out.len() - at) as u64;
    if room < count {
        return at;
    }
    let end = at + count as usize;
    put_digits(number, out, at, end);
    end
}
