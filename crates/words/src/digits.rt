// Runs of digits in radix 2, 10 and 16.
ghost use Rattle.std.specs.Prelude.{◌≡◌, ◌^◌, ◌<◌, ◌≤◌, length};
ghost use Rattle.words.specs.Radix.{base_of, worth};
ghost use Rattle.words.specs.Run.{parsed};

use crate::pair::Pair;
use refusals::Refusal;

#[derive(Clone, Copy)]
pub enum Radix {
    Binary,
    Decimal,
    Hexadecimal,
}

impl Radix {
    pub fn base(self) -> u64
        ensures { result ≡ base_of self }
    {
        match self {
            Radix::Binary => 2,
            Radix::Decimal => 10,
            Radix::Hexadecimal => 16,
        }
    }

    // So many digits fit one word, whichever they are.
    fn word_digits(self) -> usize
        ensures { base_of self ^ result ≤ 2 ^ 64 }
    {
        match self {
            Radix::Binary => 64,
            Radix::Decimal => 19,
            Radix::Hexadecimal => 16,
        }
    }
}

// What a byte is worth as a digit: 16 for a byte that is none.
// Stays: 16 and no Option, since one comparison with the base then refuses what is no digit and what is too large (`parse`, and `run_end` of tokens).
#[tactic(auto, unfolding(crate::specs::Radix::worth))]
pub fn digit_worth(byte: u8) -> u8
    ensures { result ≡ worth byte }
{
    // Stays: one test for ten digits, since what stands below `0` wraps to more than 9; as a range of the match it took a tenth longer at runs of 64.
    let decimal = byte.wrapping_sub(b'0');
    if decimal < 10 {
        return decimal;
    }
    match byte {
        b'A'..=b'F' => byte - b'A' + 10,
        b'a'..=b'f' => byte - b'a' + 10,
        _ => 16,
    }
}

// The number of a run that fits one word, whichever its digits are: no sum has to be tested.
fn parse_word(run: &[u8], radix: Radix) -> Result<Pair, Refusal>
    requires { (0 < length run.now) × (base_of radix ^ length run.now ≤ 2 ^ 64) }
    ensures { result ≡ parsed radix run.now }
{
    let base = radix.base();
    let mut number: u64 = 0;
    for &byte in run {
        let digit = u64::from(digit_worth(byte));
        if base <= digit {
            return Err(Refusal::ParseIntError);
        }
        number = number * base + digit;
    }
    Ok(Pair {
        low: number,
        high: 0,
    })
}

// The number of a run of digits; a run that holds anything else, is empty, or leaves 128 bits is refused by 4.
pub fn parse(run: &[u8], radix: Radix) -> Result<Pair, Refusal>
    ensures { result ≡ parsed radix run.now }
{
    if run.is_empty() {
        return Err(Refusal::ParseIntError);
    }
    if run.len() <= radix.word_digits() {
        return parse_word(run, radix);
    }
    let base = radix.base();
    let mut number = Pair::zero();
    for &byte in run {
        let digit = digit_worth(byte);
        if base <= u64::from(digit) {
            return Err(Refusal::ParseIntError);
        }
        number = number
            .add_digit(radix, digit)
            .ok_or(Refusal::ParseIntError)?;
    }
    Ok(number)
}
