// A number of 128 bits: its low and its high word.
ghost use Rattle.std.specs.Prelude.{◌≡◌, ◌+◌, ◌*◌, ◌^◌, ◌<◌, nat_le};
ghost use Rattle.words.specs.Extension.{signed, extended, extended_word};
ghost use Rattle.words.specs.Pair.{value, pair_of, grown, ordered};
ghost use Rattle.words.specs.Radix.{base_of};

use crate::digits::Radix;
use std::cmp::Ordering;

#[derive(Clone, Copy)]
pub struct Pair {
    pub low: u64,
    pub high: u64,
}

// Stays: its cases hand the number on, as the answers of `add_digit` and `sign_extend` do, so it is no `Ordering`.
#[derive(Clone, Copy)]
pub enum Order {
    Less(Pair),
    Same(Pair),
    More(Pair),
}

const HALF: u64 = 1 << 32;

impl Pair {
    pub fn zero() -> Self
        ensures { result ≡ pair_of 0 }
    {
        Pair { low: 0, high: 0 }
    }

    // One digit more: each half word times the base, with the carry of the half below it.
    pub fn add_digit(self, radix: Radix, digit: u8) -> Option<Pair>
        ensures { result ≡ grown (value self * base_of radix + digit) }
    {
        let base = radix.base();
        let low = self.low;
        let high = self.high;
        let first = low % HALF * base + digit as u64;
        let second = low / HALF * base + first / HALF;
        let third = high % HALF * base + second / HALF;
        let fourth = high / HALF * base + third / HALF;
        if HALF <= fourth {
            return None;
        }
        Some(Pair {
            low: second % HALF * HALF + first % HALF,
            high: fourth * HALF + third % HALF,
        })
    }

    // The number of width bits, its sign bit repeated up to bit 127; any width of 128 or more, and 0, leaves it.
    pub fn sign_extend(self, width: u64) -> Pair
        ensures { result ≡ pair_of (extended width (value self)) }
    {
        if width == 0 || 128 <= width {
            return self;
        }
        if width <= 64 {
            let Some(low) = fill_from(self.low, width - 1) else {
                return self;
            };
            return Pair {
                low,
                high: u64::MAX,
            };
        }
        let Some(high) = fill_from(self.high, width - 65) else {
            return self;
        };
        Pair { high, ..self }
    }

    // Less, same or more without signs; the number is handed on in the answer, as in `add_digit`'s.
    pub fn compare(self, other: Pair) -> Order
        ensures { result ≡ ordered self (value other) }
    {
        let by_high = self.high.cmp(&other.high);
        match by_high.then(self.low.cmp(&other.low)) {
            Ordering::Less => Order::Less(self),
            Ordering::Equal => Order::Same(self),
            Ordering::Greater => Order::More(self),
        }
    }

    // The low word read as signed: what Decimal, Datetime and Duration hold.
    pub fn signed_low(self) -> i64
        ensures { result ≡ signed 64 self.low }
    {
        self.low.cast_signed()
    }

    // Whether the number is 2^width or more, so that width bits do not hold it.
    pub fn reaches(self, width: u64) -> bool
        ensures { result ≡ nat_le (2 ^ width) (value self) }
    {
        if 128 <= width {
            return false;
        }
        if 64 <= width {
            return 0 < self.high >> (width - 64);
        }
        0 < self.high || 0 < self.low >> width
    }
}

// A word with ones in place of its bits from a bit on, where that bit is set.
fn fill_from(word: u64, bit: u64) -> Option<u64>
    requires { bit < 64 }
    ensures { result ≡ extended_word bit word }
{
    let unit = 1u64 << bit;
    let below = word & (unit - 1);
    if (word >> bit) % 2 == 0 {
        return None;
    }
    Some(u64::MAX - (unit - 1) + below)
}
