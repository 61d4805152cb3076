// The lowest bits of a number of 128 bits.
ghost use Rattle.std.specs.Prelude.{◌≡◌, ◌%◌, ◌^◌};
ghost use Rattle.words.specs.Pair.{value};

use crate::pair::Pair;

// The number that the lowest bits are, so many of them: a bit vector's number has its sign above them.
pub fn low_bits(number: Pair, width: u64) -> Pair
    ensures { value result ≡ value number % 2 ^ width }
{
    if 128 <= width {
        return number;
    }
    if 64 <= width {
        return Pair {
            high: number.high % (1u64 << (width - 64)),
            ..number
        };
    }
    Pair {
        low: number.low % (1u64 << width),
        high: 0,
    }
}
