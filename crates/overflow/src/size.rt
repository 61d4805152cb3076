// Numbers of 128 bits without signs: what is left up to 2^128, one less, sums and products.
ghost use Rattle.std.specs.Prelude.{◌≡◌, ◌+◌, ◌-◌, ◌*◌, ◌^◌, ◌<◌};
ghost use Rattle.words.specs.Pair.{value, grown};

use words::Pair;

// What is left up to 2^128, of a number that is not 0.
pub fn opposite(number: Pair) -> Pair
    ensures { 0 < value number → value result + value number ≡ 2 ^ 128 }
{
    let (low, borrow) = 0u64.borrowing_sub(number.low, false);
    let (high, _) = 0u64.borrowing_sub(number.high, borrow);
    Pair { low, high }
}

// One less, and 0 of 0.
pub fn predecessor(number: Pair) -> Pair
    ensures { value result ≡ value number - 1 }
{
    let (low, borrow) = number.low.borrowing_sub(1, false);
    let (high, below) = number.high.borrowing_sub(0, borrow);
    if below { number } else { Pair { low, high } }
}

pub fn sum(left: Pair, right: Pair) -> Option<Pair>
    ensures { result ≡ grown (value left + value right) }
{
    let (low, carry) = left.low.carrying_add(right.low, false);
    let (high, over) = left.high.carrying_add(right.high, carry);
    if over {
        return None;
    }
    Some(Pair { low, high })
}

// Where no high word is 0 the product is 2^128 or more; else at most one of the cross products is not 0, and the low product carries into it.
pub fn product(left: Pair, right: Pair) -> Option<Pair>
    ensures { result ≡ grown (value left * value right) }
{
    if 0 < left.high && 0 < right.high {
        return None;
    }
    let (low, carry) = left.low.carrying_mul(right.low, 0);
    let (middle, over) = left.high.carrying_mul(right.low, carry);
    let (high, above) = left.low.carrying_mul(right.high, middle);
    if 0 < over || 0 < above {
        return None;
    }
    Some(Pair { low, high })
}
