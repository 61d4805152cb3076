// Whole numbers by sign and size.
ghost use Rattle.std.specs.Prelude.{◌≡◌, ◌-◌};
ghost use Rattle.words.specs.Pair.{value};
ghost use Rattle.overflow.specs.Overflow.{number};
ghost use Rattle.overflow.specs.Sign.{signed_by, Leaves};

use crate::size::{opposite, predecessor};
use words::{Pair, low_bits};

// Stays: a sign beside a size and no enum of two cases, since sums and products take the signs apart from the sizes.
#[derive(Clone, Copy)]
pub struct Signed {
    pub negative: bool,
    pub size: Pair,
}

// The bit that holds the sign, and 0 where there are no bits.
fn sign_bit(width: u64) -> u64
    ensures { result ≡ width - 1 }
{
    width.saturating_sub(1)
}

// The number that the lowest bits are, the highest of them the sign.
pub fn signed_of(width: u64, operand: Pair) -> Signed
    ensures { signed_by result.negative (value result.size) ≡ number width (value operand) }
{
    let low = low_bits(operand, width);
    if low.reaches(sign_bit(width)) {
        return Signed {
            negative: true,
            size: opposite(low.sign_extend(width)),
        };
    }
    Signed {
        negative: false,
        size: low,
    }
}

// The range has one negative number more than it has others above 0.
pub fn leaves(width: u64, negative: bool, size: Option<Pair>) -> bool
    ensures { Leaves width negative size result }
{
    if 128 < width {
        return false;
    }
    let Some(size) = size else {
        return true;
    };
    let most = if negative { predecessor(size) } else { size };
    most.reaches(sign_bit(width))
}
