// Whether the exact result of a negation, a sum or a product leaves the signed range of the operands' width.
#![tactic(auto)]

mod sign;
mod size;

ghost use Rattle.std.specs.Prelude.{◌≡◌, ◌+ℤ◌, ◌*ℤ◌, neg_ℤ};
ghost use Rattle.words.specs.Pair.{value};
ghost use Rattle.overflow.specs.Overflow.{tells, number};

use crate::sign::{leaves, signed_of};
use crate::size::{product, sum};
use words::Pair;

pub fn bvnego(width: u64, operand: Pair) -> bool
    ensures { result ≡ tells width (neg_ℤ (number width (value operand))) }
{
    let signed = signed_of(width, operand);
    leaves(width, !signed.negative, Some(signed.size))
}

// Of unlike signs the sum lies between the two.
pub fn bvsaddo(width: u64, left: Pair, right: Pair) -> bool
    ensures { result ≡ tells width (number width (value left) +ℤ number width (value right)) }
{
    let first = signed_of(width, left);
    let second = signed_of(width, right);
    if first.negative != second.negative {
        return false;
    }
    leaves(width, first.negative, sum(first.size, second.size))
}

pub fn bvsmulo(width: u64, left: Pair, right: Pair) -> bool
    ensures { result ≡ tells width (number width (value left) *ℤ number width (value right)) }
{
    let first = signed_of(width, left);
    let second = signed_of(width, right);
    let unlike = first.negative != second.negative;
    leaves(width, unlike, product(first.size, second.size))
}
