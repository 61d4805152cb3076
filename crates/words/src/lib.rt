// Numbers of 128 bits travel as a pair of words that hands itself on.
#![tactic(auto)]

mod digits;
mod low;
mod pair;

pub use digits::{Radix, digit_worth, parse};
pub use low::low_bits;
pub use pair::{Order, Pair};
