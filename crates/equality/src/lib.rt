// Whether two values of an arena are one: leaves by what they hold; what a set is made of, and its members noted.
#![tactic(auto)]

mod flags;
mod leaf;
mod part;
mod side;

pub use flags::{all_met, clear_members};
pub use leaf::{same_at, same_bits, same_entity, same_number};
pub use part::{Part, part_at};
pub use side::{Compared, compare};
