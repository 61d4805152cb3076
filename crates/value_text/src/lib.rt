// A value written as its text to the front of what is lent, the rest of a caller's buffer.
#![tactic(auto)]

mod hex;
mod leaf;
mod made;
mod open;
mod set;
mod value;

pub use leaf::write_number;
pub use value::write_inside;
