// What a value at a node is where operators were worked out: a leaf with its number or its text, or where the values in it stand.
#![tactic(auto)]

mod form;
mod made;
mod number;
mod word;

pub use form::{Form, form_at};
pub use number::parse_number;
