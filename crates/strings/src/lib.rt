// decode_string: the text of what stands between the quotes of a string literal.
#![tactic(auto)]

mod character;
mod escape;
mod text;

pub use text::{decode_string, measure, write_text};
