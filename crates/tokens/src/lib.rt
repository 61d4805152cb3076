// Bytes to tokens.
#![tactic(auto)]

mod atom;
mod blanks;
mod lexeme;

pub use atom::atom_size;
pub use blanks::past_blanks;
pub use lexeme::{Kind, Lexeme, lexeme_at};
