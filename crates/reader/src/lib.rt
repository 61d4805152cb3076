// The reader: one S-expression's tree, into lent nodes, text and bracket stack.
#![tactic(auto)]

mod read;
mod rooms;
mod tally;
mod write;

pub use read::{Reading, parse_sexpr};
pub use rooms::PROGRAM_WORDS;
