// The walk over a reply's parts, a model's commands or get-value's pairs: each is checked, and of each name in the tables the last definition is noted.
#![tactic(auto)]

mod command;
mod last;
mod pair;
mod walk;

pub use last::{NEED, NODE, VALUE, WORDS, noted};
pub use walk::walk_parts;
