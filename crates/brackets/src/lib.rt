// The bracket walk: in numbers, and as writes of nodes.
#![tactic(auto)]

mod nodes;
mod scan;

pub use nodes::{Words, clear, put_close, put_leaf, put_open};
pub use scan::{Phase, Scan};
