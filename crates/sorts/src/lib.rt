// The sort that is written at a node, as its row.
#![tactic(auto)]

mod sort;

pub use sort::{LEVELS, read_sort, row_of};
