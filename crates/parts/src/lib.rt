// What the lines of a script are made of: tables of ends checked, lists of parts and texts written at a place.
#![tactic(auto)]

mod ends;
mod lists;
mod spaced;

pub use ends::{check_ends, check_pairs, exceeds, joined_length, pairs_length};
pub use lists::{put_joined, put_pairs};
pub use spaced::put_spaced;
