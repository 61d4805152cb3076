// What each answer tells a caller in another language: one word, and its numbers at the front of a lent slice.
#![tactic(auto)]

mod answer;
mod rows;
mod trees;

pub use answer::{code, tell_written};
pub use rows::{tell_found, tell_tables};
pub use trees::{tell_checked, tell_reading};
