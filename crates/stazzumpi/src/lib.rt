// What C and Rust link: every call answers one word, 0 or a refusal, and tells its numbers in a lent slice.
#![tactic(auto)]

mod lines;
mod lookups;
mod models;
mod rows;
mod text;
mod trees;
mod version;
