// A function's table written as document 01's lines: its arms in order, and its default.
#![tactic(auto)]

mod arm;
mod chain;
mod settle;
mod table;
mod tests;

pub use table::write_table;
