// tables.txt: document 01's text form of the tables, read into lent words.
#![tactic(auto)]

mod line;
mod number;
mod parse;
mod read;
mod row;
mod sort;
mod sorts;
mod store;
mod walk;

pub use parse::Counts;
pub use read::read_tables;
