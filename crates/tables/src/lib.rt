// The tables that the decoder is lent: sorts, variables, functions, enum members.
#![tactic(auto)]

mod alone;
mod check;
mod find;
mod kept;
mod row;
mod rules;
mod slot;
mod sort;

pub use check::check_tables;
pub use find::{find_function, find_member, find_variable};
pub use row::{Range, STRIDE, clamp, count, word};
pub use sort::{SortRow, Wanted, find_sort, find_sort_name, sort_at};
