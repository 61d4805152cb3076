// The listing of a model, or of a reply to get-value: its tables and its arena are checked, its parts walked, and what they define last is written to a lent buffer.
#![tactic(auto)]

mod entry;
mod function;
mod header;
mod line;
mod list;
mod tally;
mod variable;

pub use list::{list_form, list_model, list_values};
