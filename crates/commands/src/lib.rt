// The shapes of commands, of function bodies, of tests and of pairs: which of document 01's forms they are, and the nodes that a form hands on.
#![tactic(auto)]

mod chain;
mod command;
mod form;
mod pair;
mod test;

pub use chain::{Link, link_at};
pub use command::{CommandFound, command_at};
pub use form::Form;
pub use pair::{NamedPair, pair_at};
pub use test::{Disjunction, key_at, tests_at};
