// The shapes of written sorts and of applications: which of document 01's forms they are, and the nodes that a form hands on.
#![tactic(auto)]

mod look;
mod shape;
mod sort;

pub use look::{Word, list_at, symbol_at};
pub use shape::{BinaryOp, Found, Kind, UnaryOp, shape_at};
pub use sort::{SortFound, sort_shape_at};
