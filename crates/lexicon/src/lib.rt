// The class of each byte, how far a symbol or a comment goes, and when bytes are one symbol.
#![tactic(auto)]

mod class;
mod span;
mod symbol;

pub use class::{
    BLANK, CLOSING, COMMENT, DIGIT, HASH, OPENING, OTHER, QUOTE, class_of, class_table,
};
pub use span::{line_end, span_end};
pub use symbol::is_symbol;
