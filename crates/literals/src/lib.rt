// What a literal means: those without another one in them, and the steps around one.
#![tactic(auto)]

mod answer;
mod decode;
mod form;
mod leaf;
mod number;
mod plan;

pub use answer::{Literal, plus};
pub use decode::decode_literal;
pub use leaf::hex_width;
