// The arena of a tree: its nodes' words and its text, and the one view of a node that every reader of words shares.
#![tactic(auto)]

mod node;
mod text;

pub use node::{
    APP, BIT_VEC, CHILDREN, END, FIRST, NUMERAL, Node, SECOND, STRIDE, STRING, SYMBOL, THIRD,
    after, node_at,
};
pub use text::{same, text_is};
