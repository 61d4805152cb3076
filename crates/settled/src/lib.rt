// What is left of a literal where operators were worked out and what they gave is remembered.
#![tactic(auto)]

mod branch;

pub use branch::taken;
