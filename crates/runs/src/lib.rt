// Runs of records brought into order in the bytes where they stand.
#![tactic(auto)]

mod ends;
mod index;
mod keys;
mod laying;
mod merges;
mod places;
mod sorts;

pub use ends::END;
pub use keys::STOP;
pub use sorts::arrange;
