// The lines of an SMT-LIB script, each written to the front of a lent buffer.
#![tactic(auto)]

mod datatype;
mod fixed;
mod functions;
mod pieces;
mod plain;
mod remark;

pub use datatype::declare_datatype;
pub use fixed::{check_sat, exit, get_model, reset};
pub use functions::{declare_fun, define_fun};
pub use plain::{assert, declare_const, set_logic, set_option};
pub use remark::comment;
