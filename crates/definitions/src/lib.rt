// Whether a definition is right, and how long its text is.
#![tactic(auto)]

mod body;
mod function;
mod measure;
mod value;
mod variable;

pub use function::check_function;
pub use value::check_value;
pub use variable::check_variable;
