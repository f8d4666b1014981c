//! Which types linked functions reach, and which of these aren't linked.
#![tactic(auto)]

mod fault;
mod functions;
mod kinds;

pub use fault::TypeFault;
pub use functions::{check_functions, function_fault};
pub use kinds::kind_fault;
