//! The names under which interfaces of a world are imported, by the interfaces' ids.
#![tactic(auto)]

mod law;
mod names;

pub use law::{law_imports_are_there, law_two_names_are_not_listed};
pub use names::interface_names;
