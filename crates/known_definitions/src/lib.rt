//! The definitions of components that index meaning knows, among all of them.
#![tactic(auto)]

mod definition;
mod knowing;
mod law;

pub use definition::{Argument, FunctionType, InlineExport, KnownDefinition, KnownKind, Parameter};
pub use knowing::known_definitions;
pub use law::{law_one_list, law_unknown_is_not_known};
