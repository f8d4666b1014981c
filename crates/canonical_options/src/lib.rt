//! Options of lifts and lowers, and which of them functions over WIT types ask for.
#![tactic(auto)]

mod contents;
mod law;
mod options;
mod required;

pub use contents::TypeContents;
pub use flat_types::{FlatTypes, Required, WasmSignature};
pub use law::law_contents_are_those_of_trees;
pub use link_lines::StringEncoding;
pub use options::{Iter, OptionFault};
pub use required::RequiredOptions;
