//! Laws: names within what is linked of a world of a graph differ.
#![tactic(auto)]

mod law;

pub use law::{law_exported_functions_are_apart, law_worlds_have_parts_apart};
