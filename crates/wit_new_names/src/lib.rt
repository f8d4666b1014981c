//! Laws: a package that comes to a graph under a new name has a new text.
#![tactic(auto)]

mod law;
mod names;

pub use law::{law_empty_graphs_are_known, law_new_names_are_new, law_pushed_graphs_are_known};
pub use names::law_same_names_are_equal;
