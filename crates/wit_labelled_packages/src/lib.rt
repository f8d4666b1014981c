//! Laws: names of packages of texts are read back, and names of one scope in them differ.
#![tactic(auto)]

mod law;
mod names;

pub use law::{
    law_exported_functions_are_under_names, law_moved_packages_have_named_worlds,
    law_parsed_packages_have_named_worlds, law_parsed_packages_have_names_apart,
};
pub use names::{law_moved_names_read_back, law_parsed_names_read_back};
pub use wit_labelled_graphs::{
    law_empty_graphs_are_labelled, law_empty_graphs_have_named_worlds,
    law_pushed_graphs_are_labelled, law_pushed_graphs_have_named_worlds,
};
pub use wit_new_names::{
    law_empty_graphs_are_known, law_pushed_graphs_are_known, law_same_names_are_equal,
};
