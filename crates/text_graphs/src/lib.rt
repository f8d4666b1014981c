//! Laws: graphs of packages that come of texts hold together, and their names tell things apart.
#![tactic(auto)]

mod law;

pub use law::{
    law_text_graphs_are_named, law_text_graphs_have_owners, law_text_graphs_mean_their_texts,
    law_text_names_tell_interfaces_apart, law_text_packages_are_there,
};
pub use wit_labelled_packages::law_same_names_are_equal;
pub use wit_pushed_trees::law_equal_names_are_the_same;
pub use wit_resolution::{
    Resolve, ResolveError, ResolveErrorKind, UnresolvedPackageGroup,
    law_parsed_packages_are_well_formed,
};
