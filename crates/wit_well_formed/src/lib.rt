//! Laws: what the files of a package are resolved to may be put into a graph of packages, wherever their texts stand.
#![tactic(auto)]

mod law;
mod listed;
mod marks;
mod naming;
mod plain;
mod within;

pub use law::{
    law_asked_items_are_there, law_interfaces_hold_their_types, law_keys_are_of_items,
    law_moved_packages_are_well_formed, law_nameless_types_are_free,
    law_parsed_packages_are_well_formed, law_resolved_packages_are_well_formed,
    law_spans_are_counted, law_unknown_types_are_there,
};
pub use listed::{law_own_types_are_owned, law_types_are_listed};
pub use marks::{
    law_moved_packages_have_plain_names, law_parsed_packages_have_plain_names,
    law_parsed_worlds_are_named,
};
pub use naming::{
    law_interfaces_are_named_apart, law_moved_interfaces_are_named_apart, law_names_are_apart,
};
pub use plain::{
    law_moved_worlds_are_under_their_names, law_moved_worlds_have_own_types,
    law_worlds_are_under_their_names, law_worlds_have_own_types,
};
pub use wit_package::{PackageFault, UnresolvedPackageGroup};
pub use within::{
    law_moved_packages_have_names_apart, law_nameless_types_are_forms, law_names_within_are_apart,
};
