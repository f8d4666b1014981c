//! Laws: packages of texts take types of others by use alone, and names that have to tell things apart do.
#![tactic(auto)]

mod law;

pub use law::{
    law_moved_packages_are_named, law_parsed_packages_are_named,
    law_resolved_interfaces_take_by_use, law_resolved_worlds_take_by_use,
    law_used_interfaces_are_named,
};
pub use wit_named_graphs::{law_names_tell_interfaces_apart, law_pushed_graphs_are_named};
pub use wit_well_formed::{
    law_moved_packages_are_well_formed, law_moved_packages_have_names_apart,
    law_parsed_packages_are_well_formed,
};
