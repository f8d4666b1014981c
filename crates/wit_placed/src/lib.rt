//! Laws: what a package holds stands, where it stays, among what is there.
#![tactic(auto)]

mod found;
mod listed;
mod naming;
mod places;
mod there;

pub use found::{law_found_are_there, law_found_types_are_there};
pub use listed::law_moved_types_are_listed;
pub use naming::law_moved_interfaces_have_names_apart;
pub use places::{
    law_interfaces_take_places, law_moved_interfaces_hold_their_types, law_moved_nameless_are_free,
    law_moved_types_belong, law_worlds_take_places, law_worlds_take_places_alone,
};
pub use there::{law_moved_interfaces_are_there, law_moved_worlds_are_there};
pub use wit_moved_trees::law_moved_types_are_backward;
