//! Laws: the items of a graph are named with a package that was added to it.
#![tactic(auto)]

mod law;

pub use law::{law_added_items_are_named, law_pushed_graphs_are_named};
pub use wit_item_names::law_names_tell_interfaces_apart;
