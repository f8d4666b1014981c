//! The worlds of a package, each brought into the arena with all that stands in it.
#![tactic(auto)]

mod building;

pub use building::{BuiltWorlds, add_worlds};
pub use wit_interfaces::{Building, Natures, add_interfaces, item_order};
