//! The interfaces of a package, each brought into the arena with all that it declares.
#![tactic(auto)]

mod building;
mod interface;
mod labelled;
mod members;
mod text;

pub use building::{Building, add_interfaces};
pub use interface::{Made, make_interface};
pub use labelled::add_labelled;
pub use members::bring_members;
pub use text::InterfaceText;
pub use wit_resolved_scopes::{Natures, ResolvedScope, item_order};
