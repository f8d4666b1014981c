//! The component that joins a core module with a world of a graph of packages, and the lines of its link table.
#![tactic(auto)]

mod component;
mod fault;
mod law;
mod tracks;

pub use component::{build, links};
pub use encodable_worlds::{Linking, TableFault};
pub use fault::ComponentFault;
pub use law::{law_linked_has_no_cause, law_used_stand_before};
pub use tracks::{names_change, tracks_are_apart};
