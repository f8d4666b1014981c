//! Where all that a package holds stands in a graph, before anything of the graph changes.
#![tactic(auto)]

mod checks;
mod moves;
mod plans;

pub use checks::Standing;
pub use moves::{MovedWorld, moved_interfaces, moved_worlds};
pub use plans::{Parts, Plan, Sizes, plan_of};
pub use wit_finding::FindFault;
