//! Worlds with all that they include, as they stand in a graph of packages (WIT, Item: `include`).
#![tactic(auto)]

mod includes;
mod worlds;

pub use includes::{JoinFault, Sides, include_all};
pub use wit_copied_trees::{law_included_sides_are_there, law_included_types_are_backward};
pub use wit_plans::{FindFault, MovedWorld, Plan, Standing, moved_interfaces, moved_worlds};
pub use worlds::joined_world;
