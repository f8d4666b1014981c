//! What a world brings to one that includes it (WIT, Item: `include`).
#![tactic(auto)]

mod names;
mod worlds;

pub use wit_sides::{SideFault, joined_side};
pub use worlds::{Include, IncludeFault, Included, included_world};
