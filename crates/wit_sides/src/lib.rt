//! Sides of worlds that include others.
#![tactic(auto)]

mod known;
mod renames;
mod sides;

pub use known::are_there;
pub use renames::Renames;
pub use sides::{SideFault, joined_side};
