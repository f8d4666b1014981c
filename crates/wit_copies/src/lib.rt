//! Types of a world, copied into the world that includes it (WIT, Item: `include`).
#![tactic(auto)]

mod copies;
mod sides;

pub use copies::{Copies, copied_defs};
pub use sides::copied_side;
pub use wit_reach::world_types;
