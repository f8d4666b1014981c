//! What a world imports in the end (Component Model, WIT, Worlds).
#![tactic(auto)]

mod imports;
mod laws;
mod worlds;

pub use imports::elaborated_imports;
pub use laws::{law_elaborated_worlds_are_there, law_elaborated_worlds_stay};
pub use worlds::elaborated_world;
