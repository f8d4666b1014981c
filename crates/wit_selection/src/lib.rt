//! The choice of a world (WIT, Package Names).
#![tactic(auto)]

mod packages;
mod selection;

pub use selection::{SelectFault, select_world};
