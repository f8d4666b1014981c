//! Components that are made, one definition after the other, and written.
#![tactic(auto)]

mod builder;
mod output;
mod pieces;

pub use builder::{ComponentBuilder, WriteToFault, write_definitions};
pub use output::{EmitFault, emit};
