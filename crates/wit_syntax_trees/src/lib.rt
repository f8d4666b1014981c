//! Syntax trees, written a line for each of their parts.
#![tactic(auto)]

mod definitions;
mod items;
mod types;
mod writer;

pub use writer::Writer;
