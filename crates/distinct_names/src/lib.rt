//! Names that have to be distinct.
#![tactic(auto)]

mod names;

pub use names::Names;
