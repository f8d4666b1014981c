//! Packages that come to a graph together (WIT, Packages).
#![tactic(auto)]

mod fault;
mod push;

pub use fault::GroupFault;
pub use push::push_together;
pub use wit_graph::{Graph, PushFault};
