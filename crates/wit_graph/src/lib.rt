//! Graphs of packages (WIT, Packages).
#![tactic(auto)]

mod graph;
mod law;
mod packages;
mod push;
mod tables;

pub use graph::Graph;
pub use law::law_types_use_earlier;
pub use tables::Mark;
pub use wit_graph_parts::PushFault;
