//! What WIT packages hold, as programs of rows print it: interfaces, worlds, types and functions with their docs and gates, of a
//! package that isn't looked up yet, or of the packages of a graph.
#![tactic(auto)]

mod definitions;
mod functions;
pub mod names;
mod page;
pub mod scopes;
mod stability;
mod sums;
mod trees;
mod types;
mod view;
pub mod worlds;

pub use page::Page;
pub use stability::{docs, gates};
pub use sums::totals;
pub use trees::type_trees;
pub use types::unnamed_types;
pub use view::{Packages, View, under};
