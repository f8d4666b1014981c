//! Why packages that are resolved together are refused, each with its code, its name and its place (WIT, Packages).
#![tactic(auto)]

mod error;

pub use error::{ResolveError, ResolveErrorKind, ResolveResult};
pub use wit_groups::{Graph, GroupFault, push_together};
