//! The scopes of a WIT package, made of its files.
#![tactic(auto)]

mod members;
mod scopes;
mod worlds;

pub use scopes::package_scopes;
