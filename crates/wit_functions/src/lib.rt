//! The functions of a package over the types of its scopes.
#![tactic(auto)]

mod function;
mod signature;

pub use function::lower_function;
pub use signature::Signature;
pub use wit_package_types::{Known, fill_types, stability_in};
