//! Core types of WIT types, and what functions over them ask for.
#![tactic(auto)]

mod flat;
mod known;
mod law;
mod part;
mod signature;

pub use flat::FlatTypes;
pub use law::{law_functions_are_flat, law_types_are_flat};
pub use signature::{Required, WasmSignature};
