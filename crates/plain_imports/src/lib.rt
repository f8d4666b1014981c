//! What core modules import of a world: plain functions, which are linked so far, and what is still to come (Component Model, Build
//! Targets).
#![tactic(auto)]

mod imports;

pub use imports::imports_fit;
