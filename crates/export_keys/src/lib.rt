//! The keys under which worlds export.
#![tactic(auto)]

mod keys;

pub use keys::exports_all;
