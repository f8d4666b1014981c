//! Looks up what the names in the files of a WIT package name: each where it stands, and refused where nothing is there under
//! it, or something of another kind.
#![tactic(auto)]

mod asks;
mod files;
mod found;
mod members;
mod names;
mod paths;
mod worlds;

pub use asks::{Ask, foreign_asks};
pub use files::check_lookups;
pub use wit_lookups::Asked;
