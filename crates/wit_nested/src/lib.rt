//! Packages that are nested in the files of another (WIT, Nested Packages): each is a package of its own.
#![tactic(auto)]

mod nested;

pub use nested::{PartedFiles, parted_files};
