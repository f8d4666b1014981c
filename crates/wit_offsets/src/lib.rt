//! Packages whose texts stand behind others in a source map: all that stands at a place of theirs stands as far further on.
#![tactic(auto)]

mod functions;
mod interfaces;
mod package;
mod shift;
mod types;
mod worlds;

pub use package::{TooLarge, with_offset};
