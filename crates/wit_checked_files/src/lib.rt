//! What the files of a WIT package declare, where they break no rule by themselves.
#![tactic(auto)]

mod checked;
mod files;
mod labels;
mod members;
mod worlds;

pub use files::declared_in;
