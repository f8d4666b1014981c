//! What names may stand for, where several may have one name.
#![tactic(auto)]

mod table;

pub use table::{Meaning, NameTable};
