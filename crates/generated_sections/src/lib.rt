//! Sections of core modules that are generated, and the types in them, read and written.
#![tactic(auto)]

mod sections;
mod types;

pub use sections::{Section, read_sections};
pub use types::{Held, HeldForm, HeldGlobal, Import, ImportType, SlotGlobal, SlotTable};
