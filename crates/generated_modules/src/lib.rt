//! Core modules that are generated: what they are made of, and how it hangs together.
#![tactic(auto)]

mod fitting;
mod module;
mod named;
mod parts;
mod reading;

pub use generated_sections::{
    Held, HeldForm, HeldGlobal, Import, ImportType, Section, SlotGlobal, SlotTable,
};
pub use module::GeneratedModule;
pub use parts::Parts;
pub use reading::generated_shape;
