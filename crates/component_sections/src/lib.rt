//! Components, read as the definitions of their sections.
#![tactic(auto)]

mod component;
mod law;
mod section;

pub use component::read_definitions;
pub use component_entries::{
    Declarator, Entry, EntryKind, HEADER, InstanceType, NestedComponent, TypeDefinition,
};
pub use law::{law_a_break_is_one, law_a_break_stays, law_one_list, law_written_is_read};
pub use section::{Definition, PlacedDefinition, SectionId, put_section};
