//! Components, read and written (Component Model Binary). What the crates of their parts offer to users is offered here too, by
//! one name.
#![tactic(auto)]

mod component;

pub use binary_grammar::{Fault, ReadError, Rule, WriteFault};
pub use component::{Component, read_component};
pub use component_builder::{ComponentBuilder, EmitFault, WriteToFault, emit, write_definitions};
pub use component_definitions::{
    Alias, CanonicalDefinition, CanonicalOption, ComponentSort, Description, Export, Import,
    IndexSpace, Sort,
};
pub use component_entries::{Entry, EntryKind, NestedComponent};
pub use component_instances::{
    CoreArgument, CoreInstance, CoreItem, Declarator, InlineExport, Instance, InstanceType, Item,
    ResourceType, TypeDefinition,
};
pub use component_sections::{
    Definition, PlacedDefinition, SectionId, law_a_break_is_one, law_a_break_stays, law_one_list,
    law_written_is_read,
};
pub use component_value_types::{
    CaseType, DefinedType, FunctionType, Label, Named, PrimitiveValueType, ValueType,
};
