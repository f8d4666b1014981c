//! What a whole component and a nested one both may have, nested components, and which neighbours share a section.
#![tactic(auto)]

mod defined;
mod entry;
mod nested;
mod runs;

pub use component_definitions::{
    CanonicalDefinition, CaseType, ComponentSort, DefinedType, FunctionType, IndexSpace, Label,
    Named, PrimitiveValueType, Sort, ValueType, with_one,
};
pub use component_instances::{CoreInstance, Declarator, Instance, InstanceType, TypeDefinition};
pub use defined::Defined;
pub use entry::{Entry, EntryKind, kind_of};
pub use nested::{HEADER, NestedComponent, custom_name};
pub use runs::{Grouped, put_first};
