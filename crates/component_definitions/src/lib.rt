//! Definitions of components, read and written.
#![tactic(auto)]

mod aliases;
mod canonical;
mod counting;
mod externs;
mod sorts;

pub use aliases::Alias;
pub use canonical::{CanonicalDefinition, CanonicalOption};
pub use component_value_types::{
    CaseType, Code, DefinedType, ExportKind, FunctionType, HasName, Label, NO_SCOPE, Named,
    PrimitiveValueType, Scope, ValueType, coded_of, distinct_vec_of, optional_of, put_optional,
};
pub use counting::{IndexSpace, count_in, described_sort, inside, with_one};
pub use externs::{Description, Export, Import, extern_name, put_extern_name};
pub use sorts::{ComponentSort, Sort, component_count, core_count, count};
