//! What types in a component's bytes mean, and how that compares with what WIT texts say: definitions and laws.
#![tactic(auto)]

mod law;

pub use component_entries::{
    CaseType, DefinedType, FunctionType, Label, Named, PrimitiveValueType, ValueType,
};
pub use law::law_equal_trees_are_told;
