//! Types of components: what values and functions are of, read and written.
#![tactic(auto)]

mod distinct;
mod named;
mod optional;
mod scope;
mod types;
mod values;

pub use binary_grammar::{
    Part, ReadError, Reader, Rule, WriteFault, broken_at, put_name, put_number, put_vec, vec_of,
};
pub use distinct::{HasName, distinct_vec_of};
pub use named::{Label, Named, labels_of};
pub use optional::{optional_of, put_optional};
pub use scope::{NO_SCOPE, Scope};
pub use types::{CaseType, DefinedType, FunctionType};
pub use values::{PrimitiveValueType, ValueType};
pub use wasm_types::{Code, ExportKind, coded_of};
