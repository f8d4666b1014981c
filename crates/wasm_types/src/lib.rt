//! The types of core modules, and the entries of their sections that speak of them: each read and written by its grammar.
#![tactic(auto)]

mod code;
mod entries;
mod expression;
mod spaces;
mod types;

pub use code::{Code, coded_of};
pub use entries::{Export, Global, Import, TypeIndex};
pub use expression::{ConstantInstruction, Expression, HeapType, signed_32};
pub use spaces::Spaces;
pub use types::{
    EntityType, ExportKind, FuncType, GlobalType, Limits, Mutability, RefType, TableType, ValType,
};
