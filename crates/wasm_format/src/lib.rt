//! Core WebAssembly modules as bytes.
#![tactic(auto)]

mod core_module;
mod fault;
mod law;
mod module_reader;

pub use core_module::{CoreModule, Section};
pub use fault::ModuleFault;
pub use law::{law_a_break_is_one, law_a_break_stays, law_one_module};
pub use module_reader::read_module;
pub use wasm_sections::SectionId;
pub use wasm_types::{
    ConstantInstruction, EntityType, Export, ExportKind, Expression, FuncType, Global, GlobalType,
    HeapType, Import, Limits, Mutability, RefType, TableType, TypeIndex, ValType,
};
