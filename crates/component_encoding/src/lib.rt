//! The component of a link table: what it imports, the main module with what that is given, and functions that are exported.
#![tactic(auto)]

mod component;
mod exports;
mod given;
mod instances;

pub use component::{component_of, encode};
pub use linked_imports::{LinkTable, Linking, TableFault, law_tables_are_one, table_of};
