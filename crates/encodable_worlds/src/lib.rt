//! A law: worlds of a graph are as the encoder of components asks.
#![tactic(auto)]

mod law;

pub use component_encoding::{
    LinkTable, Linking, TableFault, encode, law_tables_are_one, table_of,
};
pub use law::law_worlds_are_encodable;
pub use linked_worlds::{law_functions_are_there, law_types_use_earlier};
