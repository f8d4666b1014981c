//! The link table of a core module and a world: what its core imports, and the functions that the world exports, end at.
#![tactic(auto)]

mod apart;
mod exports;
mod fault;
mod imports;
mod law;
mod lines;
mod linking;
mod lookup;
mod options;
mod table;

pub use exports::{ExportLink, exported_function};
pub use fault::TableFault;
pub use law::law_tables_are_one;
pub use linking::Linking;
pub use options::LinkOptions;
pub use table::{LinkTable, table_of};
