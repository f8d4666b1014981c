//! What a component imports for a link table.
#![tactic(auto)]

mod imports;

pub use imports::{WrittenImports, exported_functions, write_imports};
pub use right_components::{
    ExportLink, LinkOptions, LinkTable, Linking, TableFault, law_tables_are_one, table_of,
};
