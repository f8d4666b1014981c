//! What has to hold of what a component stands for, so that it is the component of a link table: definitions and a law.
#![tactic(auto)]

mod law;

pub use law::law_given_are_as_many;
pub use link_table::{
    ExportLink, LinkOptions, LinkTable, Linking, TableFault, exported_function, law_tables_are_one,
    table_of,
};
