//! What rows are made of: what is printed, and how rows spell texts and bytes.
#![tactic(auto)]

mod page;
mod spelling;

pub use page::Page;
pub use spelling::{RowFault, bytes_of, inside_quotes, quoted, readable, unescaped};

/// The answer of a line that is none of the rows.
pub const UNREADABLE: &str = "! cannot read this row\n";
