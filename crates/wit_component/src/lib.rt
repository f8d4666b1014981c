//! The link table of a core module and a world, and the component that joins them.
#![tactic(auto)]

mod encoder;
mod fault;
mod finding;
mod law;
mod linking;
mod links;
mod table;

pub use encoder::encode;
pub use fault::Fault;
pub use finding::FindingKind;
pub use law::{law_linkable_has_no_cause, law_written_meets_all};
pub use link_lines::{Link, LinkKind, LinkSide, Owner, StringEncoding, lines_of};
pub use linking::{Linking, flat_value, is_flat_result, is_one_place};
pub use links::links_of;
pub use table::{Table, needed_functions, references, table_of};
