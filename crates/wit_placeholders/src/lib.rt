//! Interfaces and worlds of other packages that a package asks for: of each, nothing is known but its name.
#![tactic(auto)]

mod placeholders;

pub use placeholders::{Placeholders, placeholders_of};
pub use wit_foreign::{
    ForeignItems, Known, Need, add_unknown_types, foreign_deps, foreign_items, foreign_needs,
    package_name,
};
