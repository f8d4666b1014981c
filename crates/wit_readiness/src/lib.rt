//! Packages that keep their rules are ready to be brought into an arena.
#![tactic(auto)]

mod law;

pub use law::{
    law_kept_needs_have_gates, law_kept_packages_are_ready, law_sorted_items_are_the_same,
};
pub use wit_foreign::ForeignItems;
