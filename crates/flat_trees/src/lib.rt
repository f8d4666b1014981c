//! Core types and required options of functions by the trees of their types: definitions and laws.
#![tactic(auto)]

mod law;

pub use law::{
    law_linked_functions_unfold, law_unfolded_functions_are_flat, law_written_trees_keep_core_types,
};
