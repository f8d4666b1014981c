//! Laws: interfaces of a graph, of whose functions some are linked, are as the writer of imports asks.
#![tactic(auto)]

mod law;

pub use component_imports::law_ready_functions_are_imported;
pub use law::{
    law_linked_functions_are_up_to, law_linked_interfaces_are_writable, law_linked_names_are_apart,
};
