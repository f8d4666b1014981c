//! What a component imports: interfaces, as far as they are needed, and functions of its world.
#![tactic(auto)]

mod functions;
mod interface;
mod interfaces;
mod law;
mod world;

pub use interface::{import_interface, import_interface_as};
pub use interfaces::{ImportedInterfaces, add_functions, import_interfaces};
pub use law::{
    law_apart_are_distinct, law_earlier_types_are_apart, law_earlier_types_are_used,
    law_ready_functions_are_imported, law_ready_is_imported,
};
pub use type_sinks::Root;
pub use world::{WrittenFunctions, import_functions, write_functions};
