//! Where the types of imports are written: the root of a component, and the type of the instance that is imported for an interface.
#![tactic(auto)]

mod inside;
mod kept;
mod law;
mod root;

pub use inside::InterfaceTypes;
pub use law::{law_imports_are_named, law_items_are_found, law_known_is_what_stands};
pub use root::Root;
pub use type_writing::{Fault, write_function, write_types};
