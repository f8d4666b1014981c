//! What a package brings to a graph, part by part (WIT, Packages).
#![tactic(auto)]

mod fault;
mod interfaces;
mod own;
mod types;
mod worlds;

pub use fault::PushFault;
pub use interfaces::Interfaces;
pub use own::{Own, OwnParts, own_of};
pub use types::add_types;
pub use wit_graph_worlds::{
    Worlds, copied_name, law_found_are_there, law_found_types_are_there,
    law_interfaces_take_places, law_moved_interfaces_are_there,
    law_moved_interfaces_have_names_apart, law_moved_interfaces_hold_their_types,
    law_moved_nameless_are_free, law_moved_types_are_backward, law_moved_types_are_listed,
    law_moved_types_belong,
};
pub use wit_shapes::Natures;
pub use worlds::{Move, add_interfaces, add_own_worlds};
