//! What is reached from where: which interfaces a world imports in the end, by what they and its exports depend on, which types are
//! its own, what types are made of, and which of each interface are needed (Component Model, WIT, Worlds).
#![tactic(auto)]

mod deps;
mod held;
mod ids;
mod made;
mod needed;
mod reach;
mod types;
mod world;

pub use deps::{interface_deps, type_interface_dep};
pub use held::{law_held_are_in_order, law_listed_types_are_all};
pub use ids::{add_function, add_kind};
pub use made::{law_seen_is_made, made_of, made_of_within};
pub use needed::NeededTypes;
pub use reach::{
    ElaborateFault, WorldLists, add_all, closure, elaborate, law_elaborated_are_there,
    law_elaborated_stays,
};
pub use types::world_types;
pub use wit_types::{
    Arena, Interface, InterfaceId, Stability, TypeDef, World, WorldItem, WorldKey,
};
pub use world::{add_uses, law_lists_are_there, named_interfaces, world_lists};
