//! The texts by which interfaces are known (Component Model, Import and Export Definitions).
#![tactic(auto)]

mod names;

pub use names::{
    Known, canonicalized_id_of, canonicalized_id_of_name, id_of, id_of_name,
    name_canonicalized_world_key, name_world_key, version_suffix_of,
};
pub use wit_types::{Arena, Function, Interface, Mangling, Package, TypeDef, TypeId, WorldKey};
