//! What packages hold, with its ids moved into other arenas.
#![tactic(auto)]

mod functions;
mod interfaces;
mod kinds;
mod maps;
mod places;
mod plan;
mod worlds;

pub use functions::{has_resource, has_signature, move_function};
pub use interfaces::{check_functions, move_functions, move_interface, move_names};
pub use kinds::{has_kind, moved_def};
pub use maps::TypeMap;
pub use places::{InterfacePlaces, Places, TypePlaces, WorldPlaces};
pub use plan::{MoveFault, OwnerPlaces, moved_defs, type_places};
pub use wit_features::{
    Arena, AstItem, Docs, Features, ForeignItems, Id, Interface, Package, PackageId, PackageName,
    Stability, TypeDef, TypeId, TypeOwner, UnresolvedPackage, World, WorldInclude, WorldItem,
    WorldKey,
};
pub use worlds::{check_side, moved_side};
