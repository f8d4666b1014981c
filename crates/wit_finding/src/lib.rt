//! What a package asks of others, found in a graph of packages (WIT, Use, Packages).
#![tactic(auto)]

mod asks;
mod counts;
mod fault;
mod foreign;
mod own;
mod packages;
mod places;
mod types;

pub use fault::FindFault;
pub use foreign::{Known, foreign_places};
pub use own::{own_interfaces, own_worlds};
pub use types::found_types;
pub use wit_moves::{
    Arena, Docs, Features, Interface, InterfacePlaces, MoveFault, OwnerPlaces, PackageId,
    Stability, TypeDef, TypePlaces, World, WorldInclude, WorldItem, WorldKey, WorldPlaces,
    check_functions, check_side, move_interface, moved_side, type_places,
};
