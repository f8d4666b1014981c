//! The worlds of a graph of packages: what each lists, and what it imports in the end (WIT, Item: `world`).
#![tactic(auto)]

mod copies;
mod law;
mod names;
mod worlds;

pub use copies::copied_world;
pub use law::{law_added_worlds_take_by_use, law_same_world_takes_by_use};
pub use names::{copied_name, interface_names, world_names};
pub use wit_uses::{
    FindFault, MovedWorld, Plan, Standing, law_brought_takes_by_use, law_found_are_there,
    law_found_types_are_there, law_interfaces_still_take_by_use, law_interfaces_take_places,
    law_moved_interfaces_are_there, law_moved_interfaces_have_names_apart,
    law_moved_interfaces_hold_their_types, law_moved_interfaces_take_by_use,
    law_moved_nameless_are_free, law_moved_types_are_backward, law_moved_types_are_listed,
    law_moved_types_belong, law_moved_worlds_are_there, law_placed_worlds_take_by_use,
    moved_interfaces, moved_worlds,
};
pub use worlds::{Interfaces, WorldFault, Worlds, add_worlds};
