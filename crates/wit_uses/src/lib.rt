//! Laws: interfaces and worlds take types of other interfaces under names of their own alone.
#![tactic(auto)]

mod law;

pub use law::{
    law_brought_takes_by_use, law_interfaces_still_take_by_use, law_joined_worlds_take_by_use,
    law_moved_interfaces_take_by_use, law_moved_worlds_take_by_use, law_placed_worlds_take_by_use,
    law_taken_are_used,
};
pub use wit_joined::{
    FindFault, JoinFault, MovedWorld, Plan, Standing, joined_world, law_included_sides_are_there,
    law_included_types_are_backward, moved_interfaces, moved_worlds,
};
pub use wit_placed::{
    law_found_are_there, law_found_types_are_there, law_interfaces_take_places,
    law_moved_interfaces_are_there, law_moved_interfaces_have_names_apart,
    law_moved_interfaces_hold_their_types, law_moved_nameless_are_free,
    law_moved_types_are_backward, law_moved_types_are_listed, law_moved_types_belong,
    law_moved_worlds_are_there,
};
