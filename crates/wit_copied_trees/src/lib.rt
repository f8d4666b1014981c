//! Laws: types that come with an included world stand for what they stood for, under the names of the world that includes it.
#![tactic(auto)]

mod law;
mod there;

pub use law::{
    law_included_functions_stand_for_the_same, law_included_types_stand_for_the_same,
    law_whole_arenas_are_backward,
};
pub use there::{law_included_sides_are_there, law_included_types_are_backward};
pub use wit_includes::{Include, IncludeFault, Included, SideFault, included_world, joined_side};
