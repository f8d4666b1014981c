//! Laws: types and functions that are moved into a graph of packages stand there for what they stood for.
#![tactic(auto)]

mod law;
mod there;

pub use law::{
    law_moved_functions_stand_for_the_same, law_moved_names_stand_for_the_same,
    law_moved_types_stand_for_the_same,
};
pub use there::law_moved_types_are_backward;
