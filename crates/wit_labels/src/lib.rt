//! Laws: labels within types, names of parameters and plain names differ where packages are put together.
#![tactic(auto)]

mod law;
mod types;

pub use law::{
    law_brought_is_apart, law_brought_sides_are_plain, law_elaborated_sides_are_named,
    law_elaborated_worlds_are_apart, law_joined_sides_are_named, law_joined_worlds_are_apart,
    law_moved_interfaces_are_apart, law_moved_sides_are_named, law_moved_types_have_labels_apart,
    law_moved_worlds_are_apart, law_moved_worlds_are_named, law_sides_are_named,
};
pub use types::{
    law_brought_sides_have_own_types, law_joined_sides_have_own_types,
    law_joined_types_are_forms_or_named, law_moved_sides_have_own_types,
    law_moved_types_are_forms_or_named, law_own_types_stay,
};
pub use wit_joined::{law_included_sides_are_there, law_included_types_are_backward};
