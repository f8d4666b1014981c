//! The types of a package, brought into an arena.
#![tactic(auto)]

mod definitions;
mod docs;
mod functions;
mod law;
mod lowering;
mod shape;
mod table;
mod types;

pub use definitions::lower_kind;
pub use docs::docs_of;
pub use functions::{lower_borrow, lower_own, lower_params, lower_result};
pub use law::{
    law_types_mean_one_tree, law_types_stand_for_their_meaning, law_unnamed_types_are_one,
};
pub use lowering::lower;
pub use shape::Shape;
pub use table::Table;
pub use types::Types;
pub use wit_type_names::member_handle_names;
