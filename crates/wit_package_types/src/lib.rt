//! The types of a package in an arena: each definition and each name that is used, behind all that it is made of.
#![tactic(auto)]

mod fill;
mod foreign;
mod known;
mod law;
mod stability;

pub use fill::fill_types;
pub use foreign::{ForeignTypes, TypePath};
pub use known::Known;
pub use law::{
    law_distinct_names_are_of_one_type, law_filled_types_stand_for_their_meaning,
    law_kept_attributes_are_gates,
};
pub use stability::{optional_version, stability_in};
pub use wit_arena::{Table, Types, docs_of, lower_borrow, lower_own, lower_params, lower_result};
pub use wit_rules::{Func, Id, Member, MemberKind, Param, Span, Type};
