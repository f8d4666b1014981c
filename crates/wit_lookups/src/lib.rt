//! What the names in the files of a WIT package name: what is found where each stands, and what is broken where nothing is
//! there under it, or something of another kind.
#![tactic(auto)]

mod asks;
mod found;

pub use asks::Asked;
pub use found::Found;
pub use wit_rules::{PackageFault, name_span};
pub use wit_type_names::{
    ExternKind, Front, Id, ItemScope, Listed, Member, MemberKind, PackageName, Span, Target, Type,
    WorldMember,
};
