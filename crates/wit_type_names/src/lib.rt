//! The names that stand in the types of what a scope declares.
#![tactic(auto)]

mod type_names;

pub use type_names::{func_type_names, member_handle_names, member_type_names};
pub use wit_scopes::{
    Case, Docs, EnumCase, ExternKind, Field, Flag, Front, Id, ItemScope, Listed, Member,
    MemberKind, PackageName, Param, Span, Target, Type, TypeDefKind, TypeKind, WorldMember,
};
