//! The scopes of a WIT package: which names its files declare, where, and as what.
#![tactic(auto)]

mod growing;
mod members;
mod paths;
mod scopes;
mod worlds;

pub use growing::push_to;
pub use members::{Front, Member, MemberKind};
pub use paths::{FileUses, Target, is_same_package, known_name, last_name, path_by_itself};
pub use scopes::{InterfaceScope, ItemScope, PackageScopes, WorldScope};
pub use wit_syntax::{
    AstItem, Attribute, Case, Docs, EnumCase, Field, File, FileItem, Flag, Func, Gate, Gated, Id,
    Package, PackageHeader, PackageName, Param, Span, SyntaxFault, ToplevelUse, Type, TypeDefKind,
    TypeKind, Version, is_read_by_semver,
};
pub use worlds::{ExternKind, Included, Listed, Side, WorldMember};
