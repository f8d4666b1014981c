//! What the files of a WIT package may break by themselves, before any name is looked up: its headers, names that stand again,
//! cases that aren't there, gates that may not stand together.
#![tactic(auto)]

mod fault;
mod files;
mod gates;
mod labels;
mod repeats;
mod worlds;

pub use fault::{PackageFault, PackageRule};
pub use files::{Declared, name_span};
pub use gates::{Gates, check_front, check_version, gates_of};
pub use labels::{Label, Labels, written};
pub use repeats::first_repeat;
pub use wit_scopes::{
    Attribute, Front, Func, Id, Member, MemberKind, PackageName, Param, Span, Target, Type,
    TypeDefKind, TypeKind, Version,
};
pub use worlds::target_text;
