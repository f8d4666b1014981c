//! Interfaces and the types in them.

use crate::Span;
use crate::arena::Stored;
use crate::docs::Docs;
use crate::function::Function;
use crate::id::{InterfaceId, InterfaceTag, PackageId, TypeId, TypeTag, WorldId};
use crate::kind::TypeDefKind;
use crate::stability::Stability;
use indexmap::IndexMap;

/// An interface (WIT, Item: `interface`).
#[derive(Drop)]
pub struct Interface {
    /// Its name; one that stands in a world has none.
    pub name: Option<String>,
    /// Its types by name, used ones too, each behind those that it needs.
    pub types: IndexMap<String, TypeId>,
    /// Its functions by name.
    pub functions: IndexMap<String, Function>,
    /// Its docs.
    pub docs: Docs,
    /// How stable it is.
    pub stability: Stability,
    /// The package that it is of, once that is known.
    pub package: Option<PackageId>,
    /// Where it stands.
    pub span: Span,
}

impl Stored for Interface {
    type Tag = InterfaceTag;
}

/// A type that is defined (WIT, Types).
#[derive(Clone, Drop)]
pub struct TypeDef {
    /// Its name, if it has one.
    pub name: Option<String>,
    /// What it is.
    pub kind: TypeDefKind,
    /// Where it belongs.
    pub owner: TypeOwner,
    /// Its docs.
    pub docs: Docs,
    /// How stable it is.
    pub stability: Stability,
    /// Where it stands.
    pub span: Span,
}

impl Stored for TypeDef {
    type Tag = TypeTag;
}

/// Where a type belongs.
#[derive(Clone, Copy, Debug, PartialEq, Eq)]
pub enum TypeOwner {
    /// To a world.
    World(WorldId),
    /// To an interface.
    Interface(InterfaceId),
    /// Nowhere: it has no name.
    None,
}
