//! The types of WIT packages: packages, worlds, interfaces, types and functions, with the ids by which they speak of one
//! another, and what can be read off each of them alone.
#![tactic(auto)]

mod arena;
mod core_names;
mod docs;
mod function;
mod id;
mod interface;
mod kind;
mod law;
mod mangling;
mod package;
mod shorthand;
mod size;
mod stability;
mod track;
mod world;
mod world_key;

pub use arena::{Arena, Stored};
pub use docs::Docs;
pub use function::{Function, FunctionKind, FunctionTypes, Param};
pub use id::{
    Id, InterfaceId, InterfaceTag, PackageId, PackageTag, TypeId, TypeTag, WorldId, WorldTag,
};
pub use interface::{Interface, TypeDef, TypeOwner};
pub use kind::{
    Case, Enum, EnumCase, Field, Flag, Flags, Handle, Record, Result_, Tuple, Type, TypeDefKind,
    Variant,
};
pub use law::{law_tracks_are_their_own, law_world_keys_are_lawful};
pub use mangling::{AbiVariant, Mangling, UnknownMangling};
pub use package::{AstItem, ForeignItems, Package, PackageName, UnresolvedPackage};
pub use size::{FlagsRepr, Int};
pub use stability::Stability;
pub use wit_order::{
    Need, OrderFault, Span, law_a_fault_denies_an_order, law_order_is_of_the_set, toposort,
};
pub use world::{IncludeName, World, WorldInclude, WorldItem};
pub use world_key::WorldKey;
