//! Which items of packages stay, by the features that are active (WIT, Feature Gates).
#![tactic(auto)]

mod features;
mod gates;

pub use features::{Features, breaks_gate};
pub use gates::check_gates;
pub use wit_types::{
    Arena, AstItem, Case, Docs, Field, ForeignItems, Function, FunctionKind, Handle, Id, Interface,
    InterfaceTag, Package, PackageId, PackageName, Param, Record, Result_, Span, Stability, Tuple,
    Type, TypeDef, TypeDefKind, TypeId, TypeOwner, TypeTag, UnresolvedPackage, Variant, World,
    WorldInclude, WorldItem, WorldKey, WorldTag,
};
