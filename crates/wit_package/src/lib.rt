//! Packages of WIT (WIT, Packages): what their files or their texts are resolved to, or the rule that they break. The types that a
//! package is made of stand in `wit_types`, and what is read of texts in `wit_syntax`; those that users name are offered here too.
#![tactic(auto)]

mod asked;
mod build;
mod group;
mod law;
mod made;
mod places;
mod resolve;
mod resolver;
mod top_uses;
mod versions;

pub use group::UnresolvedPackageGroup;
pub use indexmap::{IndexMap, IndexSet};
pub use law::{
    law_built_packages_are_resolved, law_items_break_as_scopes_do, law_kept_packages_may_be_built,
    law_missing_names_come_first, law_packages_are_built_in_two_steps,
};
pub use resolve::resolved_files;
pub use resolver::Resolver;
pub use wit_rules::{PackageFault, PackageRule};
pub use wit_syntax::{File, SourceMap, Span, SyntaxFault, parse_file};
pub use wit_types::{
    AbiVariant, Arena, AstItem, Case, Docs, Enum, EnumCase, Field, Flag, Flags, FlagsRepr,
    ForeignItems, Function, FunctionKind, FunctionTypes, Handle, Id, IncludeName, Int, Interface,
    InterfaceId, InterfaceTag, Mangling, Need, OrderFault, Package, PackageId, PackageName,
    PackageTag, Param, Record, Result_, Stability, Stored, Tuple, Type, TypeDef, TypeDefKind,
    TypeId, TypeOwner, TypeTag, UnknownMangling, UnresolvedPackage, Variant, World, WorldId,
    WorldInclude, WorldItem, WorldKey, WorldTag, law_a_fault_denies_an_order,
    law_order_is_of_the_set, law_tracks_are_their_own, law_world_keys_are_lawful, toposort,
};
