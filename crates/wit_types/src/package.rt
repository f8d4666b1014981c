//! Packages.

ghost use Rattle.std.specs.Prelude.{◌≡◌, Some, string_bytes, IfOk};
ghost use Rattle.wit_types.specs.Package.{package_text, interface_text};

use crate::Span;
use crate::arena::{Arena, Stored};
use crate::docs::Docs;
use crate::id::{InterfaceId, PackageId, PackageTag, WorldId};
use crate::interface::{Interface, TypeDef};
use crate::stability::Stability;
use crate::world::World;
use indexmap::IndexMap;
use semver::Version;
use std::alloc::{AllocError, Global};
use std::fmt;

/// The name of a package (WIT, Package Names). `==` compares the texts and the version, its build text too.
#[derive(Clone, PartialEq, Eq, Hash, Drop)]
pub struct PackageName {
    /// What stands in front of the colon.
    pub namespace: String,
    /// What stands behind it.
    pub name: String,
    /// The version, if it has one.
    pub version: Option<Version>,
}

impl fmt::Display for PackageName {
    ghost output = { λ p. Some (package_text p) };

    fn fmt<W: fmt::Write>(&self, f: &mut fmt::Formatter<W>) -> fmt::Result {
        f.write_str(self.namespace.as_str())?;
        f.write_str(":")?;
        f.write_str(self.name.as_str())?;
        match &self.version {
            None => Ok(()),
            Some(version) => write!(f, "@{version}"),
        }
    }
}

impl PackageName {
    /// The name as it is written: `namespace:name`, or `namespace:name@version`.
    pub fn to_text(&self, alloc: Global) -> Result<String, AllocError>
        ensures { IfOk result (λ s. string_bytes s ≡ package_text self.now) }
    {
        format!(in alloc; "{self}")
    }

    /// The key of an interface of the package: `namespace:name/interface`, or `namespace:name/interface@version`.
    pub fn interface_id(&self, alloc: Global, interface: &str) -> Result<String, AllocError>
        ensures { IfOk result (λ s. string_bytes s ≡ interface_text self.now interface.now) }
    {
        let namespace = self.namespace.as_str();
        let name = self.name.as_str();
        match &self.version {
            None => format!(in alloc; "{namespace}:{name}/{interface}"),
            Some(version) => format!(in alloc; "{namespace}:{name}/{interface}@{version}"),
        }
    }
}

/// A package (WIT, Package Names).
#[derive(Drop)]
pub struct Package {
    /// Its name.
    pub name: PackageName,
    /// Its docs.
    pub docs: Docs,
    /// Its interfaces by name.
    pub interfaces: IndexMap<String, InterfaceId>,
    /// Its worlds by name.
    pub worlds: IndexMap<String, WorldId>,
}

impl Stored for Package {
    type Tag = PackageTag;
}

/// What a path names in another package, as far as that can be told from where it stands.
#[derive(Clone, Copy, Debug, PartialEq, Eq)]
pub enum AstItem {
    /// An interface.
    Interface(InterfaceId),
    /// A world.
    World(WorldId),
}

/// What is asked of another package: each name with what it stands for, and with the gates of what asks for it.
pub type ForeignItems = IndexMap<String, (AstItem, Vec<Stability>)>;

/// A package of which the names from other packages are not looked up yet.
#[derive(Drop)]
pub struct UnresolvedPackage {
    /// Its name.
    pub name: PackageName,
    /// Where that stands, with its version: in the first of its files that gives it.
    pub name_span: Span,
    /// Its docs.
    pub docs: Docs,
    /// Its worlds, and those of other packages that it asks for.
    pub worlds: Arena<World>,
    /// Its interfaces, and those of other packages that it asks for.
    pub interfaces: Arena<Interface>,
    /// Its types; those of other packages that it asks for come first, and are unknown.
    pub types: Arena<TypeDef>,
    /// What it asks of each other package.
    pub foreign_deps: IndexMap<PackageName, ForeignItems>,
    /// Where it first asks for each of those, in the same order.
    pub foreign_dep_spans: Vec<Span>,
    /// Where each unknown type is asked for, in the same order.
    pub unknown_type_spans: Vec<Span>,
}
