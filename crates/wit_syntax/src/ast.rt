//! The tree of a text (WIT). Each name is a slice of the text, with where it stands.

use wit_items::{Gated, Interface, NamedFunc, ToplevelUse, TypeDef, Use};
use wit_productions::{Docs, Id, PackageName, UsePath};

/// What a world imports or exports.
#[derive(Drop)]
pub enum ExternKind<'a> {
    /// `name: func(..);`
    Func(NamedFunc<'a>),
    /// `name: interface { item .. }`
    Interface(Interface<'a>),
    /// `path;`
    Path(UsePath<'a>),
}

/// A plain name of the included world, and the name that it gets: `name as other`
#[derive(Clone, Copy, Debug)]
pub struct IncludeName<'a> {
    /// The name in the included world.
    pub name: Id<'a>,
    /// The name in the world that includes it.
    pub as_: Id<'a>,
}

/// `include path;` or `include path with { name as other, .. }` (WIT, Item: `include`)
#[derive(Drop)]
pub struct Include<'a> {
    /// The world.
    pub from: UsePath<'a>,
    /// The names that it gets here.
    pub names: Vec<IncludeName<'a>>,
}

/// An item of a world.
#[derive(Drop)]
pub enum WorldItem<'a> {
    /// `import ..`
    Import(ExternKind<'a>),
    /// `export ..`
    Export(ExternKind<'a>),
    /// `use path.{name, ..};`
    Use(Use<'a>),
    /// A type definition.
    TypeDef(TypeDef<'a>),
    /// `include path ..`
    Include(Include<'a>),
}

/// `world name { item .. }` (WIT, Item: `world`)
#[derive(Drop)]
pub struct World<'a> {
    /// The world's name.
    pub name: Id<'a>,
    /// The items in their order.
    pub items: Vec<Gated<'a, WorldItem<'a>>>,
}

/// An item of a package.
#[derive(Drop)]
pub enum AstItem<'a> {
    /// `use path;`
    Use(ToplevelUse<'a>),
    /// An interface.
    Interface(Interface<'a>),
    /// A world.
    World(World<'a>),
}

/// A package within a file: `package namespace:name { item .. }`
#[derive(Drop)]
pub struct Package<'a> {
    /// The package's name.
    pub name: PackageName<'a>,
    /// The items in their order.
    pub items: Vec<Gated<'a, AstItem<'a>>>,
}

/// An item of a file.
#[derive(Drop)]
pub enum FileItem<'a> {
    /// An item of the file's own package.
    Item(AstItem<'a>),
    /// A package of its own.
    Package(Package<'a>),
}

/// The package that a file is of: `package namespace:name;`
#[derive(Drop)]
pub struct PackageHeader<'a> {
    /// The docs in front of it.
    pub docs: Docs<'a>,
    /// The package's name.
    pub name: PackageName<'a>,
}

/// A whole text.
#[derive(Drop)]
pub struct File<'a> {
    /// The package that it is of, if it says so.
    pub package: Option<PackageHeader<'a>>,
    /// The items in their order.
    pub items: Vec<Gated<'a, FileItem<'a>>>,
}
