//! The trees of items but worlds (WIT). Each name is a slice of the text, with where it stands.

use wit_productions::{Docs, Id, Span, Type, UsePath, Version};

/// Since when, or on what terms, an item is there (WIT, Feature Gates).
#[derive(Clone, Copy, Debug)]
pub enum Gate<'a> {
    /// `since(version = version)`
    Since(Version<'a>),
    /// `unstable(feature = name)`
    Unstable(Id<'a>),
    /// `deprecated(version = version)`
    Deprecated(Version<'a>),
}

/// A gate behind an `@`.
#[derive(Clone, Copy, Debug)]
pub struct Attribute<'a> {
    /// What it says.
    pub gate: Gate<'a>,
    /// Where it stands, without the `@`.
    pub span: Span,
}

/// An item with what stands in front of it.
#[derive(Drop)]
pub struct Gated<'a, T> {
    /// The docs in front of the first of its attributes, or of the item where it has none.
    pub docs: Docs<'a>,
    /// The attributes in their order.
    pub attributes: Vec<Attribute<'a>>,
    /// The item.
    pub item: T,
    /// Where the item stands: from its keyword or its name to its closing brace or semicolon.
    pub span: Span,
}

/// `name` or `name as other`
#[derive(Clone, Copy, Debug)]
pub struct UseName<'a> {
    /// The name where it is taken from.
    pub name: Id<'a>,
    /// The name by which it is known here, if that is another.
    pub as_: Option<Id<'a>>,
}

/// `use path.{name, ..};` (WIT, Use)
#[derive(Drop)]
pub struct Use<'a> {
    /// The interface.
    pub from: UsePath<'a>,
    /// The names that are taken from it: at least one.
    pub names: Vec<UseName<'a>>,
}

/// `use path;` or `use path as name;` (WIT, Top-Level Use)
#[derive(Clone, Copy, Debug)]
pub struct ToplevelUse<'a> {
    /// What is named.
    pub item: UsePath<'a>,
    /// The name by which it is known in the file, if that is another.
    pub as_: Option<Id<'a>>,
}

/// `name: type`
#[derive(Drop)]
pub struct Param<'a> {
    /// The parameter's name.
    pub name: Id<'a>,
    /// Its type.
    pub ty: Type<'a>,
}

/// `func(name: type, ..) -> type` or the same behind `async` (WIT, Functions)
#[derive(Drop)]
pub struct Func<'a> {
    /// Whether `async` stands in front of it.
    pub async_: bool,
    /// The parameters in their order.
    pub params: Vec<Param<'a>>,
    /// The type behind the arrow, if there is one.
    pub result: Option<Type<'a>>,
}

/// `name: func(..);`
#[derive(Drop)]
pub struct NamedFunc<'a> {
    /// The function's name.
    pub name: Id<'a>,
    /// Its type.
    pub func: Func<'a>,
}

/// A field of a record: `name: type`
#[derive(Drop)]
pub struct Field<'a> {
    /// The docs in front of it.
    pub docs: Docs<'a>,
    /// The field's name.
    pub name: Id<'a>,
    /// Its type.
    pub ty: Type<'a>,
}

/// A flag: `name`
#[derive(Drop)]
pub struct Flag<'a> {
    /// The docs in front of it.
    pub docs: Docs<'a>,
    /// The flag's name.
    pub name: Id<'a>,
}

/// A case of an enum: `name`
#[derive(Drop)]
pub struct EnumCase<'a> {
    /// The docs in front of it.
    pub docs: Docs<'a>,
    /// The case's name.
    pub name: Id<'a>,
}

/// A case of a variant: `name` or `name(type)`
#[derive(Drop)]
pub struct Case<'a> {
    /// The docs in front of it.
    pub docs: Docs<'a>,
    /// The case's name.
    pub name: Id<'a>,
    /// The type of what it carries, if it carries something.
    pub ty: Option<Type<'a>>,
}

/// A function of a resource (WIT, Item: `resource`).
#[derive(Drop)]
pub enum ResourceFunc<'a> {
    /// `constructor(name: type, ..);` or `constructor(name: type, ..) -> type;`
    Constructor {
        /// The parameters in their order.
        params: Vec<Param<'a>>,
        /// The type behind the arrow, if there is one.
        result: Option<Type<'a>>,
    },
    /// `name: func(..);`
    Method(NamedFunc<'a>),
    /// `name: static func(..);`
    Static(NamedFunc<'a>),
}

/// What a type definition defines (WIT, Items).
#[derive(Drop)]
pub enum TypeDefKind<'a> {
    /// `type name = type;`
    Alias(Type<'a>),
    /// `record name { field, .. }`
    Record(Vec<Field<'a>>),
    /// `flags name { flag, .. }`
    Flags(Vec<Flag<'a>>),
    /// `enum name { case, .. }`
    Enum(Vec<EnumCase<'a>>),
    /// `variant name { case, .. }`
    Variant(Vec<Case<'a>>),
    /// `resource name;` or `resource name { function .. }`
    Resource(Vec<Gated<'a, ResourceFunc<'a>>>),
}

/// A type definition.
#[derive(Drop)]
pub struct TypeDef<'a> {
    /// The type's name.
    pub name: Id<'a>,
    /// What it is.
    pub kind: TypeDefKind<'a>,
}

/// An item of an interface.
#[derive(Drop)]
pub enum InterfaceItem<'a> {
    /// `use path.{name, ..};`
    Use(Use<'a>),
    /// A type definition.
    TypeDef(TypeDef<'a>),
    /// `name: func(..);`
    Func(NamedFunc<'a>),
}

/// `interface name { item .. }` (WIT, Item: `interface`)
#[derive(Drop)]
pub struct Interface<'a> {
    /// The interface's name.
    pub name: Id<'a>,
    /// The items in their order.
    pub items: Vec<Gated<'a, InterfaceItem<'a>>>,
}
