//! Names of packages, and paths (WIT, Package Names). Each name is a slice of the text, with where it stands.

use wit_tokens::Span;

/// An identifier (WIT, Identifiers). `==` compares names, and not where they stand.
#[derive(Clone, Copy, Debug)]
#[derive_where(PartialEq)]
pub struct Id<'a> {
    /// The name, without a `%` in front of it.
    pub name: &'a str,
    /// Where the name stands.
    #[derive_where(skip(EqHashOrd))]
    pub span: Span,
}

/// A version of SemVer 2.0. `==` compares its text, and not where it stands.
#[derive(Clone, Copy, Debug)]
#[derive_where(PartialEq)]
pub struct Version<'a> {
    /// The version as it stands in the text.
    pub text: &'a str,
    /// Where it stands.
    #[derive_where(skip(EqHashOrd))]
    pub span: Span,
}

/// `namespace:name` or `namespace:name@version` (WIT, Package Names).
#[derive(Clone, Copy, Debug)]
pub struct PackageName<'a> {
    /// What stands in front of the colon.
    pub namespace: Id<'a>,
    /// The package's name.
    pub name: Id<'a>,
    /// Its version, if it has one.
    pub version: Option<Version<'a>>,
}

/// What a path names (WIT, Package and Interface Names).
#[derive(Clone, Copy, Debug)]
pub enum UsePath<'a> {
    /// Something of the own package, or used by its file: `name`.
    Id(Id<'a>),
    /// Something of a package: `namespace:package/name` or `namespace:package/name@version`.
    Package {
        /// The package.
        id: PackageName<'a>,
        /// The name in it.
        name: Id<'a>,
    },
}
