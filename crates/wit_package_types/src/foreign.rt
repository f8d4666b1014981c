//! Types of other packages.

ghost use Rattle.std.specs.Prelude.{◌≡◌, ℕ, ◌∷◌, ◌++◌, [], OnErr, OnOk, IfSome, IfNone};
ghost use Rattle.wit_rules.specs.Passed.wit_syntax-AstView as view;
ghost use Rattle.wit_arena.specs.Meaning.{Has};
ghost use Rattle.wit_package_types.specs.Foreign.{foreign_name, path_name};

use indexmap::IndexMap;
use std::alloc::{AllocError, Global};
use std::marker::Model;
use wit_rules::{Id, PackageName};
use wit_types::TypeId;

/// A type of an interface of another package, by its texts. `==` compares these.
#[derive(Clone, Copy, PartialEq, Eq, Hash)]
pub struct TypePath<'a> {
    /// The namespace of the package.
    pub namespace: &'a str,
    /// The name of the package.
    pub package: &'a str,
    /// The version of the package, if there is one.
    pub version: Option<&'a str>,
    /// The name of the interface.
    pub interface: &'a str,
    /// The name of the type.
    pub name: &'a str,
}

impl<'a> TypePath<'a> {
    /// The path of a type of an interface of a package.
    pub fn new(from: &PackageName<'a>, interface: &Id<'a>, name: &Id<'a>) -> TypePath<'a>
        ensures { path_name result ≡ foreign_name (view.package_name from.now) (view.id interface.now) (view.id name.now) }
    {
        TypePath {
            namespace: from.namespace.name,
            package: from.name.name,
            version: from.version.map(|version| version.text),
            interface: interface.name,
            name: name.name,
        }
    }
}

/// Types of other packages, in the order in which they came.
#[derive(Drop)]
pub struct ForeignTypes<'a> {
    inner: IndexMap<TypePath<'a>, usize>,
}

impl<'a> Model for ForeignTypes<'a> {
    ghost use Rattle.std.specs.Prelude.{List, ℕ};
    ghost use Rattle.wit_package_types.specs.Foreign.{ForeignName, foreign_entries};

    ghost Value = { List (ForeignName × ℕ) };

    ghost view = { λ t. foreign_entries t.inner.entries };
}

impl<'a> ForeignTypes<'a> {
    /// No types.
    pub fn new(alloc: Global) -> ForeignTypes<'a>
        ensures { result ≡ [] }
    {
        ForeignTypes {
            inner: IndexMap::new(alloc),
        }
    }

    /// The type under a path.
    pub fn get(&self, path: &TypePath<'a>) -> Option<TypeId>
        ensures some { IfSome result (λ i. Has self.now (path_name path.now, i)) }
        ensures none { IfNone result ((i : ℕ) → Has self.now (path_name path.now, i) → ⊥) }
    {
        let index = self.inner.get(path).copied()?;
        Some(TypeId::from_index(index))
    }

    /// Puts a type under a path that isn't there; it goes last. Where memory is wanting nothing changes.
    pub fn add(&mut self, path: TypePath<'a>, id: TypeId) -> Result<(), AllocError>
        requires { (i : ℕ) → Has self.old (path_name path, i) → ⊥ }
        ensures ok { OnOk result (self.new ≡ self.old ++ (path_name path.entry, id) ∷ []) }
        ensures err { OnErr result (self.new ≡ self.old) }
    {
        self.inner.reserve(1)?;
        self.inner.insert(path, id.index()).unwrap();
        Ok(())
    }
}
