//! What `use` finds.

ghost use Rattle.std.specs.Prelude.{◌≡◌, ℕ, [], IfOk, OnErr, OnOk, IfSome, IfNone};
ghost use Rattle.name_places.specs.FirstPlaces.{place_of};
ghost use Rattle.wit_rules.specs.Passed.wit_syntax-AstView as view;
ghost use Rattle.wit_rules.specs.Passed.wit_scopes-View as scope_view;
ghost use Rattle.wit_package_types.specs.Known.{KnownTypes, with_interface, FindsOwn, Finds};

use crate::foreign::{ForeignTypes, TypePath};
use name_places::FirstPlaces;
use std::alloc::{AllocError, Global};
use std::marker::Model;
use wit_arena::Table;
use wit_rules::{Id, Target};
use wit_types::TypeId;

/// The types that `use` finds: those of the interfaces of the package that are filled, and those of other packages.
#[derive(Drop)]
pub struct Known<'a> {
    names: FirstPlaces<'a>,
    tables: Vec<Table<'a>>,
    foreign: ForeignTypes<'a>,
}

impl<'a> Model for Known<'a> {
    ghost use Rattle.std.specs.Prelude.{◌≡◌, length};
    ghost use Rattle.wit_package_types.specs.Known.{KnownTypes};

    ghost Value = { KnownTypes };

    ghost view = { λ k. record { names = k.names; tables = k.tables.items; foreign = k.foreign } };

    ghost invariant = { λ k. length k.names ≡ length k.tables.items };
}

impl<'a> Known<'a> {
    /// No interface of the package, with room for so many, and these types of others.
    pub fn with_capacity(
        alloc: Global,
        foreign: ForeignTypes<'a>,
        capacity: usize,
    ) -> Result<Known<'a>, AllocError>
        ensures { IfOk result (λ k. k ≡ record { names = []; tables = []; foreign = foreign.entry }) }
    {
        let names = FirstPlaces::with_capacity(alloc, capacity)?;
        let tables = Vec::with_capacity(alloc, capacity)?;
        Ok(Known {
            names,
            tables,
            foreign,
        })
    }

    /// The type that a `use` takes from an interface.
    pub fn get(&self, from: &Target<'a>, name: &Id<'a>) -> Option<TypeId>
        ensures some { IfSome result (λ i. Finds self.now (scope_view.target from.now) (view.id name.now) i) }
        ensures none { IfNone result ((i : ℕ) → Finds self.now (scope_view.target from.now) (view.id name.now) i → ⊥) }
    {
        match from {
            Target::Own(interface) => self.get_own(interface, name),
            Target::Foreign {
                package,
                name: interface,
            } => self.foreign.get(&TypePath::new(package, interface, name)),
        }
    }

    /// The type that an interface of the package has under a name.
    fn get_own(&self, interface: &Id<'a>, name: &Id<'a>) -> Option<TypeId>
        ensures some { IfSome result (λ i. FindsOwn self.now interface.now.name.now name.now.name.now i) }
        ensures none { IfNone result ((i : ℕ) → FindsOwn self.now interface.now.name.now name.now.name.now i → ⊥) }
    {
        let place = self.names.first(interface.name)?;
        let table = self.tables.get(place)?;
        table.get(name.name)
    }

    /// The place of an interface among those of the package that are known: of two of one name the first counts.
    pub fn place(&self, name: &str) -> Option<usize>
        ensures { result ≡ place_of name.now self.now.names }
    {
        self.names.first(name)
    }

    /// Adds an interface of the package with its types, behind the others; of two of one name the first counts. Where memory
    /// is wanting nothing changes.
    pub fn add(&mut self, name: &'a str, table: Table<'a>) -> Result<(), AllocError>
        ensures ok { OnOk result (self.new ≡ with_interface self.old name.entry.now table.entry) }
        ensures err { OnErr result (self.new ≡ self.old) }
    {
        self.tables.reserve(1)?;
        self.names.push(name)?;
        self.tables.push(table).unwrap();
        Ok(())
    }
}
