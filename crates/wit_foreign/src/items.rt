//! The interfaces and worlds of other packages that are asked for.

ghost use Rattle.std.specs.Prelude.{◌≡◌, ℕ, ◌+◌, ◌^◌, ◌<◌, ◌∷◌, ◌++◌, [], length, OnErr, OnOk, IfOk, IfSome, IfNone};
ghost use Rattle.wit_types.specs.declared.«package».AstItem.{AstItem};
ghost use Rattle.wit_lookups.specs.Passed.wit_syntax-AstView as view;
ghost use Rattle.wit_package_types.specs.Passed.wit_arena-Tree.{Name};
ghost use Rattle.wit_package_types.specs.Passed.wit_arena-Meaning.{Has};
ghost use Rattle.wit_foreign.specs.View as seen;
ghost use Rattle.wit_foreign.specs.ItemView.{path_owner};
ghost use Rattle.wit_foreign.specs.Items as spec;

use crate::needs::Need;
use indexmap::IndexMap;
use std::alloc::{AllocError, Global};
use std::marker::Model;
use wit_lookups::{Asked, Id, PackageName};
use wit_types::{AstItem, InterfaceId, WorldId};

/// An interface or a world of another package, by its texts. `==` compares these.
#[derive(Clone, Copy, PartialEq, Eq, Hash)]
pub struct ItemPath<'a> {
    /// The namespace of the package.
    pub namespace: &'a str,
    /// The name of the package.
    pub package: &'a str,
    /// The version of the package, if there is one.
    pub version: Option<&'a str>,
    /// The name of the interface or the world.
    pub item: &'a str,
    /// Which of the two it is.
    pub asked: Asked,
}

impl<'a> ItemPath<'a> {
    /// The path of what is asked for of a package.
    pub fn new(from: &PackageName<'a>, item: &Id<'a>, asked: Asked) -> ItemPath<'a>
        ensures { path_owner result ≡ spec.owner_asked (view.package_name from.now) (view.id item.now) asked }
    {
        ItemPath {
            namespace: from.namespace.name,
            package: from.name.name,
            version: from.version.map(|version| version.text),
            item: item.name,
            asked,
        }
    }
}

/// The id of that number.
fn item_at(asked: Asked, index: usize) -> AstItem
    ensures { result ≡ spec.id_asked asked index }
{
    match asked {
        Asked::Interface => AstItem::Interface(InterfaceId::from_index(index)),
        Asked::World => AstItem::World(WorldId::from_index(index)),
    }
}

/// The number of one more, where there are so many interfaces and worlds: there is one more of its sort from then on.
fn take_number(asked: Asked, interfaces: &mut usize, worlds: &mut usize) -> usize
    requires interfaces { interfaces.old < 2 ^ 63 }
    requires worlds { worlds.old < 2 ^ 63 }
    ensures number { (x : Name) → spec.IsNumbered interfaces.old worlds.old (spec.place_asked asked x) (spec.id_asked asked result) }
    ensures interfaces { interfaces.new ≡ interfaces.old + spec.interface_count (spec.id_asked asked result) }
    ensures worlds { worlds.new ≡ worlds.old + spec.world_count (spec.id_asked asked result) }
{
    match asked {
        Asked::Interface => {
            let number = *interfaces;
            *interfaces += 1;
            number
        }
        Asked::World => {
            let number = *worlds;
            *worlds += 1;
            number
        }
    }
}

/// Interfaces and worlds of other packages, in the order in which they came, each with an id.
#[derive(Drop)]
pub struct ForeignItems<'a> {
    inner: IndexMap<ItemPath<'a>, usize>,
    interfaces: usize,
    worlds: usize,
}

impl<'a> Model for ForeignItems<'a> {
    ghost use Rattle.std.specs.Prelude.{◌≡◌};
    ghost use Rattle.wit_foreign.specs.Items.{Items, interfaces_in, worlds_in};
    ghost use Rattle.wit_foreign.specs.ItemView.{item_entries};

    ghost Value = { Items };

    ghost view = { λ t. item_entries t.inner.entries };

    ghost invariant = { λ t. (t.interfaces ≡ interfaces_in (item_entries t.inner.entries)) × (t.worlds ≡ worlds_in (item_entries t.inner.entries)) };
}

impl<'a> ForeignItems<'a> {
    /// None.
    fn new(alloc: Global) -> ForeignItems<'a>
        ensures { result ≡ [] }
    {
        ForeignItems {
            inner: IndexMap::new(alloc),
            interfaces: 0,
            worlds: 0,
        }
    }

    /// The id at a path.
    fn find(&self, path: &ItemPath<'a>) -> Option<AstItem>
        ensures some { IfSome result (λ i. Has self.now (path_owner path.now, i)) }
        ensures none { IfNone result ((i : AstItem) → Has self.now (path_owner path.now, i) → ⊥) }
    {
        let index = self.inner.get(path).copied()?;
        Some(item_at(path.asked, index))
    }

    /// The id of what is asked for of a package.
    pub fn get(&self, from: &PackageName<'a>, item: &Id<'a>, asked: Asked) -> Option<AstItem>
        ensures some { IfSome result (λ i. Has self.now (spec.owner_asked (view.package_name from.now) (view.id item.now) asked, i)) }
        ensures none { IfNone result ((i : AstItem) → Has self.now (spec.owner_asked (view.package_name from.now) (view.id item.now) asked, i) → ⊥) }
    {
        self.find(&ItemPath::new(from, item, asked))
    }

    /// How many interfaces are asked for: their ids are the numbers below.
    pub fn interfaces(&self) -> usize
        ensures { result ≡ spec.interfaces_in self.now }
    {
        self.interfaces
    }

    /// How many worlds are asked for: their ids are the numbers below.
    pub fn worlds(&self) -> usize
        ensures { result ≡ spec.worlds_in self.now }
    {
        self.worlds
    }

    /// Puts an item that isn't there behind the others, with the next id of its sort. Where memory is wanting nothing
    /// changes.
    fn add(&mut self, path: ItemPath<'a>) -> Result<(), AllocError>
        requires absent { (i : AstItem) → Has self.old (path_owner path, i) → ⊥ }
        requires room { length self.old < 2 ^ 63 }
        ensures ok { OnOk result ((i : AstItem) × spec.IsNext self.old (path_owner path.entry).place i × (self.new ≡ self.old ++ (path_owner path.entry, i) ∷ [])) }
        ensures err { OnErr result (self.new ≡ self.old) }
    {
        self.inner.reserve(1)?;
        let number = take_number(path.asked, &mut self.interfaces, &mut self.worlds);
        self.inner.insert(path, number).unwrap();
        Ok(())
    }

    /// Takes what is asked for once more.
    fn take(&mut self, need: &Need<'a>) -> Result<(), AllocError>
        requires room { length self.old < 2 ^ 63 }
        ensures { OnOk result (spec.TakesNeed self.old (seen.need need.now) self.new) }
    {
        let path = ItemPath::new(&need.package, &need.item, need.asked);
        match self.find(&path) {
            Some(_) => Ok(()),
            None => self.add(path),
        }
    }
}

/// The interfaces and worlds that are asked for: each has one id, by which interfaces are numbered 0, 1, .. in the order in
/// which they are first asked for, and worlds likewise by themselves.
pub fn foreign_items<'a>(alloc: Global, needs: &[Need<'a>]) -> Result<ForeignItems<'a>, AllocError>
    ensures { IfOk result (spec.AreItemsOf (seen.needs needs.now)) }
{
    let mut items = ForeignItems::new(alloc);
    for need in needs {
        items.take(need)?;
    }
    Ok(items)
}
