//! Where the interfaces and worlds of a package stand, in the order in which they are brought in.

ghost use Rattle.std.specs.Prelude.{◌≡◌, ◌<◌, ◌++◌, List, map, length, slice_get, Some, IfOk, OnOk};
ghost use Rattle.wit_scopes.specs.Scopes.{ItemScope as ItemTree};
ghost use Rattle.wit_scopes.specs.View as scope_view;
ghost use Rattle.wit_package.specs.Places as spec;

use std::alloc::{AllocError, Global};
use wit_scopes::ItemScope;

/// The places of interfaces and of worlds, each sort in its order.
#[derive(Drop)]
pub struct Places {
    /// Those of interfaces.
    pub interfaces: Vec<usize>,
    /// Those of worlds.
    pub worlds: Vec<usize>,
}

/// Adds a place to those of its sort.
fn add_place(found: &mut Places, scopes: &[ItemScope<'_>], place: usize) -> Result<(), AllocError>
    requires { place < length scopes.now }
    ensures interfaces { (s : ItemTree) → slice_get (map scope_view.item_scope scopes.now) place ≡ Some s → OnOk result (found.new.interfaces.items ≡ found.old.interfaces.items ++ spec.interface_place s place) }
    ensures worlds { (s : ItemTree) → slice_get (map scope_view.item_scope scopes.now) place ≡ Some s → OnOk result (found.new.worlds.items ≡ found.old.worlds.items ++ spec.world_place s place) }
{
    match &scopes[place] {
        ItemScope::Interface(_) => found.interfaces.push(place)?,
        ItemScope::World(_) => found.worlds.push(place)?,
    }
    Ok(())
}

/// The places of an order, those of interfaces and those of worlds each for themselves.
pub fn places_of(
    alloc: Global,
    scopes: &[ItemScope<'_>],
    order: &[usize],
) -> Result<Places, AllocError>
    requires { (sorted : List ItemTree) × spec.AreAt (map scope_view.item_scope scopes.now) order.now sorted }
    ensures { (sorted : List ItemTree) → spec.AreAt (map scope_view.item_scope scopes.now) order.now sorted → IfOk result (λ p. spec.ArePlacesOf (map scope_view.item_scope scopes.now) sorted p.interfaces.items p.worlds.items) }
{
    let mut found = Places {
        interfaces: Vec::new(alloc),
        worlds: Vec::new(alloc),
    };
    for place in order {
        add_place(&mut found, scopes, *place)?;
    }
    Ok(found)
}
