//! Where interfaces and worlds that are asked for stand in a graph.

ghost use Rattle.std.specs.Prelude.{◌≡◌, ◌++◌, ◌∷◌, [], nat_eq, OnOk, IfOk};
ghost use Rattle.indexmap.specs.IndexMap.{get};
ghost use Rattle.wit_finding.specs.Places as spec;

use indexmap::IndexMap;
use std::alloc::{AllocError, Global};
use wit_moves::{AstItem, Id, InterfacePlaces, Places, WorldPlaces};

/// The number of an interface.
fn interface_number(item: &AstItem) -> Option<usize>
    ensures { result ≡ spec.interface_number item.now }
{
    match item {
        AstItem::Interface(id) => Some(id.index()),
        AstItem::World(_) => None,
    }
}

/// The number of a world.
fn world_number(item: &AstItem) -> Option<usize>
    ensures { result ≡ spec.world_number item.now }
{
    match item {
        AstItem::Interface(_) => None,
        AstItem::World(id) => Some(id.index()),
    }
}

/// Adds what is found of interfaces, by their numbers.
fn add_interface(
    pairs: &mut Vec<(usize, usize)>,
    from: AstItem,
    to: AstItem,
) -> Result<(), AllocError>
    ensures { OnOk result (pairs.new.items ≡ pairs.old.items ++ spec.interface_pair (from, to)) }
{
    if let (Some(from), Some(to)) = (interface_number(&from), interface_number(&to)) {
        pairs.push((from, to))?;
    }
    Ok(())
}

/// Adds what is found of worlds, by their numbers.
fn add_world(pairs: &mut Vec<(usize, usize)>, from: AstItem, to: AstItem) -> Result<(), AllocError>
    ensures { OnOk result (pairs.new.items ≡ pairs.old.items ++ spec.world_pair (from, to)) }
{
    if let (Some(from), Some(to)) = (world_number(&from), world_number(&to)) {
        pairs.push((from, to))?;
    }
    Ok(())
}

/// What is found of interfaces.
fn interface_pairs(
    alloc: Global,
    found: &[(AstItem, AstItem)],
) -> Result<Vec<(usize, usize)>, AllocError>
    ensures { IfOk result (λ pairs. pairs.items ≡ spec.interface_pairs found.now) }
{
    let mut pairs = Vec::new(alloc);
    for (from, to) in found {
        add_interface(&mut pairs, *from, *to)?;
    }
    Ok(pairs)
}

/// What is found of worlds.
fn world_pairs(
    alloc: Global,
    found: &[(AstItem, AstItem)],
) -> Result<Vec<(usize, usize)>, AllocError>
    ensures { IfOk result (λ pairs. pairs.items ≡ spec.world_pairs found.now) }
{
    let mut pairs = Vec::new(alloc);
    for (from, to) in found {
        add_world(&mut pairs, *from, *to)?;
    }
    Ok(pairs)
}

/// The pairs by what stands in front.
fn by_first(alloc: Global, pairs: &[(usize, usize)]) -> Result<IndexMap<usize, usize>, AllocError>
    ensures { IfOk result (λ known. spec.AreKnown pairs.now (get nat_eq known)) }
{
    let mut known = IndexMap::new(alloc);
    for (from, to) in pairs {
        known.insert(*from, *to)?;
    }
    Ok(known)
}

/// Says where the next one stands, if it does.
fn place_next<T>(places: &mut Places<T>, place: Option<usize>) -> Result<(), AllocError>
    ensures { OnOk result (places.new ≡ places.old ++ place ∷ []) }
{
    match place {
        Some(index) => places.push(Id::from_index(index)),
        None => places.leave_out(),
    }
}

/// Where so many of one sort stand, by a table.
fn places_known<T>(
    alloc: Global,
    known: &IndexMap<usize, usize>,
    so_many: usize,
) -> Result<Places<T>, AllocError>
    ensures { IfOk result (spec.ArePlacedBy (get nat_eq known.now) so_many) }
{
    let mut places = Places::new(alloc);
    for index in 0..so_many {
        place_next(&mut places, known.get(&index).copied())?;
    }
    Ok(places)
}

/// Where so many of one sort stand.
fn places<T>(
    alloc: Global,
    pairs: &[(usize, usize)],
    so_many: usize,
) -> Result<Places<T>, AllocError>
    ensures { IfOk result (spec.ArePlaced pairs.now so_many) }
{
    let known = by_first(alloc, pairs)?;
    places_known(alloc, &known, so_many)
}

/// Where the interfaces stand that a package asks for, which are the first so many: each where it is found, the others nowhere.
pub fn found_interfaces(
    alloc: Global,
    found: &[(AstItem, AstItem)],
    so_many: usize,
) -> Result<InterfacePlaces, AllocError>
    ensures { IfOk result (spec.ArePlaced (spec.interface_pairs found.now) so_many) }
{
    let pairs = interface_pairs(alloc, found)?;
    places(alloc, pairs.as_slice(), so_many)
}

/// The same of worlds.
pub fn found_worlds(
    alloc: Global,
    found: &[(AstItem, AstItem)],
    so_many: usize,
) -> Result<WorldPlaces, AllocError>
    ensures { IfOk result (spec.ArePlaced (spec.world_pairs found.now) so_many) }
{
    let pairs = world_pairs(alloc, found)?;
    places(alloc, pairs.as_slice(), so_many)
}
