//! Where types that are asked for stand in a graph.

ghost use Rattle.std.specs.Prelude.{◌≡◌, ◌++◌, ◌∷◌, [], Some, map, OnOk, IfOk};
ghost use Rattle.wit_finding.specs.Types as spec;

use std::alloc::{AllocError, Global};
use wit_moves::{Arena, Interface, InterfacePlaces, TypeDef, TypeId, TypeOwner, TypePlaces};

/// The type of that name, of an interface.
fn type_in(interface: &Interface, name: &Option<String>) -> Option<TypeId>
    ensures { result ≡ spec.type_in (Some interface.now) name.now }
{
    match name {
        Some(name) => interface.types.get(name.as_str()).copied(),
        None => None,
    }
}

/// Where a type stands that is asked of an interface.
fn type_found(
    interfaces: &Arena<Interface>,
    places: &InterfacePlaces,
    def: &TypeDef,
) -> Option<TypeId>
    requires { spec.AreWithin interfaces.now places.now }
    ensures { result ≡ spec.type_found interfaces.now places.now def.now }
{
    let TypeOwner::Interface(id) = def.owner else {
        return None;
    };
    match places.get(id) {
        Some(place) => type_in(interfaces.get(place), &def.name),
        None => None,
    }
}

/// Says where the next type stands, if it does.
fn place_type(places: &mut TypePlaces, place: Option<TypeId>) -> Result<(), AllocError>
    ensures { OnOk result (places.new ≡ places.old ++ place ∷ []) }
{
    match place {
        Some(id) => places.push(id),
        None => places.leave_out(),
    }
}

/// Where types stand that are asked of interfaces: each where the interface stands, as the one of its name there, if it has one.
pub fn found_types(
    alloc: Global,
    interfaces: &Arena<Interface>,
    places: &InterfacePlaces,
    defs: &[TypeDef],
) -> Result<TypePlaces, AllocError>
    requires { spec.AreWithin interfaces.now places.now }
    ensures { IfOk result (λ found. found ≡ map (spec.type_found interfaces.now places.now) defs.now) }
{
    let mut found = TypePlaces::new(alloc);
    for def in defs {
        place_type(&mut found, type_found(interfaces, places, def))?;
    }
    Ok(found)
}
