//! What is known by ids.

ghost use Rattle.std.specs.Prelude.{◌≡◌, option_map, slice_get};

use wit_types::{Arena, Interface, InterfaceId, TypeDef, TypeId};

/// The interface of an id, if it is known.
pub fn interface_at(interfaces: &Arena<Interface>, id: InterfaceId) -> Option<&Interface>
    ensures { option_map (λ d. d.now) result ≡ slice_get interfaces.entry.now id }
{
    if id.index() >= interfaces.len() {
        return None;
    }
    Some(interfaces.get(id))
}

/// The type of an id, if it is known.
pub fn type_at(types: &Arena<TypeDef>, id: TypeId) -> Option<&TypeDef>
    ensures { option_map (λ d. d.now) result ≡ slice_get types.entry.now id }
{
    if id.index() >= types.len() {
        return None;
    }
    Some(types.get(id))
}
