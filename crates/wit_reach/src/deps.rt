//! The interfaces of which types are used.

ghost use Rattle.std.specs.Prelude.{◌≡◌, ℕ, ◌<◌, ◌⊎◌, ◌↔◌, Some, length, map, IfOk, IfSome, OnOk};
ghost use Rattle.wit_types.specs.Passed.wit_order-Order.{Has};
ghost use Rattle.wit_reach.specs.Types.{AreTypesBackward, AreTypesThere};
ghost use Rattle.wit_reach.specs.Ids.{kind_ids};
ghost use Rattle.wit_reach.specs.Deps as spec;

use std::alloc::{AllocError, Global};
use std::collections::BTreeSet;
use wit_types::{Arena, Interface, InterfaceId, Type, TypeDef, TypeDefKind, TypeId, TypeOwner};

/// The type that another name is of, if that is an id.
fn alias_target(kind: &TypeDefKind) -> Option<TypeId>
    ensures { result ≡ spec.alias_target kind.now }
{
    match kind {
        TypeDefKind::Alias(Type::Id(id)) => Some(*id),
        _ => None,
    }
}

/// The interface to which a type belongs, if it is one.
pub(crate) fn interface_of(owner: TypeOwner) -> Option<InterfaceId>
    ensures { result ≡ spec.interface_of owner }
{
    match owner {
        TypeOwner::Interface(id) => Some(id),
        TypeOwner::World(_) | TypeOwner::None => None,
    }
}

/// Whether a type belongs to an interface.
fn is_of_interface(interface: InterfaceId, owner: TypeOwner) -> bool
    ensures { result ≡ spec.is_of_interface interface owner }
{
    match owner {
        TypeOwner::Interface(id) => id == interface,
        TypeOwner::World(_) | TypeOwner::None => false,
    }
}

/// An interface, but to which that doesn't belong.
fn but_own(by: TypeOwner, interface: Option<InterfaceId>) -> Option<InterfaceId>
    ensures { result ≡ spec.but_own by interface }
{
    match interface {
        Some(id) => {
            if is_of_interface(id, by) {
                None
            } else {
                Some(id)
            }
        }
        None => None,
    }
}

/// The interface of which a type is used under another name by this one, if it is one's.
fn dep_of(types: &Arena<TypeDef>, def: &TypeDef) -> Option<InterfaceId>
    requires { AreTypesThere types.now (kind_ids def.now.kind) }
    ensures { result ≡ spec.def_dep types.now def.now }
{
    match alias_target(&def.kind) {
        Some(target) => but_own(def.owner, interface_of(types.get(target).owner)),
        None => None,
    }
}

/// The interface of which a type is used under another name by the one with this id, if it is one's.
pub fn type_interface_dep(types: &Arena<TypeDef>, id: TypeId) -> Option<InterfaceId>
    requires backward { AreTypesBackward types.now }
    requires there { id < length types.now }
    ensures some { IfSome result (spec.IsDepOf types.now id) }
    ensures all { (j : ℕ) → spec.IsDepOf types.now id j → result ≡ Some j }
{
    dep_of(types, types.get(id))
}

/// Adds the interface of which a type is used by that one, if it is one's.
fn add_dep(set: &mut BTreeSet<usize>, types: &Arena<TypeDef>, id: TypeId) -> Result<(), AllocError>
    requires backward { AreTypesBackward types.now }
    requires there { id < length types.now }
    ensures was { OnOk result ((i : ℕ) → Has set.old.keys i → Has set.new.keys i) }
    ensures new { OnOk result ((i : ℕ) → spec.IsDepOf types.now id i → Has set.new.keys i) }
    ensures only { OnOk result ((i : ℕ) → Has set.new.keys i → Has set.old.keys i ⊎ spec.IsDepOf types.now id i) }
{
    if let Some(dep) = type_interface_dep(types, id) {
        set.insert(dep.index())?;
    }
    Ok(())
}

/// Adds the interfaces of which types are used by those.
pub(crate) fn add_deps(
    set: &mut BTreeSet<usize>,
    types: &Arena<TypeDef>,
    ids: &[TypeId],
) -> Result<(), AllocError>
    requires backward { AreTypesBackward types.now }
    requires there { AreTypesThere types.now ids.now }
    ensures was { OnOk result ((i : ℕ) → Has set.old.keys i → Has set.new.keys i) }
    ensures new { OnOk result ((i j : ℕ) → Has ids.now j → spec.IsDepOf types.now j i → Has set.new.keys i) }
    ensures only { OnOk result ((i : ℕ) → Has set.new.keys i → Has set.old.keys i ⊎ spec.AreUsed types.now ids.now i) }
{
    for id in ids {
        add_dep(set, types, *id)?;
    }
    Ok(())
}

/// The interfaces of a set.
pub(crate) fn interfaces_of(
    alloc: Global,
    set: &BTreeSet<usize>,
) -> Result<Vec<InterfaceId>, AllocError>
    ensures { IfOk result (λ found. found.items ≡ set.now.keys) }
{
    let mut found = Vec::with_capacity(alloc, set.len())?;
    for index in set {
        found.push(InterfaceId::from_index(*index))?;
    }
    Ok(found)
}

/// The ids of the types of an interface.
fn type_ids(alloc: Global, interface: &Interface) -> Result<Vec<TypeId>, AllocError>
    ensures { IfOk result (λ ids. ids.items ≡ map (λ e. e.1) interface.now.types.entries) }
{
    let mut ids = Vec::with_capacity(alloc, interface.types.len())?;
    for id in interface.types.values() {
        ids.push(*id)?;
    }
    Ok(ids)
}

/// The interfaces of which an interface uses types.
pub fn interface_deps(
    alloc: Global,
    types: &Arena<TypeDef>,
    interface: &Interface,
) -> Result<Vec<InterfaceId>, AllocError>
    requires backward { AreTypesBackward types.now }
    requires there { AreTypesThere types.now (map (λ e. e.1) interface.now.types.entries) }
    ensures { IfOk result (λ found. (j : ℕ) → Has found.items j ↔ spec.IsInterfaceDep types.now interface.now j) }
{
    let ids = type_ids(alloc, interface)?;
    let mut set = BTreeSet::new(alloc);
    add_deps(&mut set, types, ids.as_slice())?;
    interfaces_of(alloc, &set)
}
