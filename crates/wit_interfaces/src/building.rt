//! A package as far as it is brought together.

ghost use Rattle.std.specs.Prelude.{◌≡◌, ℕ, ◌+◌, [], ◌∷◌, ◌++◌, length, map, slice_get, Some, OnOk, IfErr};
ghost use Rattle.wit_rules.specs.declared.fault.PackageFault.TheVariants.{OutOfMemory};
ghost use Rattle.wit_resolved_scopes.specs.Passed.wit_package_types-Known.{with_interface};
ghost use Rattle.wit_rules.specs.Breaks.{IsKept, IsFaultOf};
ghost use Rattle.wit_scopes.specs.Scopes as scope;
ghost use Rattle.wit_scopes.specs.Scopes.{InterfaceScope as InterfaceTree};
ghost use Rattle.wit_scopes.specs.View as scope_view;
ghost use Rattle.wit_types.specs.declared.interface.TypeOwner.TheVariants as belongs;
ghost use Rattle.wit_arena.specs.Tree.{in_interface};
ghost use Rattle.wit_resolved_scopes.specs.Passed.wit_resources-Natures.{natures as natures_of};
ghost use Rattle.wit_resolved_scopes.specs.InArena.{Context};
ghost use Rattle.wit_resolved_scopes.specs.Texts.{interface_text};
ghost use Rattle.wit_resolved_scopes.specs.Fit.{Foreign, AreInterfacesReady, KnowsInterfaces};
ghost use Rattle.wit_interfaces.specs.Adding as spec;
ghost use Rattle.wit_interfaces.specs.Places.{interfaces_at, AreInterfacePlaces};

use crate::interface::{Made, make_interface};
use crate::text::text_of;
use wit_arena::Types;
use wit_resolved_scopes::{Known, Natures};
use wit_rules::PackageFault;
use wit_scopes::{InterfaceScope, ItemScope};
use wit_types::{Arena, Interface, InterfaceId};

/// A package as far as it is brought together.
#[derive(Drop)]
pub struct Building<'a> {
    /// The types that `use` finds: those of the interfaces so far, by the names of these, and those of other packages.
    pub known: Known<'a>,
    /// All types so far.
    pub types: Types,
    /// What is known of each of them.
    pub natures: Natures,
    /// The interfaces of other packages that are asked for, and the package's own so far.
    pub interfaces: Arena<Interface>,
}

/// Keeps what is made of an interface.
fn keep_interface<'a>(
    building: &mut Building<'a>,
    name: &'a str,
    made: Made<'a>,
) -> Result<(), PackageFault>
    ensures known { OnOk result (building.new.known ≡ with_interface building.old.known name.entry.now made.entry.table) }
    ensures behind { OnOk result (building.new.interfaces ≡ building.old.interfaces ++ made.entry.interface ∷ []) }
    ensures types { building.new.types ≡ building.old.types }
    ensures natures { building.new.natures ≡ building.old.natures }
    ensures memory { IfErr result (λ fault. fault ≡ OutOfMemory) }
{
    let Made { interface, table } = made;
    building.known.add(name, table)?;
    building.interfaces.alloc(interface)?;
    Ok(())
}

/// Adds an interface behind the others; from then on its types are known.
fn add_interface<'a>(
    building: &mut Building<'a>,
    interface: &InterfaceScope<'a>,
) -> Result<(), PackageFault>
    requires ready { spec.IsReadyIn building.old.known (interface_text (scope_view.interface_scope interface.now)) }
    requires natures { building.old.natures ≡ natures_of building.old.types }
    ensures adds { OnOk result (spec.AddsInterface building.old.known building.old.types building.old.interfaces (scope_view.interface_scope interface.now) building.new.known building.new.types building.new.interfaces) }
    ensures natures { OnOk result (building.new.natures ≡ natures_of building.new.types) }
    ensures kept { (c : Context) → spec.MayBring c (in_interface interface.now.name.name.now) (belongs.Interface (length building.old.interfaces)) building.old.known building.old.types (scope_view.interface_scope interface.now).members → OnOk result (IsKept (spec.MembersBreak c (in_interface interface.now.name.name.now) (scope_view.interface_scope interface.now).members)) }
    ensures cause { (c : Context) → spec.MayBring c (in_interface interface.now.name.name.now) (belongs.Interface (length building.old.interfaces)) building.old.known building.old.types (scope_view.interface_scope interface.now).members → IfErr result (IsFaultOf (spec.MembersBreak c (in_interface interface.now.name.name.now) (scope_view.interface_scope interface.now).members)) }
{
    let id = InterfaceId::from_index(building.interfaces.len());
    let text = text_of(interface);
    match make_interface(
        &mut building.types,
        &mut building.natures,
        &building.known,
        id,
        &text,
    ) {
        Ok(made) => keep_interface(building, interface.name.name, made),
        Err(fault) => Err(fault),
    }
}

/// The interface that stands at a place.
fn interface_at<'s, 'a>(scopes: &'s [ItemScope<'a>], place: usize) -> &'s InterfaceScope<'a>
    requires { (i : InterfaceTree) × (slice_get (map scope_view.item_scope scopes.now) place ≡ Some (scope.ItemScope.interface i)) }
    ensures { slice_get (map scope_view.item_scope scopes.entry.now) place ≡ Some (scope.ItemScope.interface (scope_view.interface_scope result.now)) }
{
    match &scopes[place] {
        ItemScope::Interface(interface) => interface,
        ItemScope::World(_) => unreachable!(),
    }
}

/// Adds the interfaces of a package that stand at these places behind the others, in this order, in which each stands behind
/// those from which it uses types: from then on the types of each are known by its name. They are refused where one of their
/// scopes is: P6 to P9; then nothing is said of what is built, which is to be dropped.
pub fn add_interfaces<'a>(
    building: &mut Building<'a>,
    scopes: &[ItemScope<'a>],
    places: &[usize],
) -> Result<(), PackageFault>
    requires places { AreInterfacePlaces (map scope_view.item_scope scopes.now) places.now }
    requires ready { (others : Foreign) × AreInterfacesReady others (interfaces_at (map scope_view.item_scope scopes.now) places.now) × (building.old.known.foreign ≡ others.types) }
    requires none { (building.old.known.names ≡ []) × (building.old.known.tables ≡ []) }
    requires natures { building.old.natures ≡ natures_of building.old.types }
    ensures natures { OnOk result (building.new.natures ≡ natures_of building.new.types) }
    ensures knows { OnOk result (KnowsInterfaces building.new.known (interfaces_at (map scope_view.item_scope scopes.now) places.now) × (building.new.known.foreign ≡ building.old.known.foreign)) }
    ensures so_many { OnOk result (length building.new.interfaces ≡ length building.old.interfaces + length places.now) }
    ensures adds { (c : Context) → spec.MayAdd c building.old.known building.old.types (length building.old.interfaces) (interfaces_at (map scope_view.item_scope scopes.now) places.now) → OnOk result (spec.AddsInterfaces c building.old.types building.old.interfaces (interfaces_at (map scope_view.item_scope scopes.now) places.now) building.new.known building.new.types building.new.interfaces) }
    ensures kept { (c : Context) → spec.MayAdd c building.old.known building.old.types (length building.old.interfaces) (interfaces_at (map scope_view.item_scope scopes.now) places.now) → OnOk result (IsKept (spec.InterfacesBreak c (interfaces_at (map scope_view.item_scope scopes.now) places.now))) }
    ensures cause { (c : Context) → spec.MayAdd c building.old.known building.old.types (length building.old.interfaces) (interfaces_at (map scope_view.item_scope scopes.now) places.now) → IfErr result (IsFaultOf (spec.InterfacesBreak c (interfaces_at (map scope_view.item_scope scopes.now) places.now))) }
{
    for place in places {
        let interface = interface_at(scopes, *place);
        if let Err(fault) = add_interface(building, interface) {
            return Err(fault);
        }
    }
    Ok(())
}
