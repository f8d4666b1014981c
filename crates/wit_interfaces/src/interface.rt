//! An interface.

ghost use Rattle.std.specs.Prelude.{◌≡◌, ℕ, Some, map, option_map, slice_get, string_bytes, IfOk, OnOk, IfErr};
ghost use Rattle.wit_syntax.specs.AstView as view;
ghost use Rattle.wit_scopes.specs.View as scope_view;
ghost use Rattle.wit_rules.specs.Breaks.{IsKept, IsFaultOf};
ghost use Rattle.wit_rules.specs.declared.fault.PackageFault.TheVariants.{OutOfMemory};
ghost use Rattle.wit_types.specs.declared.interface.TypeOwner.TheVariants as belongs;
ghost use Rattle.wit_arena.specs.Tree.{Place};
ghost use Rattle.wit_resolved_scopes.specs.Passed.wit_package_types-Stability.{AreGates};
ghost use Rattle.wit_resolved_scopes.specs.Passed.wit_resources-Natures.{natures as natures_of};
ghost use Rattle.wit_resolved_scopes.specs.Each.{AreApartBy};
ghost use Rattle.wit_resolved_scopes.specs.InArena.{Context};
ghost use Rattle.wit_interfaces.specs.Interfaces as spec;
ghost use Rattle.wit_interfaces.specs.Adding as adding;
ghost use Rattle.wit_interfaces.specs.View as seen;

use crate::members::bring_members;
use crate::text::InterfaceText;
use indexmap::IndexMap;
use std::alloc::{AllocError, Global};
use wit_arena::{Table, Types, docs_of};
use wit_resolved_scopes::{Known, Natures, ResolvedScope, keyed, stability_in};
use wit_rules::PackageFault;
use wit_types::{Function, Interface, InterfaceId, TypeId, TypeOwner};

/// What is made of an interface.
#[derive(Drop)]
pub struct Made<'a> {
    /// The interface.
    pub interface: Interface,
    /// Its types by name.
    pub table: Table<'a>,
}

/// Functions under their names.
fn function_pairs(
    alloc: Global,
    functions: Vec<Function>,
) -> Result<Vec<(String, Function)>, AllocError>
    ensures { IfOk result (λ v. (spec.functions_in v.items ≡ functions.items) × spec.AreNamed v.items) }
{
    let mut pairs = Vec::with_capacity(alloc, functions.len())?;
    for function in functions {
        let name = String::from_str(alloc, function.name.as_str())?;
        pairs.push((name, function))?;
    }
    Ok(pairs)
}

/// The types of a scope by name, in the same order.
pub fn named_types(alloc: Global, table: &Table<'_>) -> Result<IndexMap<String, TypeId>, AllocError>
    requires { AreApartBy (λ e. e.0) table.now }
    ensures { IfOk result (λ m. spec.named_types m.entries ≡ table.now) }
{
    let mut types = IndexMap::with_capacity(alloc, table.len())?;
    for place in 0..table.len() {
        let (name, id) = table.entry(place);
        types.insert(String::from_str(alloc, name)?, id)?;
    }
    Ok(types)
}

/// Functions by name, in the same order.
fn named_functions(
    alloc: Global,
    functions: Vec<Function>,
) -> Result<IndexMap<String, Function>, AllocError>
    requires { AreApartBy (λ f. string_bytes f.name) functions.items }
    ensures { IfOk result (λ m. (spec.functions_in m.entries ≡ functions.items) × spec.AreNamed m.entries) }
{
    let pairs = function_pairs(alloc, functions)?;
    keyed(alloc, pairs)
}

/// A name that is there, or none.
fn optional_name(alloc: Global, name: Option<&str>) -> Result<Option<String>, AllocError>
    ensures { IfOk result (λ n. option_map string_bytes n ≡ option_map (λ x. x.now) name.entry) }
{
    match name {
        Some(name) => Ok(Some(String::from_str(alloc, name)?)),
        None => Ok(None),
    }
}

/// An interface with these types and functions.
fn interface_with(
    alloc: Global,
    text: &InterfaceText<'_, '_>,
    types: IndexMap<String, TypeId>,
    functions: IndexMap<String, Function>,
) -> Result<Interface, AllocError>
    requires gates { AreGates (map view.attribute text.now.front.now.attributes.items) }
    requires named { spec.AreNamed functions.entries }
    ensures { (o : Place) → IfOk result (spec.IsInterfaceOf (seen.text o text.now) (spec.named_types types.entries) (spec.functions_in functions.entries)) }
{
    let name = optional_name(alloc, text.name)?;
    let docs = docs_of(alloc, &text.front.docs)?;
    let stability = stability_in(alloc, text.front)?;
    Ok(Interface {
        name,
        types,
        functions,
        docs,
        stability,
        package: None,
        span: text.span,
    })
}

/// An interface with the types and functions of its scope.
fn interface_from(
    alloc: Global,
    text: &InterfaceText<'_, '_>,
    table: &Table<'_>,
    functions: Vec<Function>,
) -> Result<Interface, AllocError>
    requires gates { AreGates (map view.attribute text.now.front.now.attributes.items) }
    requires types { AreApartBy (λ e. e.0) table.now }
    requires functions { AreApartBy (λ f. string_bytes f.name) functions.items }
    ensures { (o : Place) → IfOk result (spec.IsInterfaceOf (seen.text o text.now) table.now functions.items) }
{
    let types = named_types(alloc, table)?;
    let functions = named_functions(alloc, functions)?;
    interface_with(alloc, text, types, functions)
}

/// The interface with the types and functions of its scope, and its types by name.
fn made_of<'a>(
    alloc: Global,
    text: &InterfaceText<'_, 'a>,
    scope: ResolvedScope<'a>,
) -> Result<Made<'a>, PackageFault>
    requires gates { AreGates (map view.attribute text.now.front.now.attributes.items) }
    requires types { AreApartBy (λ e. e.0) scope.table }
    requires functions { AreApartBy (λ f. string_bytes f.name) scope.functions.items }
    ensures made { (o : Place) → IfOk result (λ m. spec.IsInterfaceOf (seen.text o text.now) scope.entry.table scope.entry.functions.items m.interface) }
    ensures table { IfOk result (λ m. m.table ≡ scope.entry.table) }
    ensures memory { IfErr result (λ fault. fault ≡ OutOfMemory) }
{
    let ResolvedScope { table, functions } = scope;
    let interface = interface_from(alloc, text, &table, functions)?;
    Ok(Made { interface, table })
}

/// Brings the scope of an interface into the arena, and makes the interface of that id with its types and functions. It is
/// refused where its scope is: P6 to P9; then nothing is said of the arena, which is to be dropped.
pub fn make_interface<'a>(
    types: &mut Types,
    natures: &mut Natures,
    known: &Known<'a>,
    id: InterfaceId,
    text: &InterfaceText<'_, 'a>,
) -> Result<Made<'a>, PackageFault>
    requires ready { (o : Place) → adding.IsReadyIn known.now (seen.text o text.now) }
    requires natures { natures.old ≡ natures_of types.old }
    ensures makes { (o : Place) → IfOk result (λ m. adding.MakesInterface known.now types.old (seen.text o text.now) id types.new m.table m.interface) }
    ensures natures { OnOk result (natures.new ≡ natures_of types.new) }
    ensures kept { (c : Context) (o : Place) → adding.MayBring c o (belongs.Interface id) known.now types.old (scope_view.members text.now.members.now) → OnOk result (IsKept (adding.MembersBreak c o (scope_view.members text.now.members.now))) }
    ensures cause { (c : Context) (o : Place) → adding.MayBring c o (belongs.Interface id) known.now types.old (scope_view.members text.now.members.now) → IfErr result (IsFaultOf (adding.MembersBreak c o (scope_view.members text.now.members.now))) }
{
    match bring_members(
        types,
        natures,
        known,
        TypeOwner::Interface(id),
        text.members,
    ) {
        Ok(scope) => made_of(types.allocator(), text, scope),
        Err(fault) => Err(fault),
    }
}
