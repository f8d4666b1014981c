//! One interface that is imported.

ghost use Rattle.std.specs.Prelude.{◌≡◌, ◌<◌, ◌++◌, [], length, IfOk, IfErr, OnOk};
ghost use Rattle.std.specs.List.{All, AllByRecursion as Each};
ghost use Rattle.type_sinks.specs.Passed.type_writing-Placing.{AreLabelsApart};
ghost use Rattle.type_sinks.specs.Passed.type_writing-Refusals.{IsCause};
ghost use Rattle.type_sinks.specs.Passed.type_writing-Writing.{Begins, HasItsName, names_of_types, IsRemembered};
ghost use Rattle.type_sinks.specs.Inside.{TakenAreApart};
ghost use Rattle.type_sinks.specs.Kept.{index_of};
ghost use Rattle.type_sinks.specs.Views.{root_scope, RootIsGood, RootIsPlaced, inside_names, inside_setting, setting_over, InsideIsGood, InsideIsPlaced, IsFullInside, IsGiven};
ghost use Rattle.component_imports.specs.Functions.{functions_of, function_names, HasFunctionOf, HaveParametersApart};
ghost use Rattle.component_imports.specs.Interface.{AreItemsUnready, IsFilled, IsInterfaceImported, IsInterfaceCause, IsImportedBesideOthers, IsUnreadyBeside};

use crate::functions::export_functions;
use std::alloc::Global;
use type_sinks::{Fault, InterfaceTypes, Root, write_types};
use wit_types::{Arena, Function, InterfaceId, TypeDef, TypeId};

/// Writes types and exports functions over them.
fn write_items<'s>(
    alloc: Global,
    instance: &mut InterfaceTypes<'s>,
    types: &'s Arena<TypeDef>,
    ids: &[TypeId],
    functions: &[&'s Function],
) -> Result<(), Fault>
    requires there { All (λ id. id < length types.now) ids.now }
    requires good { InsideIsGood instance.old types.now }
    ensures setting { inside_setting instance.new ≡ inside_setting instance.old }
    ensures outside { Begins (root_scope instance.old.root).types (root_scope instance.new.root).types }
    ensures good { InsideIsGood instance.new types.entry.now }
    ensures placed { AreLabelsApart types.entry.now → HaveParametersApart (functions_of functions.now) → InsideIsPlaced instance.old → InsideIsPlaced instance.new }
    ensures names { OnOk result (inside_names instance.new ≡ inside_names instance.old ++ (names_of_types (inside_setting instance.old) types.entry.now ids.now ++ function_names (functions_of functions.now))) }
    ensures named { OnOk result (Each (HasItsName (inside_setting instance.old) types.entry.now (IsGiven instance.new)) ids.now) }
    ensures has { OnOk result (Each (HasFunctionOf instance.new types.entry.now) (functions_of functions.now)) }
    ensures cause { IfErr result (IsCause (AreItemsUnready (inside_setting instance.old) (IsRemembered (index_of instance.old.known)) (inside_names instance.old) types.entry.now ids.now (functions_of functions.now)) (IsFullInside instance.new)) }
{
    write_types(alloc, instance, types, ids)?;
    export_functions(alloc, instance, functions)
}

/// The type of an instance of an interface that exports those of these types that are the interface's, each under its name, and these
/// functions, over a root.
fn written_instance<'s>(
    alloc: Global,
    root: Root<'s>,
    types: &'s Arena<TypeDef>,
    interface: InterfaceId,
    ids: &[TypeId],
    functions: &[&'s Function],
) -> Result<InterfaceTypes<'s>, Fault>
    requires there { All (λ id. id < length types.now) ids.now }
    requires good { RootIsGood root types.now }
    requires apart { TakenAreApart (index_of root.homes) interface types.now }
    ensures ok { IfOk result (λ t. IsFilled root.entry t types.entry.now interface ids.now (functions_of functions.now)) }
    ensures placed { IfOk result (λ t. AreLabelsApart types.entry.now → HaveParametersApart (functions_of functions.now) → RootIsPlaced root.entry → InsideIsPlaced t) }
    ensures cause { IfErr result (IsCause (AreItemsUnready (setting_over root.entry interface) (λ _. ⊥) [] types.entry.now ids.now (functions_of functions.now)) (Unit {0})) }
{
    let mut instance = InterfaceTypes::new(alloc, root, interface);
    write_items(alloc, &mut instance, types, ids, functions)?;
    Ok(instance)
}

/// Imports an instance of an interface that exports those of these types that are the interface's, each under its name, and these functions,
/// and nothing else (WIT, Item: `interface`; Component Model, Explainer, Import and Export Definitions). The types are written in order, each
/// behind those that it is made of; those of other interfaces are taken from their instances. Answers `NotYet` where one of the types that
/// something is made of isn't among them, or is never written as a resource, a handle, a future, a stream or an error context, where no
/// instance has a type of another interface, where two items have one name, and where the interface has no name or something is imported
/// under it; `TooLarge` where 32 bits can't say an index; and `OutOfMemory` where memory is wanting.
pub fn import_interface<'s>(
    alloc: Global,
    root: Root<'s>,
    types: &'s Arena<TypeDef>,
    interface: InterfaceId,
    ids: &[TypeId],
    functions: &[&'s Function],
) -> Result<Root<'s>, Fault>
    requires there { All (λ id. id < length types.now) ids.now }
    requires good { RootIsGood root types.now }
    requires apart { TakenAreApart (index_of root.homes) interface types.now }
    ensures ok { IfOk result (λ r. IsInterfaceImported root.entry r types.entry.now interface ids.now (functions_of functions.now)) }
    ensures placed { IfOk result (λ r. AreLabelsApart types.entry.now → HaveParametersApart (functions_of functions.now) → RootIsPlaced root.entry → RootIsPlaced r) }
    ensures cause { IfErr result (IsInterfaceCause root.entry types.entry.now interface ids.now (functions_of functions.now)) }
{
    let instance = written_instance(alloc, root, types, interface, ids, functions)?;
    instance.import()
}

/// Imports an instance of an interface under another name than the one that `root` has for it, as `import_interface` does; no type may be
/// taken from it: a world may import one interface under further names (WIT, Item: `include`; Component Model, Explainer, Import and Export
/// Definitions). Answers `NotYet` where one of the types that something is made of isn't among these, or is never written, where no instance
/// has a type of another interface, where two items have one name, and where something is imported under that name; `TooLarge` where 32
/// bits can't say an index; and `OutOfMemory` where memory is wanting.
pub fn import_interface_as<'s>(
    alloc: Global,
    root: Root<'s>,
    types: &'s Arena<TypeDef>,
    interface: InterfaceId,
    name: &'s str,
    ids: &[TypeId],
    functions: &[&'s Function],
) -> Result<Root<'s>, Fault>
    requires there { All (λ id. id < length types.now) ids.now }
    requires good { RootIsGood root types.now }
    requires apart { TakenAreApart (index_of root.homes) interface types.now }
    ensures ok { IfOk result (λ r. IsImportedBesideOthers root.entry r types.entry.now interface name.entry.now ids.now (functions_of functions.now)) }
    ensures placed { IfOk result (λ r. AreLabelsApart types.entry.now → HaveParametersApart (functions_of functions.now) → RootIsPlaced root.entry → RootIsPlaced r) }
    ensures cause { IfErr result (IsCause (IsUnreadyBeside root.entry types.entry.now interface name.entry.now ids.now (functions_of functions.now)) (Unit {0})) }
{
    let instance = written_instance(alloc, root, types, interface, ids, functions)?;
    instance.import_as(name)
}
