//! The functions of a world that are imported.

ghost use Rattle.std.specs.Prelude.{◌≡◌, ◌++◌, List, length, IfOk, IfErr, OnOk};
ghost use Rattle.wit_types.specs.declared.interface.TypeDef.{TypeDef as Def};
ghost use Rattle.wit_reach.specs.Types.{AreTypesBackward, AreTypesThere};
ghost use Rattle.type_sinks.specs.Passed.type_writing-Placing.{AreLabelsApart};
ghost use Rattle.type_sinks.specs.Passed.type_writing-Refusals.{IsCause};
ghost use Rattle.type_sinks.specs.Passed.type_writing-Writing.{Begins, IsRemembered};
ghost use Rattle.type_sinks.specs.Kept.{index_of};
ghost use Rattle.type_sinks.specs.Views.{root_scope, root_names, interface_names, RootIsGood, RootIsPlaced};
ghost use Rattle.component_imports.specs.Functions.{functions_of, function_names, HaveParametersApart, AreFunctionsUnready};
ghost use Rattle.component_imports.specs.Interfaces.{ids_of};
ghost use Rattle.component_imports.specs.World.{AreFunctionsAt, AreWorldItemsImported, IsWorldUnready, AreTypesOf, AreTypesWritten, HasUnwrittenType};

use crate::interfaces::add_functions;
use std::alloc::Global;
use type_sinks::{Fault, Root, write_function, write_types};
use wit_reach::made_of_within;
use wit_types::{Arena, Function, TypeDef, TypeId, TypeOwner, WorldId};

/// Imports functions, in order.
fn add_imports<'s>(
    alloc: Global,
    root: &mut Root<'s>,
    functions: &[&'s Function],
) -> Result<(), Fault>
    ensures interfaces { interface_names root.new ≡ interface_names root.old }
    ensures table { index_of root.new.known ≡ index_of root.old.known }
    ensures homes { index_of root.new.homes ≡ index_of root.old.homes }
    ensures types { Begins (root_scope root.old).types (root_scope root.new).types }
    ensures functions { Begins (root_scope root.old).functions (root_scope root.new).functions }
    ensures instances { (root_scope root.new).instances ≡ (root_scope root.old).instances }
    ensures good { (types : List Def) → RootIsGood root.old types → RootIsGood root.new types }
    ensures placed { (types : List Def) → RootIsGood root.old types → HaveParametersApart (functions_of functions.now) → RootIsPlaced root.old → RootIsPlaced root.new }
    ensures names { OnOk result (root_names root.new ≡ root_names root.old ++ function_names (functions_of functions.now)) }
    ensures are { OnOk result ((types : List Def) → RootIsGood root.old types → AreFunctionsAt root.new (length (root_scope root.old).functions) types (functions_of functions.now)) }
    ensures cause { IfErr result (IsCause (AreFunctionsUnready (IsRemembered (index_of root.old.known)) (root_names root.old) (functions_of functions.now)) (Unit {0})) }
{
    for function in functions {
        root.import_function(
            alloc,
            function.name.as_str(),
            &function.params,
            &function.result,
        )?;
    }
    Ok(())
}

/// Imports functions of a world, in order, behind those of its types that they and the other types are made of: these as imports that equal
/// them, those of interfaces from the instances that have them (WIT, Item: `world`; Component Model, Explainer, Import and Export Definitions). Answers
/// `NotYet` where one is made of what is never written, as a resource, a handle, a future, a stream or an error context, where no instance
/// has a type of an interface, and where something is imported under one of the names; `TooLarge` where 32 bits can't say an index; and
/// `OutOfMemory` where memory is wanting.
pub fn import_functions<'s>(
    alloc: Global,
    root: Root<'s>,
    types: &'s Arena<TypeDef>,
    world: WorldId,
    others: &[TypeId],
    functions: &[&'s Function],
) -> Result<Root<'s>, Fault>
    requires backward { AreTypesBackward types.now }
    requires others_there { AreTypesThere types.now others.now }
    requires there { AreTypesThere types.now (ids_of (functions_of functions.now)) }
    requires good { RootIsGood root types.now }
    ensures ok { IfOk result (λ r. AreWorldItemsImported root.entry r types.entry.now world others.now (functions_of functions.now)) }
    ensures placed { IfOk result (λ r. AreLabelsApart types.entry.now → HaveParametersApart (functions_of functions.now) → RootIsPlaced root.entry → RootIsPlaced r) }
    ensures cause { IfErr result (IsCause (IsWorldUnready root.entry types.entry.now world others.now (functions_of functions.now)) (Unit {0})) }
{
    let mut starts = Vec::new(alloc);
    starts.extend_from_slice(others)?;
    add_functions(&mut starts, functions)?;
    let ids = made_of_within(alloc, types, TypeOwner::World(world), starts.as_slice())?;
    let mut root = root;
    write_types(alloc, &mut root, types, ids.as_slice())?;
    add_imports(alloc, &mut root, functions)?;
    Ok(root)
}

/// A root, and types of functions that are written there.
#[derive(Drop)]
pub struct WrittenFunctions<'s> {
    /// The root.
    pub root: Root<'s>,
    /// The index of the type of each function.
    pub indices: Vec<u32>,
}

/// Writes the types of functions, in order (Component Model, Explainer, Type Definitions). Answers `NotYet` where one is made of what isn't
/// written, `TooLarge` where 32 bits can't say an index, and `OutOfMemory` where memory is wanting.
pub fn write_functions<'s>(
    alloc: Global,
    root: Root<'s>,
    types: &'s Arena<TypeDef>,
    functions: &[&'s Function],
) -> Result<WrittenFunctions<'s>, Fault>
    requires { RootIsGood root types.now }
    ensures ok { IfOk result (λ w. AreTypesWritten root.entry w.root types.entry.now (functions_of functions.now) w.indices.items) }
    ensures placed { IfOk result (λ w. HaveParametersApart (functions_of functions.now) → RootIsPlaced root.entry → RootIsPlaced w.root) }
    ensures cause { IfErr result (IsCause (HasUnwrittenType (IsRemembered (index_of root.entry.known)) (functions_of functions.now)) (Unit {0})) }
{
    let mut root = root;
    let mut indices = Vec::new(alloc);
    for function in functions {
        let index = write_function(alloc, &mut root, &function.params, &function.result)?;
        indices.push(index)?;
    }
    Ok(WrittenFunctions { root, indices })
}
