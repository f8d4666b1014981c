//! All interfaces that are needed.

ghost use Rattle.std.specs.Prelude.{◌≡◌, ◌<◌, ◌++◌, ℕ, List, length, map, flat_map, None, IfOk, IfErr, OnOk, true, if◌then◌else◌};
ghost use Rattle.std.specs.List.{AllByRecursion as Each};
ghost use Rattle.wit_order.specs.Order.{Has};
ghost use Rattle.wit_types.specs.declared.interface.TypeOwner.TheVariants as belongs;
ghost use Rattle.wit_reach.specs.Paths.{AreEnds};
ghost use Rattle.wit_reach.specs.Ids.{function_ids};
ghost use Rattle.wit_reach.specs.Types.{AreTypesBackward, AreTypesThere};
ghost use Rattle.wit_reach.specs.Made.{IsMadeOfWithin};
ghost use Rattle.wit_reach.specs.Lists.{AreOwnersThere};
ghost use Rattle.type_sinks.specs.Inside.{TakenAreApart};
ghost use Rattle.type_sinks.specs.Kept.{index_of};
ghost use Rattle.type_sinks.specs.Views.{root_scope, RootIsGood, RootIsPlaced};
ghost use Rattle.component_imports.specs.Functions.{functions_of, HaveParametersApart};
ghost use Rattle.type_sinks.specs.Passed.type_writing-Placing.{AreLabelsApart};
ghost use Rattle.type_sinks.specs.Passed.type_writing-Refusals.{IsCause};
ghost use Rattle.component_imports.specs.Interfaces as spec;
ghost use Rattle.component_imports.specs.Ready.{AreWritable};

use crate::interface::import_interface;
use std::alloc::{AllocError, Global};
use type_sinks::{Fault, Root};
use wit_reach::{NeededTypes, add_function, made_of_within};
use wit_types::{Arena, Function, InterfaceId, TypeDef, TypeId, TypeOwner};

/// Adds the types that functions take and give.
pub fn add_functions(ids: &mut Vec<TypeId>, functions: &[&Function]) -> Result<(), AllocError>
    ensures { OnOk result (ids.new.items ≡ ids.old.items ++ spec.ids_of (functions_of functions.now)) }
{
    for function in functions {
        add_function(ids, function)?;
    }
    Ok(())
}

/// What is asked for: these types, and those of functions, interface by interface.
fn asked(
    alloc: Global,
    others: &[TypeId],
    linked: &[Vec<&Function>],
) -> Result<Vec<TypeId>, AllocError>
    ensures { IfOk result (λ ids. ids.items ≡ spec.asked others.now (spec.linked_of linked.now)) }
{
    let mut ids = Vec::new(alloc);
    ids.extend_from_slice(others)?;
    for functions in linked {
        add_functions(&mut ids, functions.as_slice())?;
    }
    Ok(ids)
}

/// What is written of types for an interface, of which these are needed and these functions: each behind those that it is made of, by
/// rising ids.
fn written_for(
    alloc: Global,
    types: &Arena<TypeDef>,
    interface: InterfaceId,
    needed: &[TypeId],
    functions: &[&Function],
) -> Result<Vec<TypeId>, AllocError>
    requires backward { AreTypesBackward types.now }
    requires there { AreTypesThere types.now needed.now }
    requires functions_there { AreTypesThere types.now (spec.ids_of (functions_of functions.now)) }
    ensures { IfOk result (λ order. AreEnds (IsMadeOfWithin (belongs.Interface interface) types.now) (Has (needed.now ++ spec.ids_of (functions_of functions.now))) order.items) }
{
    let mut starts = Vec::new(alloc);
    starts.extend_from_slice(needed)?;
    add_functions(&mut starts, functions)?;
    made_of_within(
        alloc,
        types,
        TypeOwner::Interface(interface),
        starts.as_slice(),
    )
}

/// Whether one of these is needed.
fn is_needed(needed: &[TypeId], functions: &[&Function]) -> bool
    ensures { result ≡ spec.is_needed needed.now (functions_of functions.now) }
{
    !needed.is_empty() || !functions.is_empty()
}

/// Imports an interface, if a type or a function of it is needed.
fn import_needed<'s>(
    alloc: Global,
    root: Root<'s>,
    types: &'s Arena<TypeDef>,
    interface: InterfaceId,
    needed: &[TypeId],
    functions: &[&'s Function],
) -> Result<Root<'s>, Fault>
    requires backward { AreTypesBackward types.now }
    requires there { AreTypesThere types.now needed.now }
    requires functions_there { AreTypesThere types.now (spec.ids_of (functions_of functions.now)) }
    requires good { RootIsGood root types.now }
    requires apart { TakenAreApart (index_of root.homes) interface types.now }
    ensures ok { IfOk result (λ r. spec.IsImportedIfNeeded root.entry r types.entry.now interface needed.now (functions_of functions.now)) }
    ensures placed { IfOk result (λ r. AreLabelsApart types.entry.now → HaveParametersApart (functions_of functions.now) → RootIsPlaced root.entry → RootIsPlaced r) }
    ensures cause { IfErr result (IsCause ((spec.is_needed needed.now (functions_of functions.now) ≡ true) × spec.IsUnreadyWith root.entry types.entry.now interface needed.now (functions_of functions.now)) (Unit {0})) }
{
    if !is_needed(needed, functions) {
        return Ok(root);
    }
    let ids = written_for(alloc, types, interface, needed, functions)?;
    import_interface(alloc, root, types, interface, ids.as_slice(), functions)
}

/// The index of the instance that is imported next, if one is needed.
fn next_instance(root: &Root<'_>, needed: &[TypeId], functions: &[&Function]) -> Option<u32>
    ensures { result ≡ (if spec.is_needed needed.now (functions_of functions.now) then Some (length (root_scope root.now).instances) else None) }
{
    if is_needed(needed, functions) {
        Some(root.instance_count())
    } else {
        None
    }
}

/// A root that imports interfaces.
#[derive(Drop)]
pub struct ImportedInterfaces<'s> {
    /// The root.
    pub root: Root<'s>,
    /// The index of the instance of each interface, by the interface's id; none where it isn't imported.
    pub instances: Vec<Option<u32>>,
}

/// Imports all interfaces that are needed, in rising order: those of which functions are linked, by their ids, and those that have a type
/// of which one of these functions or one of these types is made over any number of steps. Each exports exactly its needed types and its
/// linked functions. An interface stands behind those whose types it uses, since types are made of earlier ones; no interface is imported
/// before (WIT, Item: `interface`; Component Model, Explainer, Import and Export Definitions). Answers `NotYet` only where what is asked
/// for isn't all written, as a resource, a handle, a future, a stream or an error context, or two names are one; `TooLarge` where 32 bits
/// can't say an index; and `OutOfMemory` where memory is wanting.
pub fn import_interfaces<'s>(
    alloc: Global,
    root: Root<'s>,
    types: &'s Arena<TypeDef>,
    others: &[TypeId],
    linked: &[Vec<&'s Function>],
) -> Result<ImportedInterfaces<'s>, Fault>
    requires backward { AreTypesBackward types.now }
    requires there { AreTypesThere types.now (spec.asked others.now (spec.linked_of linked.now)) }
    requires owners { AreOwnersThere (length linked.now) types.now }
    requires good { RootIsGood root types.now }
    requires none { (id : ℕ) → index_of root.homes id ≡ None }
    requires apart { spec.EarlierAreApart types.now }
    ensures ok { IfOk result (λ r. spec.AreNeededImported root.entry r.root types.entry.now r.instances.items others.now (spec.linked_of linked.now)) }
    ensures placed { IfOk result (λ r. AreLabelsApart types.entry.now → Each HaveParametersApart (spec.linked_of linked.now) → RootIsPlaced root.entry → RootIsPlaced r.root) }
    ensures written { AreWritable root.entry types.entry.now others.now (spec.linked_of linked.now) → IfErr result (IsCause ⊥ (Unit {0})) }
{
    let ids = asked(alloc, others, linked)?;
    let found = NeededTypes::new(alloc, types, linked.len(), ids.as_slice())?;
    let needed = &found;
    let mut root = root;
    let mut instances = Vec::new(alloc);
    for index in 0..linked.len() {
        let interface = InterfaceId::from_index(index);
        let of_interface = needed.of_interface(interface);
        let functions = linked[index].as_slice();
        let instance = next_instance(&root, of_interface, functions);
        root = import_needed(alloc, root, types, interface, of_interface, functions)?;
        instances.push(instance)?;
    }
    Ok(ImportedInterfaces { root, instances })
}
