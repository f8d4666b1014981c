//! Where a world has what core modules import.

ghost use Rattle.std.specs.Prelude.{◌≡◌, ◌++◌, [], ◌∷◌, Some, map, flat_map, slice_get, IsSome, IfOk, OnOk};
ghost use Rattle.wit_types.specs.declared.world.World.{World};
ghost use Rattle.wit_types.specs.declared.world_key.WorldKey.{WorldKey};
ghost use Rattle.wit_core_names.specs.Items.{import_of};
ghost use Rattle.wit_core_names.specs.Texts.{known};
ghost use Rattle.wit_core_items.specs.ImportPlaces as spec;
ghost use Rattle.wit_core_items.specs.Places.{AreAt, Adds, counted};
ghost use Rattle.wit_core_items.specs.World.{of_import, of_exported, core_imports};

use crate::known::interface_at;
use crate::resources::{is_resource, resources};
use crate::sides::{entry_at, interface_function, own_function};
use std::alloc::{AllocError, Global};
use wit_core_names::{ResourceIntrinsic, Tables, WasmImport};
use wit_types::{TypeId, World, WorldItem};

/// Where a world has something that core modules import.
#[derive(Clone, Copy)]
pub enum ImportPlace {
    /// A function of the world itself, by its place among the imports.
    OwnFunction(usize),
    /// A function of an imported interface.
    InterfaceFunction {
        /// The place of that among the imports.
        entry: usize,
        /// The function's place in it.
        function: usize,
    },
    /// A handle of a resource of the world itself is dropped.
    OwnDrop(TypeId),
    /// A handle of a resource of an imported interface is dropped.
    InterfaceDrop {
        /// The place of that among the imports.
        entry: usize,
        /// The resource.
        resource: TypeId,
    },
    /// Something is done with a resource of an exported interface.
    ExportedIntrinsic {
        /// The place of that among the exports.
        entry: usize,
        /// The resource.
        resource: TypeId,
        /// What is done.
        intrinsic: ResourceIntrinsic,
    },
}

/// Puts in the functions of an imported interface.
fn push_functions(
    places: &mut Vec<ImportPlace>,
    entry: usize,
    count: usize,
) -> Result<(), AllocError>
    ensures { OnOk result (places.new.items ≡ places.old.items ++ counted (λ j. ImportPlace.InterfaceFunction entry j ∷ []) count) }
{
    for function in 0..count {
        places.push(ImportPlace::InterfaceFunction { entry, function })?;
    }
    Ok(())
}

/// Puts in the drops of resources of an imported interface.
fn push_drops(
    places: &mut Vec<ImportPlace>,
    entry: usize,
    resources: &[TypeId],
) -> Result<(), AllocError>
    ensures { OnOk result (places.new.items ≡ places.old.items ++ map (λ r. ImportPlace.InterfaceDrop entry r) resources.now) }
{
    for resource in resources {
        places.push(ImportPlace::InterfaceDrop {
            entry,
            resource: *resource,
        })?;
    }
    Ok(())
}

/// Puts in something done with a resource of an exported interface.
fn push_intrinsic(
    places: &mut Vec<ImportPlace>,
    entry: usize,
    resource: TypeId,
    intrinsic: ResourceIntrinsic,
) -> Result<(), AllocError>
    ensures { OnOk result (places.new.items ≡ places.old.items ++ ImportPlace.ExportedIntrinsic entry resource intrinsic ∷ []) }
{
    places.push(ImportPlace::ExportedIntrinsic {
        entry,
        resource,
        intrinsic,
    })?;
    Ok(())
}

/// Puts in what is done with resources of an exported interface.
fn push_exported(
    places: &mut Vec<ImportPlace>,
    entry: usize,
    resources: &[TypeId],
) -> Result<(), AllocError>
    ensures { OnOk result (places.new.items ≡ places.old.items ++ flat_map (spec.exported_places entry) resources.now) }
{
    for resource in resources {
        push_intrinsic(places, entry, *resource, ResourceIntrinsic::ExportedNew)?;
        push_intrinsic(places, entry, *resource, ResourceIntrinsic::ExportedRep)?;
        push_intrinsic(places, entry, *resource, ResourceIntrinsic::ExportedDrop)?;
    }
    Ok(())
}

/// Puts in what modules may import of something that a world imports.
fn push_import(
    alloc: Global,
    places: &mut Vec<ImportPlace>,
    tables: &Tables<'_>,
    entry: usize,
    item: &WorldItem,
) -> Result<(), AllocError>
    ensures { OnOk result ((w : World) (key : WorldKey) → slice_get w.imports.entries entry ≡ Some (key, item.now) → Adds (spec.import_at (known tables.now) w) places.old.items places.new.items (of_import (known tables.now) key item.now)) }
{
    match item {
        WorldItem::Interface { id, .. } => {
            let Some(interface) = interface_at(tables.interfaces, *id) else {
                return Ok(());
            };
            let found = resources(alloc, tables, &interface.types)?;
            push_functions(places, entry, interface.functions.len())?;
            push_drops(places, entry, found.as_slice())?;
        }
        WorldItem::Function(_) => places.push(ImportPlace::OwnFunction(entry))?,
        WorldItem::TypeItem { id, .. } => {
            if is_resource(tables.types, *id) {
                places.push(ImportPlace::OwnDrop(*id))?;
            }
        }
    }
    Ok(())
}

/// Puts in what modules may import of something that a world exports.
fn push_export(
    alloc: Global,
    places: &mut Vec<ImportPlace>,
    tables: &Tables<'_>,
    entry: usize,
    item: &WorldItem,
) -> Result<(), AllocError>
    ensures { OnOk result ((w : World) (key : WorldKey) → slice_get w.exports.entries entry ≡ Some (key, item.now) → Adds (spec.import_at (known tables.now) w) places.old.items places.new.items (of_exported (known tables.now) key item.now)) }
{
    if let WorldItem::Interface { id, .. } = item {
        let Some(interface) = interface_at(tables.interfaces, *id) else {
            return Ok(());
        };
        let found = resources(alloc, tables, &interface.types)?;
        push_exported(places, entry, found.as_slice())?;
    }
    Ok(())
}

/// Puts in what modules may import of all that a world imports.
fn push_imports(
    alloc: Global,
    places: &mut Vec<ImportPlace>,
    tables: &Tables<'_>,
    world: &World,
) -> Result<(), AllocError>
    ensures { OnOk result (Adds (spec.import_at (known tables.now) world.now) places.old.items places.new.items (spec.imported (known tables.now) world.now.imports.entries)) }
{
    for entry in 0..world.imports.len() {
        let (_, item) = entry_at(&world.imports, entry);
        push_import(alloc, places, tables, entry, item)?;
    }
    Ok(())
}

/// Puts in what modules may import of all that a world exports.
fn push_exports(
    alloc: Global,
    places: &mut Vec<ImportPlace>,
    tables: &Tables<'_>,
    world: &World,
) -> Result<(), AllocError>
    ensures { OnOk result (Adds (spec.import_at (known tables.now) world.now) places.old.items places.new.items (spec.exported (known tables.now) world.now.exports.entries)) }
{
    for entry in 0..world.exports.len() {
        let (_, item) = entry_at(&world.exports, entry);
        push_export(alloc, places, tables, entry, item)?;
    }
    Ok(())
}

/// Where a world has what core modules import, in order.
pub fn import_places(
    alloc: Global,
    tables: &Tables<'_>,
    world: &World,
) -> Result<Vec<ImportPlace>, AllocError>
    ensures { IfOk result (λ places. AreAt (spec.import_at (known tables.now) world.now) places.items (core_imports (known tables.now) world.now)) }
{
    let mut places = Vec::new(alloc);
    push_imports(alloc, &mut places, tables, world)?;
    push_exports(alloc, &mut places, tables, world)?;
    Ok(places)
}

/// What a world has at a place.
pub fn import_at<'a>(tables: &Tables<'a>, world: &'a World, place: ImportPlace) -> WasmImport<'a>
    requires { IsSome (spec.import_at (known tables.now) world.now place) }
    ensures { spec.import_at (known tables.now) world.entry.now place ≡ Some (import_of result) }
{
    match place {
        ImportPlace::OwnFunction(entry) => {
            let (_, item) = entry_at(&world.imports, entry);
            WasmImport::Func {
                interface: None,
                func: own_function(item),
            }
        }
        ImportPlace::InterfaceFunction { entry, function } => {
            let (key, item) = entry_at(&world.imports, entry);
            WasmImport::Func {
                interface: Some(key),
                func: interface_function(tables, item, function),
            }
        }
        ImportPlace::OwnDrop(resource) => WasmImport::ResourceIntrinsic {
            interface: None,
            resource,
            intrinsic: ResourceIntrinsic::ImportedDrop,
        },
        ImportPlace::InterfaceDrop { entry, resource } => WasmImport::ResourceIntrinsic {
            interface: Some(entry_at(&world.imports, entry).0),
            resource,
            intrinsic: ResourceIntrinsic::ImportedDrop,
        },
        ImportPlace::ExportedIntrinsic {
            entry,
            resource,
            intrinsic,
        } => WasmImport::ResourceIntrinsic {
            interface: Some(entry_at(&world.exports, entry).0),
            resource,
            intrinsic,
        },
    }
}
