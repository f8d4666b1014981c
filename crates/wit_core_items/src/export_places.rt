//! Where a world has what core modules export.

ghost use Rattle.std.specs.Prelude.{◌≡◌, ◌++◌, [], ◌∷◌, Some, map, slice_get, IsSome, IfOk, OnOk};
ghost use Rattle.wit_types.specs.declared.world.World.{World};
ghost use Rattle.wit_types.specs.declared.world_key.WorldKey.{WorldKey};
ghost use Rattle.wit_core_names.specs.Items.{export_of};
ghost use Rattle.wit_core_names.specs.Texts.{known};
ghost use Rattle.wit_core_items.specs.ExportPlaces as spec;
ghost use Rattle.wit_core_items.specs.Places.{AreAt, Adds, counted};
ghost use Rattle.wit_core_items.specs.World.{of_export, core_exports};

use crate::known::interface_at;
use crate::resources::resources;
use crate::sides::{entry_at, interface_function, own_function};
use std::alloc::{AllocError, Global};
use wit_core_names::{Tables, WasmExport, WasmExportKind};
use wit_types::{TypeId, World, WorldItem};

/// Where a world has something that core modules export.
#[derive(Clone, Copy)]
pub enum ExportPlace {
    /// The memory, which a module has once.
    Memory,
    /// The function that is called first, which a module has once.
    Initialize,
    /// The function that gives memory, which a module has once.
    Realloc,
    /// A function of the world itself.
    OwnFunction {
        /// Its place among the exports.
        entry: usize,
        /// Which of its functions.
        kind: WasmExportKind,
    },
    /// A function of an exported interface.
    InterfaceFunction {
        /// The place of that among the exports.
        entry: usize,
        /// The function's place in it.
        function: usize,
        /// Which of its functions.
        kind: WasmExportKind,
    },
    /// The destructor of a resource of an exported interface.
    Destructor {
        /// The place of that among the exports.
        entry: usize,
        /// The resource.
        resource: TypeId,
    },
}

/// Puts in what a module has once.
fn push_once(places: &mut Vec<ExportPlace>) -> Result<(), AllocError>
    ensures { OnOk result (places.new.items ≡ places.old.items ++ ExportPlace.Memory ∷ ExportPlace.Initialize ∷ ExportPlace.Realloc ∷ []) }
{
    places.push(ExportPlace::Memory)?;
    places.push(ExportPlace::Initialize)?;
    places.push(ExportPlace::Realloc)?;
    Ok(())
}

/// Puts in a function of the world itself.
fn push_own(places: &mut Vec<ExportPlace>, entry: usize) -> Result<(), AllocError>
    ensures { OnOk result (places.new.items ≡ places.old.items ++ spec.own_places entry) }
{
    places.push(ExportPlace::OwnFunction {
        entry,
        kind: WasmExportKind::Normal,
    })?;
    places.push(ExportPlace::OwnFunction {
        entry,
        kind: WasmExportKind::PostReturn,
    })?;
    Ok(())
}

/// Puts in a function of an exported interface.
fn push_function(
    places: &mut Vec<ExportPlace>,
    entry: usize,
    function: usize,
) -> Result<(), AllocError>
    ensures { OnOk result (places.new.items ≡ places.old.items ++ spec.function_places entry function) }
{
    places.push(ExportPlace::InterfaceFunction {
        entry,
        function,
        kind: WasmExportKind::Normal,
    })?;
    places.push(ExportPlace::InterfaceFunction {
        entry,
        function,
        kind: WasmExportKind::PostReturn,
    })?;
    Ok(())
}

/// Puts in the functions of an exported interface.
fn push_functions(
    places: &mut Vec<ExportPlace>,
    entry: usize,
    count: usize,
) -> Result<(), AllocError>
    ensures { OnOk result (places.new.items ≡ places.old.items ++ counted (spec.function_places entry) count) }
{
    for function in 0..count {
        push_function(places, entry, function)?;
    }
    Ok(())
}

/// Puts in the destructors of resources of an exported interface.
fn push_destructors(
    places: &mut Vec<ExportPlace>,
    entry: usize,
    resources: &[TypeId],
) -> Result<(), AllocError>
    ensures { OnOk result (places.new.items ≡ places.old.items ++ map (λ r. ExportPlace.Destructor entry r) resources.now) }
{
    for resource in resources {
        places.push(ExportPlace::Destructor {
            entry,
            resource: *resource,
        })?;
    }
    Ok(())
}

/// Puts in what modules may export of something that a world exports.
fn push_export(
    alloc: Global,
    places: &mut Vec<ExportPlace>,
    tables: &Tables<'_>,
    entry: usize,
    item: &WorldItem,
) -> Result<(), AllocError>
    ensures { OnOk result ((w : World) (key : WorldKey) → slice_get w.exports.entries entry ≡ Some (key, item.now) → Adds (spec.export_at (known tables.now) w) places.old.items places.new.items (of_export (known tables.now) key item.now)) }
{
    match item {
        WorldItem::Interface { id, .. } => {
            let Some(interface) = interface_at(tables.interfaces, *id) else {
                return Ok(());
            };
            let found = resources(alloc, tables, &interface.types)?;
            push_functions(places, entry, interface.functions.len())?;
            push_destructors(places, entry, found.as_slice())?;
        }
        WorldItem::Function(_) => push_own(places, entry)?,
        WorldItem::TypeItem { .. } => {}
    }
    Ok(())
}

/// Puts in what modules may export of all that a world exports.
fn push_exports(
    alloc: Global,
    places: &mut Vec<ExportPlace>,
    tables: &Tables<'_>,
    world: &World,
) -> Result<(), AllocError>
    ensures { OnOk result (Adds (spec.export_at (known tables.now) world.now) places.old.items places.new.items (spec.of_exports (known tables.now) world.now.exports.entries)) }
{
    for entry in 0..world.exports.len() {
        let (_, item) = entry_at(&world.exports, entry);
        push_export(alloc, places, tables, entry, item)?;
    }
    Ok(())
}

/// Where a world has what core modules export, in order.
pub fn export_places(
    alloc: Global,
    tables: &Tables<'_>,
    world: &World,
) -> Result<Vec<ExportPlace>, AllocError>
    ensures { IfOk result (λ places. AreAt (spec.export_at (known tables.now) world.now) places.items (core_exports (known tables.now) world.now)) }
{
    let mut places = Vec::new(alloc);
    push_once(&mut places)?;
    push_exports(alloc, &mut places, tables, world)?;
    Ok(places)
}

/// What a world has at a place.
pub fn export_at<'a>(tables: &Tables<'a>, world: &'a World, place: ExportPlace) -> WasmExport<'a>
    requires { IsSome (spec.export_at (known tables.now) world.now place) }
    ensures { spec.export_at (known tables.now) world.entry.now place ≡ Some (export_of result) }
{
    match place {
        ExportPlace::Memory => WasmExport::Memory,
        ExportPlace::Initialize => WasmExport::Initialize,
        ExportPlace::Realloc => WasmExport::Realloc,
        ExportPlace::OwnFunction { entry, kind } => {
            let (_, item) = entry_at(&world.exports, entry);
            WasmExport::Func {
                interface: None,
                func: own_function(item),
                kind,
            }
        }
        ExportPlace::InterfaceFunction {
            entry,
            function,
            kind,
        } => {
            let (key, item) = entry_at(&world.exports, entry);
            WasmExport::Func {
                interface: Some(key),
                func: interface_function(tables, item, function),
                kind,
            }
        }
        ExportPlace::Destructor { entry, resource } => WasmExport::ResourceDtor {
            interface: entry_at(&world.exports, entry).0,
            resource,
        },
    }
}
