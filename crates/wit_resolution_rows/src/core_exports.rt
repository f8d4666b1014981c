//! What core modules may export for a world, in order.

ghost use Rattle.wit_core_names.specs.Exports.{IsExportNamed};
ghost use Rattle.wit_core_names.specs.Items.{export_of};
ghost use Rattle.wit_resolution.specs.Names.{known_of};

use crate::core_names::{NO_NAMES, is_resource, meaning};
use crate::named::is_export_named;
use wit_pages::{Page, under};
use wit_resolution::{CoreExports, Resolve, WasmExport, WasmExportKind};
use wit_types::{Function, InterfaceId, Mangling, TypeId, World, WorldItem, WorldKey};

/// Where things are, and what is read by their names.
#[derive(Clone, Copy)]
struct Exports<'r> {
    resolve: &'r Resolve,
    names: &'r CoreExports,
}

/// The name of a thing in a spelling, and what is read by it.
fn name(
    page: &mut Page,
    of: &Exports<'_>,
    mangling: Mangling,
    export: &WasmExport<'_>,
    place: usize,
)
    requires { IsExportNamed (known_of of.now.resolve.now.graph.tables) (export_of «export».now) }
{
    match &of.resolve.wasm_export_name(mangling, export) {
        Ok(name) => {
            page.words(name);
            meaning(page, of.names.read(name), place);
        }
        Err(_) => page.refuse(),
    }
}

/// Both names of a thing.
fn both(page: &mut Page, of: &Exports<'_>, export: &WasmExport<'_>, place: usize) {
    if !is_export_named(of.resolve, export) {
        return page.words(NO_NAMES);
    }
    name(page, of, Mangling::Legacy, export, place);
    page.words(", ");
    name(page, of, Mangling::Standard32, export, place);
}

/// A line for the thing at a place, and the next place.
fn line(page: &mut Page, of: &Exports<'_>, export: &WasmExport<'_>, place: usize) -> usize {
    page.begin("export ");
    both(page, of, export, place);
    page.end();
    place.saturating_add(1)
}

/// A function, and the one that is called when its results are read.
fn function(
    page: &mut Page,
    of: &Exports<'_>,
    interface: Option<&WorldKey>,
    func: &Function,
    place: usize,
) -> usize {
    let export = WasmExport::Func {
        interface,
        func,
        kind: WasmExportKind::Normal,
    };
    let place = line(page, of, &export, place);
    let export = WasmExport::Func {
        interface,
        func,
        kind: WasmExportKind::PostReturn,
    };
    line(page, of, &export, place)
}

/// The destructor of a type, if it is a resource.
fn destructor(
    page: &mut Page,
    of: &Exports<'_>,
    interface: &WorldKey,
    resource: TypeId,
    place: usize,
) -> usize {
    if !is_resource(of.resolve, resource) {
        return place;
    }
    // The borrow check is to know the types of what an export lends.
    let _lends: Option<(&WorldKey, &Function)> = None;
    let export = WasmExport::ResourceDtor {
        interface,
        resource,
    };
    line(page, of, &export, place)
}

/// The functions of an interface, and the destructors of its resources.
fn exported_interface(
    page: &mut Page,
    of: &Exports<'_>,
    key: &WorldKey,
    id: InterfaceId,
    place: usize,
) -> usize {
    let Some(interface) = under(of.resolve.interfaces(), id) else {
        return place;
    };
    let mut place = place;
    for func in interface.functions.values() {
        place = function(page, of, Some(key), func, place);
    }
    for resource in interface.types.values() {
        place = destructor(page, of, key, *resource, place);
    }
    place
}

/// What modules may export of something that the world exports.
fn exported(
    page: &mut Page,
    of: &Exports<'_>,
    key: &WorldKey,
    item: &WorldItem,
    place: usize,
) -> usize {
    match item {
        WorldItem::Interface { id, .. } => exported_interface(page, of, key, *id, place),
        WorldItem::Function(func) => function(page, of, None, func, place),
        WorldItem::TypeItem { .. } => place,
    }
}

/// What a module has once.
fn once(page: &mut Page, of: &Exports<'_>, place: usize) -> usize {
    // The borrow check is to know the types of what an export lends.
    let _lends: Option<(&WorldKey, &Function)> = None;
    let place = line(page, of, &WasmExport::Memory, place);
    let place = line(page, of, &WasmExport::Initialize, place);
    line(page, of, &WasmExport::Realloc, place)
}

/// All that modules may export: what a module has once, and then what the world exports.
pub fn all(page: &mut Page, resolve: &Resolve, names: &CoreExports, world: &World) {
    let of = &Exports { resolve, names };
    let mut place = once(page, of, 0);
    for (key, item) in world.exports.iter() {
        place = exported(page, of, key, item, place);
    }
}
