//! What core modules may import of a world, in order.

ghost use Rattle.wit_core_items.specs.Named.{IsImportOnSide};
ghost use Rattle.wit_core_names.specs.Imports.{IsImportNamed, IsOnSide};
ghost use Rattle.wit_core_names.specs.Items.{import_of, key_of};
ghost use Rattle.wit_resolution.specs.Names.{known_of};

use crate::core_names::{NO_NAMES, is_resource, meaning};
use crate::named::is_import_named;
use wit_pages::{Page, under};
use wit_resolution::{CoreImports, Resolve, ResourceIntrinsic, WasmImport};
use wit_types::{Function, InterfaceId, Mangling, TypeId, World, WorldItem, WorldKey};

/// Where things are, and what is read by their names.
#[derive(Clone, Copy)]
struct Imports<'r> {
    resolve: &'r Resolve,
    names: &'r CoreImports,
}

/// The name of a thing in a spelling, and what is read by it.
fn name(
    page: &mut Page,
    of: &Imports<'_>,
    mangling: Mangling,
    import: &WasmImport<'_>,
    place: usize,
)
    requires { IsImportNamed (known_of of.now.resolve.now.graph.tables) (import_of «import».now) }
{
    match &of.resolve.wasm_import_name(mangling, import) {
        Ok((module, name)) => {
            page.words(module);
            page.words(" ");
            page.words(name);
            meaning(page, of.names.read(module, name), place);
        }
        Err(_) => page.refuse(),
    }
}

/// Both names of a thing.
fn both(page: &mut Page, of: &Imports<'_>, import: &WasmImport<'_>, place: usize)
    requires { IsImportOnSide (import_of «import».now) }
{
    if !is_import_named(of.resolve, import) {
        return page.words(NO_NAMES);
    }
    name(page, of, Mangling::Legacy, import, place);
    page.words(", ");
    name(page, of, Mangling::Standard32, import, place);
}

/// A line for the thing at a place, and the next place.
fn line(page: &mut Page, of: &Imports<'_>, import: &WasmImport<'_>, place: usize) -> usize
    requires { IsImportOnSide (import_of «import».now) }
{
    page.begin("import ");
    both(page, of, import, place);
    page.end();
    place.saturating_add(1)
}

/// A function, and the next place.
fn function(
    page: &mut Page,
    of: &Imports<'_>,
    interface: Option<&WorldKey>,
    func: &Function,
    place: usize,
) -> usize {
    line(page, of, &WasmImport::Func { interface, func }, place)
}

/// Something done with a resource, and the next place.
fn done(
    page: &mut Page,
    of: &Imports<'_>,
    interface: Option<&WorldKey>,
    resource: TypeId,
    intrinsic: ResourceIntrinsic,
    place: usize,
) -> usize
    requires { IsOnSide intrinsic (key_of interface) }
{
    // The borrow check is to know the types of what an import lends.
    let _lends: Option<(&WorldKey, &Function)> = None;
    let import = WasmImport::ResourceIntrinsic {
        interface,
        resource,
        intrinsic,
    };
    line(page, of, &import, place)
}

/// The drop of a type, if it is a resource, and the next place.
fn dropped(
    page: &mut Page,
    of: &Imports<'_>,
    interface: Option<&WorldKey>,
    resource: TypeId,
    place: usize,
) -> usize {
    if !is_resource(of.resolve, resource) {
        return place;
    }
    done(
        page,
        of,
        interface,
        resource,
        ResourceIntrinsic::ImportedDrop,
        place,
    )
}

/// The functions of an interface that is imported, and the drops of its resources.
fn imported_interface(
    page: &mut Page,
    of: &Imports<'_>,
    key: &WorldKey,
    id: InterfaceId,
    place: usize,
) -> usize {
    let Some(interface) = under(of.resolve.interfaces(), id) else {
        return place;
    };
    let mut place = place;
    for func in interface.functions.values() {
        place = function(page, of, Some(key), func, place);
    }
    for resource in interface.types.values() {
        place = dropped(page, of, Some(key), *resource, place);
    }
    place
}

/// What modules may import of something that the world imports.
fn imported(
    page: &mut Page,
    of: &Imports<'_>,
    key: &WorldKey,
    item: &WorldItem,
    place: usize,
) -> usize {
    match item {
        WorldItem::Interface { id, .. } => imported_interface(page, of, key, *id, place),
        WorldItem::Function(func) => function(page, of, None, func, place),
        WorldItem::TypeItem { id, .. } => dropped(page, of, None, *id, place),
    }
}

/// What is done with a type of an interface that is exported, if it is a resource.
fn exported_resource(
    page: &mut Page,
    of: &Imports<'_>,
    key: &WorldKey,
    resource: TypeId,
    place: usize,
) -> usize {
    if !is_resource(of.resolve, resource) {
        return place;
    }
    let made = ResourceIntrinsic::ExportedNew;
    let read = ResourceIntrinsic::ExportedRep;
    let let_go = ResourceIntrinsic::ExportedDrop;
    let place = done(page, of, Some(key), resource, made, place);
    let place = done(page, of, Some(key), resource, read, place);
    done(page, of, Some(key), resource, let_go, place)
}

/// What modules may import of something that the world exports.
fn exported(
    page: &mut Page,
    of: &Imports<'_>,
    key: &WorldKey,
    item: &WorldItem,
    place: usize,
) -> usize {
    let WorldItem::Interface { id, .. } = item else {
        return place;
    };
    let Some(interface) = under(of.resolve.interfaces(), *id) else {
        return place;
    };
    let mut place = place;
    for resource in interface.types.values() {
        place = exported_resource(page, of, key, *resource, place);
    }
    place
}

/// All that modules may import: of what the world imports, and then of what it exports.
pub fn all(page: &mut Page, resolve: &Resolve, names: &CoreImports, world: &World) {
    let of = &Imports { resolve, names };
    let mut place = 0_usize;
    for (key, item) in world.imports.iter() {
        place = imported(page, of, key, item, place);
    }
    for (key, item) in world.exports.iter() {
        place = exported(page, of, key, item, place);
    }
}
