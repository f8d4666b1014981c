//! What core modules import and export by names.

ghost use Rattle.std.specs.Prelude.{◌≡◌, slice_get, true};
ghost use Rattle.wit_core_items.specs.Named as spec;
ghost use Rattle.wit_core_names.specs.Exports.{IsExportNamed};
ghost use Rattle.wit_core_names.specs.Imports.{IsImportNamed};
ghost use Rattle.wit_core_names.specs.Items.{export_of, import_of, key_of};
ghost use Rattle.wit_core_names.specs.Texts.{known};
ghost use Rattle.wit_resolution.specs.Names.{known_of};

use wit_resolution::{Resolve, Tables, WasmExport, WasmImport};
use wit_types::{Arena, Interface, TypeDef, TypeId, WorldKey};

/// Whether a key has a text: it is a plain name, or an interface with a name and a package.
fn is_key_named(interfaces: &Arena<Interface>, key: &WorldKey) -> bool
    ensures { result ≡ spec.is_key_named interfaces.now key.now }
{
    match key {
        WorldKey::Name(_) => true,
        WorldKey::Interface(id) => {
            if id.index() >= interfaces.len() {
                return false;
            }
            let interface = interfaces.get(*id);
            interface.name.is_some() && interface.package.is_some()
        }
    }
}

/// Whether the interface has a text, if there is one.
fn is_interface_named(interfaces: &Arena<Interface>, key: Option<&WorldKey>) -> bool
    ensures { result ≡ spec.is_interface_named interfaces.now (key_of key.entry) }
{
    match key {
        Some(key) => is_key_named(interfaces, key),
        None => true,
    }
}

/// Whether a type has a name.
fn is_type_named(types: &Arena<TypeDef>, id: TypeId) -> bool
    ensures { result ≡ spec.is_type_named (slice_get types.now id) }
{
    if id.index() >= types.len() {
        return false;
    }
    types.get(id).name.is_some()
}

/// Whether something that is imported has a name in those tables.
fn is_import_in(tables: &Tables<'_>, import: &WasmImport<'_>) -> bool
    ensures { result ≡ spec.is_import_named (known tables.now) (import_of «import».now) }
{
    match import {
        WasmImport::Func { interface, .. } => is_interface_named(tables.interfaces, *interface),
        WasmImport::ResourceIntrinsic {
            interface,
            resource,
            ..
        } => {
            is_interface_named(tables.interfaces, *interface)
                && is_type_named(tables.types, *resource)
        }
    }
}

/// Whether something that is exported has a name in those tables.
fn is_export_in(tables: &Tables<'_>, export: &WasmExport<'_>) -> bool
    ensures { result ≡ spec.is_export_named (known tables.now) (export_of «export».now) }
{
    match export {
        WasmExport::Func { interface, .. } => is_interface_named(tables.interfaces, *interface),
        WasmExport::ResourceDtor {
            interface,
            resource,
        } => is_key_named(tables.interfaces, interface) && is_type_named(tables.types, *resource),
        WasmExport::Memory | WasmExport::Initialize | WasmExport::Realloc => true,
    }
}

/// Whether something is imported by a name; only an interface has exported resources of which something is imported.
pub fn is_import_named(resolve: &Resolve, import: &WasmImport<'_>) -> bool
    requires { spec.IsImportOnSide (import_of «import».now) }
    ensures { result ≡ true → IsImportNamed (known_of resolve.now.graph.tables) (import_of «import».now) }
{
    is_import_in(&resolve.tables(), import)
}

/// Whether something is exported by a name.
pub fn is_export_named(resolve: &Resolve, export: &WasmExport<'_>) -> bool
    ensures { result ≡ true → IsExportNamed (known_of resolve.now.graph.tables) (export_of «export».now) }
{
    is_export_in(&resolve.tables(), export)
}
