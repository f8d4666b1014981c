//! What core modules import and export by a name.

ghost use Rattle.std.specs.Prelude.{◌≡◌, slice_get};
ghost use Rattle.wit_core_names.specs.Items.{export_of, import_of, key_of};
ghost use Rattle.wit_core_names.specs.Texts.{known};
ghost use Rattle.wit_core_items.specs.Named as spec;

use crate::known::{interface_at, type_at};
use wit_core_names::{Tables, WasmExport, WasmImport};
use wit_types::{Arena, Interface, TypeDef, TypeId, WorldKey};

/// Whether a key has a text: it is a plain name, or an interface with a name and a package.
fn is_key_named(interfaces: &Arena<Interface>, key: &WorldKey) -> bool
    ensures { result ≡ spec.is_key_named interfaces.now key.now }
{
    match key {
        WorldKey::Name(_) => true,
        WorldKey::Interface(id) => match interface_at(interfaces, *id) {
            Some(interface) => interface.name.is_some() && interface.package.is_some(),
            None => false,
        },
    }
}

/// Whether the interface has a text, if there is one.
fn is_interface_named(interfaces: &Arena<Interface>, key: Option<&WorldKey>) -> bool
    ensures { result ≡ spec.is_interface_named interfaces.now (key_of key.entry) }
{
    match key {
        Some(key) => is_key_named(interfaces, key),
        None => true,
    }
}

/// Whether a type has a name.
fn is_type_named(types: &Arena<TypeDef>, id: TypeId) -> bool
    ensures { result ≡ spec.is_type_named (slice_get types.now id) }
{
    match type_at(types, id) {
        Some(def) => def.name.is_some(),
        None => false,
    }
}

/// Whether something is imported by a name.
pub fn is_import_named(tables: &Tables<'_>, import: &WasmImport<'_>) -> bool
    ensures { result ≡ spec.is_import_named (known tables.now) (import_of «import».now) }
{
    match import {
        WasmImport::Func { interface, .. } => is_interface_named(tables.interfaces, *interface),
        WasmImport::ResourceIntrinsic {
            interface,
            resource,
            ..
        } => {
            is_interface_named(tables.interfaces, *interface)
                && is_type_named(tables.types, *resource)
        }
    }
}

/// Whether something is exported by a name.
pub fn is_export_named(tables: &Tables<'_>, export: &WasmExport<'_>) -> bool
    ensures { result ≡ spec.is_export_named (known tables.now) (export_of «export».now) }
{
    match export {
        WasmExport::Func { interface, .. } => is_interface_named(tables.interfaces, *interface),
        WasmExport::ResourceDtor {
            interface,
            resource,
        } => {
            is_key_named(tables.interfaces, interface) && is_type_named(tables.types, *resource)
        }
        WasmExport::Memory | WasmExport::Initialize | WasmExport::Realloc => true,
    }
}
