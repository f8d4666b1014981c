//! The names by which core modules export.

ghost use Rattle.std.specs.Prelude.{◌≡◌, option_map, string_bytes, IfOk};
ghost use Rattle.wit_names.specs.Passed.wit_types-CoreName.{core_export_name};
ghost use Rattle.wit_names.specs.Names.{ArePackagesKnown};
ghost use Rattle.wit_core_names.specs.Exports as spec;
ghost use Rattle.wit_core_names.specs.Imports.{IsInterfaceNamed};
ghost use Rattle.wit_core_names.specs.Items.{export_of, key_of};
ghost use Rattle.wit_core_names.specs.Texts.{known};

use crate::items::{WasmExport, WasmExportKind};
use crate::texts::{Tables, key_text, type_name};
use std::alloc::{AllocError, Global};
use wit_names::{Function, Mangling, WorldKey};

/// The text of the key of an interface, if there is one.
fn interface_key(
    alloc: Global,
    tables: &Tables<'_>,
    mangling: Mangling,
    interface: Option<&WorldKey>,
) -> Result<Option<String>, AllocError>
    requires packages { ArePackagesKnown tables.now.packages.now tables.now.interfaces.now }
    requires named { IsInterfaceNamed (known tables.now) (key_of interface) }
    ensures { IfOk result (λ s. spec.IsTextOf mangling (known tables.now) (key_of interface.entry) (option_map string_bytes s)) }
{
    match interface {
        Some(key) => Ok(Some(key_text(alloc, tables, mangling, key)?)),
        None => Ok(None),
    }
}

/// The name of a function, or of the one that is called when its results are read.
fn kind_name(
    alloc: Global,
    mangling: Mangling,
    kind: WasmExportKind,
    name: String,
) -> Result<String, AllocError>
    ensures { IfOk result (λ s. string_bytes s ≡ spec.kind_name mangling kind (string_bytes name)) }
{
    let text = name.as_str();
    match (kind, mangling) {
        (WasmExportKind::PostReturn, Mangling::Standard32) => format!(in alloc; "{text}_post"),
        (WasmExportKind::PostReturn, Mangling::Legacy) => format!(in alloc; "cabi_post_{text}"),
        (WasmExportKind::Normal, _) => Ok(name),
    }
}

/// The name of an exported function.
fn function_name(
    alloc: Global,
    tables: &Tables<'_>,
    mangling: Mangling,
    interface: Option<&WorldKey>,
    func: &Function,
) -> Result<String, AllocError>
    requires packages { ArePackagesKnown tables.now.packages.now tables.now.interfaces.now }
    requires named { IsInterfaceNamed (known tables.now) (key_of interface) }
    ensures { IfOk result (λ s. spec.IsFunctionName mangling (known tables.now) (key_of interface.entry) (string_bytes func.now.name) (string_bytes s)) }
{
    match interface_key(alloc, tables, mangling, interface)? {
        Some(key) => func.core_export_name(alloc, Some(key.as_str()), mangling),
        None => func.core_export_name(alloc, None, mangling),
    }
}

/// The name of the destructor of a resource.
fn destructor_name(
    alloc: Global,
    mangling: Mangling,
    key: &str,
    name: &str,
) -> Result<String, AllocError>
    ensures { IfOk result (λ s. string_bytes s ≡ spec.destructor_name mangling key.now name.now) }
{
    match mangling {
        Mangling::Standard32 => format!(in alloc; "cm32p2|{key}|{name}_dtor"),
        Mangling::Legacy => format!(in alloc; "{key}#[dtor]{name}"),
    }
}

/// The name of the memory.
fn memory_name(alloc: Global, mangling: Mangling) -> Result<String, AllocError>
    ensures { IfOk result (λ s. string_bytes s ≡ spec.memory_name mangling) }
{
    match mangling {
        Mangling::Standard32 => String::from_str(alloc, "cm32p2_memory"),
        Mangling::Legacy => String::from_str(alloc, "memory"),
    }
}

/// The name of the function that is called first.
fn initialize_name(alloc: Global, mangling: Mangling) -> Result<String, AllocError>
    ensures { IfOk result (λ s. string_bytes s ≡ spec.initialize_name mangling) }
{
    match mangling {
        Mangling::Standard32 => String::from_str(alloc, "cm32p2_initialize"),
        Mangling::Legacy => String::from_str(alloc, "_initialize"),
    }
}

/// The name of the function that gives memory.
fn realloc_name(alloc: Global, mangling: Mangling) -> Result<String, AllocError>
    ensures { IfOk result (λ s. string_bytes s ≡ spec.realloc_name mangling) }
{
    match mangling {
        Mangling::Standard32 => String::from_str(alloc, "cm32p2_realloc"),
        Mangling::Legacy => String::from_str(alloc, "cabi_realloc"),
    }
}

/// The name by which a core module exports something (Component Model, Build Targets). An interface has a name and a package, or is known
/// by a plain name, and a resource has a name.
pub fn wasm_export_name(
    alloc: Global,
    tables: &Tables<'_>,
    mangling: Mangling,
    export: &WasmExport<'_>,
) -> Result<String, AllocError>
    requires packages { ArePackagesKnown tables.now.packages.now tables.now.interfaces.now }
    requires named { spec.IsExportNamed (known tables.now) (export_of «export».now) }
    ensures { IfOk result (λ n. spec.IsExportName mangling (known tables.now) (export_of «export».now) (string_bytes n)) }
{
    match export {
        WasmExport::Func {
            interface,
            func,
            kind,
        } => {
            let name = function_name(alloc, tables, mangling, *interface, func)?;
            kind_name(alloc, mangling, *kind, name)
        }
        WasmExport::ResourceDtor {
            interface,
            resource,
        } => {
            let key = key_text(alloc, tables, mangling, interface)?;
            destructor_name(
                alloc,
                mangling,
                key.as_str(),
                type_name(tables.types, *resource),
            )
        }
        WasmExport::Memory => memory_name(alloc, mangling),
        WasmExport::Initialize => initialize_name(alloc, mangling),
        WasmExport::Realloc => realloc_name(alloc, mangling),
    }
}
