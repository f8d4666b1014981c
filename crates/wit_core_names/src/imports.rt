//! The names by which core modules import.

ghost use Rattle.std.specs.Prelude.{◌≡◌, Some, string_bytes, IfOk};
ghost use Rattle.wit_names.specs.Names.{ArePackagesKnown};
ghost use Rattle.wit_core_names.specs.Imports as spec;
ghost use Rattle.wit_core_names.specs.Items.{import_of, key_of};
ghost use Rattle.wit_core_names.specs.Texts.{IsKeyNamed, known};

use crate::items::{ResourceIntrinsic, WasmImport};
use crate::texts::{Tables, key_text, type_name};
use std::alloc::{AllocError, Global};
use wit_names::{Mangling, WorldKey};

/// The module from which a world's own things are imported.
fn root_module(alloc: Global, mangling: Mangling) -> Result<String, AllocError>
    ensures { IfOk result (λ s. string_bytes s ≡ spec.root_module mangling) }
{
    match mangling {
        Mangling::Standard32 => String::from_str(alloc, "cm32p2"),
        Mangling::Legacy => String::from_str(alloc, "$root"),
    }
}

/// The module from which things of an interface are imported.
fn imported_module(
    alloc: Global,
    tables: &Tables<'_>,
    mangling: Mangling,
    interface: Option<&WorldKey>,
) -> Result<String, AllocError>
    requires packages { ArePackagesKnown tables.now.packages.now tables.now.interfaces.now }
    requires named { spec.IsInterfaceNamed (known tables.now) (key_of interface) }
    ensures { IfOk result (λ s. spec.IsModuleOf mangling (known tables.now) (spec.interface_module mangling) (key_of interface.entry) (string_bytes s)) }
{
    let Some(key) = interface else {
        return root_module(alloc, mangling);
    };
    let key = key_text(alloc, tables, mangling, key)?;
    match mangling {
        Mangling::Standard32 => format!(in alloc; "cm32p2|{key}"),
        Mangling::Legacy => Ok(key),
    }
}

/// The module from which things of an exported interface are imported.
fn exported_module(
    alloc: Global,
    tables: &Tables<'_>,
    mangling: Mangling,
    key: &WorldKey,
) -> Result<String, AllocError>
    requires packages { ArePackagesKnown tables.now.packages.now tables.now.interfaces.now }
    requires named { IsKeyNamed tables.now.packages.now tables.now.interfaces.now key.now }
    ensures { IfOk result (λ s. spec.IsModuleOf mangling (known tables.now) (spec.exported_module mangling) (Some key.now) (string_bytes s)) }
{
    let key = key_text(alloc, tables, mangling, key)?;
    let key = key.as_str();
    match mangling {
        Mangling::Standard32 => format!(in alloc; "cm32p2|_ex_{key}"),
        Mangling::Legacy => format!(in alloc; "[export]{key}"),
    }
}

/// The module from which something done with a resource is imported; an exported resource is one of an interface.
fn intrinsic_module(
    alloc: Global,
    tables: &Tables<'_>,
    mangling: Mangling,
    interface: Option<&WorldKey>,
    intrinsic: ResourceIntrinsic,
) -> Result<String, AllocError>
    requires packages { ArePackagesKnown tables.now.packages.now tables.now.interfaces.now }
    requires named { spec.IsInterfaceNamed (known tables.now) (key_of interface) }
    requires side { spec.IsOnSide intrinsic (key_of interface) }
    ensures { IfOk result (λ s. spec.IsModuleOf mangling (known tables.now) (spec.side_module mangling intrinsic) (key_of interface.entry) (string_bytes s)) }
{
    match (intrinsic, interface) {
        (ResourceIntrinsic::ImportedDrop, _) => imported_module(alloc, tables, mangling, interface),
        (_, Some(key)) => exported_module(alloc, tables, mangling, key),
        (_, None) => unreachable!(),
    }
}

/// The name of something done with a resource of that name.
fn intrinsic_name(
    alloc: Global,
    mangling: Mangling,
    intrinsic: ResourceIntrinsic,
    name: &str,
) -> Result<String, AllocError>
    ensures { IfOk result (λ s. string_bytes s ≡ spec.intrinsic_name mangling intrinsic name.now) }
{
    match (mangling, intrinsic) {
        (Mangling::Standard32, ResourceIntrinsic::ImportedDrop | ResourceIntrinsic::ExportedDrop) =>
            format!(in alloc; "{name}_drop"),
        (Mangling::Standard32, ResourceIntrinsic::ExportedNew) => format!(in alloc; "{name}_new"),
        (Mangling::Standard32, ResourceIntrinsic::ExportedRep) => format!(in alloc; "{name}_rep"),
        (Mangling::Legacy, ResourceIntrinsic::ImportedDrop | ResourceIntrinsic::ExportedDrop) => {
            format!(in alloc; "[resource-drop]{name}")
        }
        (Mangling::Legacy, ResourceIntrinsic::ExportedNew) => {
            format!(in alloc; "[resource-new]{name}")
        }
        (Mangling::Legacy, ResourceIntrinsic::ExportedRep) => {
            format!(in alloc; "[resource-rep]{name}")
        }
    }
}

/// The module and the name by which a core module imports something (Component Model, Build Targets). An interface has a name and a
/// package, or is known by a plain name; a resource has a name, and an exported one is of an interface.
pub fn wasm_import_name(
    alloc: Global,
    tables: &Tables<'_>,
    mangling: Mangling,
    import: &WasmImport<'_>,
) -> Result<(String, String), AllocError>
    requires packages { ArePackagesKnown tables.now.packages.now tables.now.interfaces.now }
    requires named { spec.IsImportNamed (known tables.now) (import_of «import».now) }
    ensures { IfOk result (λ n. spec.IsImportName mangling (known tables.now) (import_of «import».now) (string_bytes n.0) (string_bytes n.1)) }
{
    match import {
        WasmImport::Func { interface, func } => Ok((
            imported_module(alloc, tables, mangling, *interface)?,
            String::from_str(alloc, func.name.as_str())?,
        )),
        WasmImport::ResourceIntrinsic {
            interface,
            resource,
            intrinsic,
        } => Ok((
            intrinsic_module(alloc, tables, mangling, *interface, *intrinsic)?,
            intrinsic_name(
                alloc,
                mangling,
                *intrinsic,
                type_name(tables.types, *resource),
            )?,
        )),
    }
}
