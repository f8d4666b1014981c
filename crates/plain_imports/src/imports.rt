//! What core modules import of a world.

ghost use Rattle.std.specs.Prelude.{◌≡◌, ◌⊎◌, true, false, map, Any, IfOk};
ghost use Rattle.plain_imports.specs.Imports as spec;
ghost use Rattle.plain_worlds.specs.World.{function_item};
ghost use Rattle.wasm_types.specs.Entries.{import_value};
ghost use Rattle.wit_core_items.specs.Readers.{IsReaderOfImports};
ghost use Rattle.wit_core_names.specs.Items.{import_of};
ghost use Rattle.wit_core_names.specs.Texts.{known};
ghost use Rattle.wit_names.specs.Names.{ArePackagesKnown};

use name_places::FirstPlaces;
use plain_worlds::Function;
use std::alloc::{AllocError, Global};
use wasm_types::Import;
use wit_core_items::CoreImports;
use wit_core_names::{Tables, WasmImport};
use wit_core_tables::Meaning;
use wit_types::{World, WorldKey};

/// The names of functions.
fn names_of(alloc: Global, functions: &[Function]) -> Result<FirstPlaces<'_>, AllocError>
    ensures { IfOk result (λ p. p ≡ spec.names_of (map function_item functions.entry.now)) }
{
    let mut names = FirstPlaces::new(alloc);
    for function in functions {
        names.push(function.name.as_str())?;
    }
    Ok(names)
}

/// Whether that is one of the functions of those names, which are the world's own.
fn is_own(names: &FirstPlaces<'_>, import: &WasmImport<'_>) -> bool
    ensures { result ≡ spec.is_own names.now (import_of «import».now) }
{
    match import {
        WasmImport::Func {
            interface: None,
            func,
        } => names.first(func.name.as_str()).is_some(),
        _ => false,
    }
}

/// Whether a core import stands for nothing, or for one of the functions of those names alone.
fn fits<'a>(
    reader: &CoreImports,
    tables: &Tables<'a>,
    world: &'a World,
    names: &FirstPlaces<'_>,
    import: &Import<'_>,
) -> bool
    requires { IsReaderOfImports (known tables.now) world.now true reader.now }
    ensures yes { result ≡ true → spec.IsBeyond (known tables.now) world.now names.now (import_value «import».now) → ⊥ }
    ensures no { result ≡ false → spec.IsBeyond (known tables.now) world.now names.now (import_value «import».now) }
{
    // The borrow check is to know the types of what an import lends.
    let _lends: Option<(&WorldKey, &wit_types::Function)> = None;
    match reader.read(import.module, import.name) {
        None => true,
        Some(Meaning::One(place)) => is_own(names, &reader.item(tables, world, place)),
        Some(Meaning::Ambiguous) => false,
    }
}

/// Whether each core import does.
fn each_fits<'a>(
    reader: &CoreImports,
    tables: &Tables<'a>,
    world: &'a World,
    names: &FirstPlaces<'_>,
    imports: &[Import<'_>],
) -> bool
    requires { IsReaderOfImports (known tables.now) world.now true reader.now }
    ensures yes { result ≡ true → Any (spec.IsBeyond (known tables.now) world.now names.now) (map import_value imports.now) → ⊥ }
    ensures no { result ≡ false → Any (spec.IsBeyond (known tables.now) world.now names.now) (map import_value imports.now) }
{
    for import in imports {
        if !fits(reader, tables, world, names, import) {
            return false;
        }
    }
    true
}

/// Whether each core import stands for nothing in a world, in either spelling, or for one of these functions alone, which the world
/// imports itself.
pub fn imports_fit(
    alloc: Global,
    tables: &Tables<'_>,
    world: &World,
    functions: &[Function],
    imports: &[Import<'_>],
) -> Result<bool, AllocError>
    requires { ArePackagesKnown tables.now.packages.now tables.now.interfaces.now }
    ensures yes { IfOk result (λ b. b ≡ true → Any (spec.IsBeyond (known tables.now) world.now (spec.names_of (map function_item functions.now))) (map import_value imports.now) → ⊥) }
    ensures no { IfOk result (λ b. b ≡ false → Any (spec.IsBeyond (known tables.now) world.now (spec.names_of (map function_item functions.now))) (map import_value imports.now)) }
{
    let reader = CoreImports::new(alloc, tables, world, true)?;
    let names = names_of(alloc, functions)?;
    Ok(each_fits(&reader, tables, world, &names, imports))
}
