//! The names by which core modules import what a world has.

ghost use Rattle.std.specs.Prelude.{◌≡◌, Some, OnOk, IfOk};
ghost use Rattle.std.specs.Cow.{cow_str_bytes};
ghost use Rattle.wit_core_names.specs.Passed.wit_names-Names.{ArePackagesKnown};
ghost use Rattle.wit_core_names.specs.Imports.{IsImportName};
ghost use Rattle.wit_core_names.specs.Items.{import_of, CoreImport};
ghost use Rattle.wit_core_names.specs.Texts.{known};
ghost use Rattle.wit_core_items.specs.Growing.{Grows, Reads, pair_eq};
ghost use Rattle.wit_core_items.specs.Named.{IsImportOnSide};
ghost use Rattle.wit_core_items.specs.ImportPlaces as spec;
ghost use Rattle.wit_core_items.specs.Places.{AreAt};
ghost use Rattle.wit_core_items.specs.World.{IsImportedAs, ImportStandsFor, core_imports};

use crate::import_places::{ImportPlace, import_at};
use crate::named::is_import_named;
use std::alloc::{AllocError, Global};
use std::borrow::CowStr;
use wit_core_names::{Tables, WasmImport, wasm_import_name};
use wit_core_tables::NameTable;
use wit_types::{Function, Mangling, World, WorldKey};

/// Names of modules, each with a name in it.
pub type ImportNames = NameTable<(CowStr<'static>, CowStr<'static>)>;

/// Puts in the name of something in a spelling, if it has one.
fn add_spelling(
    alloc: Global,
    names: &mut ImportNames,
    tables: &Tables<'_>,
    mangling: Mangling,
    import: &WasmImport<'_>,
    place: usize,
) -> Result<(), AllocError>
    requires packages { ArePackagesKnown tables.now.packages.now tables.now.interfaces.now }
    requires side { IsImportOnSide (import_of «import».now) }
    ensures { OnOk result (Grows pair_eq (λ q i. (i ≡ place) × IsImportName mangling (known tables.now) (import_of «import».now) (cow_str_bytes q.0) (cow_str_bytes q.1)) names.old names.new) }
{
    if is_import_named(tables, import) {
        let (module, name) = wasm_import_name(alloc, tables, mangling, import)?;
        names.add((CowStr::Owned(module), CowStr::Owned(name)), place)?;
    }
    Ok(())
}

/// Puts in the names of something, in the older spelling too where that counts.
fn add_import(
    alloc: Global,
    names: &mut ImportNames,
    tables: &Tables<'_>,
    legacy: bool,
    import: &WasmImport<'_>,
    place: usize,
) -> Result<(), AllocError>
    requires packages { ArePackagesKnown tables.now.packages.now tables.now.interfaces.now }
    requires side { IsImportOnSide (import_of «import».now) }
    ensures { OnOk result (Grows pair_eq (λ q i. (i ≡ place) × IsImportedAs (known tables.now) legacy (import_of «import».now) (cow_str_bytes q.0) (cow_str_bytes q.1)) names.old names.new) }
{
    add_spelling(alloc, names, tables, Mangling::Standard32, import, place)?;
    if legacy {
        add_spelling(alloc, names, tables, Mangling::Legacy, import, place)?;
    }
    Ok(())
}

/// Puts in the names of what a world has at a place.
fn add_at<'a>(
    alloc: Global,
    names: &mut ImportNames,
    tables: &Tables<'a>,
    world: &'a World,
    legacy: bool,
    at: ImportPlace,
    place: usize,
) -> Result<(), AllocError>
    requires packages { ArePackagesKnown tables.now.packages.now tables.now.interfaces.now }
    requires there { (x : CoreImport) × (spec.import_at (known tables.now) world.now at ≡ Some x) × IsImportOnSide x }
    ensures { OnOk result ((x : CoreImport) → spec.import_at (known tables.now) world.now at ≡ Some x → Grows pair_eq (λ q i. (i ≡ place) × IsImportedAs (known tables.now) legacy x (cow_str_bytes q.0) (cow_str_bytes q.1)) names.old names.new) }
{
    // The borrow check is to know the types of what an import lends.
    let _lends: Option<(&WorldKey, &Function)> = None;
    let import = import_at(tables, world, at);
    add_import(alloc, names, tables, legacy, &import, place)
}

/// The names of all that core modules import of a world, which has it at these places.
pub fn import_names<'a>(
    alloc: Global,
    tables: &Tables<'a>,
    world: &'a World,
    legacy: bool,
    places: &[ImportPlace],
) -> Result<ImportNames, AllocError>
    requires packages { ArePackagesKnown tables.now.packages.now tables.now.interfaces.now }
    requires places { AreAt (spec.import_at (known tables.now) world.now) places.now (core_imports (known tables.now) world.now) }
    ensures { IfOk result (Reads pair_eq (λ q i. ImportStandsFor (known tables.now) world.now legacy (cow_str_bytes q.0) (cow_str_bytes q.1) i)) }
{
    let mut names = NameTable::new(alloc);
    for place in 0..places.len() {
        add_at(
            alloc,
            &mut names,
            tables,
            world,
            legacy,
            places[place],
            place,
        )?;
    }
    Ok(names)
}
