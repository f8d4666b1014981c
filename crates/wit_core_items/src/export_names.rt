//! The names by which core modules export what a world has.

ghost use Rattle.std.specs.Prelude.{◌≡◌, Some, OnOk, IfOk};
ghost use Rattle.std.specs.Cow.{cow_str_bytes};
ghost use Rattle.wit_core_names.specs.Passed.wit_names-Names.{ArePackagesKnown};
ghost use Rattle.wit_core_names.specs.Exports.{IsExportName};
ghost use Rattle.wit_core_names.specs.Items.{export_of, CoreExport};
ghost use Rattle.wit_core_names.specs.Texts.{known};
ghost use Rattle.wit_core_items.specs.ExportPlaces as spec;
ghost use Rattle.wit_core_items.specs.Growing.{Grows, Reads, name_eq};
ghost use Rattle.wit_core_items.specs.Places.{AreAt};
ghost use Rattle.wit_core_items.specs.World.{IsExportedAs, ExportStandsFor, core_exports};

use crate::export_places::{ExportPlace, export_at};
use crate::named::is_export_named;
use std::alloc::{AllocError, Global};
use std::borrow::CowStr;
use wit_core_names::{Tables, WasmExport, wasm_export_name};
use wit_core_tables::NameTable;
use wit_types::{Function, Mangling, World, WorldKey};

/// Names of what is exported.
pub type ExportNames = NameTable<CowStr<'static>>;

/// Puts in the name of something in a spelling, if it has one.
fn add_spelling(
    alloc: Global,
    names: &mut ExportNames,
    tables: &Tables<'_>,
    mangling: Mangling,
    export: &WasmExport<'_>,
    place: usize,
) -> Result<(), AllocError>
    requires packages { ArePackagesKnown tables.now.packages.now tables.now.interfaces.now }
    ensures { OnOk result (Grows name_eq (λ q i. (i ≡ place) × IsExportName mangling (known tables.now) (export_of «export».now) (cow_str_bytes q)) names.old names.new) }
{
    if is_export_named(tables, export) {
        let name = wasm_export_name(alloc, tables, mangling, export)?;
        names.add(CowStr::Owned(name), place)?;
    }
    Ok(())
}

/// Puts in the names of something, in the older spelling too where that counts.
fn add_export(
    alloc: Global,
    names: &mut ExportNames,
    tables: &Tables<'_>,
    legacy: bool,
    export: &WasmExport<'_>,
    place: usize,
) -> Result<(), AllocError>
    requires packages { ArePackagesKnown tables.now.packages.now tables.now.interfaces.now }
    ensures { OnOk result (Grows name_eq (λ q i. (i ≡ place) × IsExportedAs (known tables.now) legacy (export_of «export».now) (cow_str_bytes q)) names.old names.new) }
{
    add_spelling(alloc, names, tables, Mangling::Standard32, export, place)?;
    if legacy {
        add_spelling(alloc, names, tables, Mangling::Legacy, export, place)?;
    }
    Ok(())
}

/// Puts in the names of what a world has at a place.
fn add_at<'a>(
    alloc: Global,
    names: &mut ExportNames,
    tables: &Tables<'a>,
    world: &'a World,
    legacy: bool,
    at: ExportPlace,
    place: usize,
) -> Result<(), AllocError>
    requires packages { ArePackagesKnown tables.now.packages.now tables.now.interfaces.now }
    requires there { (x : CoreExport) × (spec.export_at (known tables.now) world.now at ≡ Some x) }
    ensures { OnOk result ((x : CoreExport) → spec.export_at (known tables.now) world.now at ≡ Some x → Grows name_eq (λ q i. (i ≡ place) × IsExportedAs (known tables.now) legacy x (cow_str_bytes q)) names.old names.new) }
{
    // The borrow check is to know the types of what an export lends.
    let _lends: Option<(&WorldKey, &Function)> = None;
    let export = export_at(tables, world, at);
    add_export(alloc, names, tables, legacy, &export, place)?;
    Ok(())
}

/// The names of all that core modules export of a world, which has it at these places.
pub fn export_names<'a>(
    alloc: Global,
    tables: &Tables<'a>,
    world: &'a World,
    legacy: bool,
    places: &[ExportPlace],
) -> Result<ExportNames, AllocError>
    requires packages { ArePackagesKnown tables.now.packages.now tables.now.interfaces.now }
    requires places { AreAt (spec.export_at (known tables.now) world.now) places.now (core_exports (known tables.now) world.now) }
    ensures { IfOk result (Reads name_eq (λ q i. ExportStandsFor (known tables.now) world.now legacy (cow_str_bytes q) i)) }
{
    let mut names = NameTable::new(alloc);
    for place in 0..places.len() {
        add_at(
            alloc,
            &mut names,
            tables,
            world,
            legacy,
            places[place],
            place,
        )?;
    }
    Ok(names)
}
