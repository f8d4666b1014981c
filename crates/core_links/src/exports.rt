//! Which core exports of a module stand for something.

ghost use Rattle.std.specs.Prelude.{◌≡◌, List, map, IfOk, IfErr};
ghost use Rattle.std.specs.Cow.{cow_str_bytes};
ghost use Rattle.wasm_types.specs.Entries.{ExportValue, export_value};
ghost use Rattle.wit_core_names.specs.Passed.wit_names-Names.{ArePackagesKnown};
ghost use Rattle.wit_core_names.specs.Exports.{IsExportNamed, IsExportName};
ghost use Rattle.wit_core_names.specs.Items.{export_of};
ghost use Rattle.wit_core_items.specs.Growing.{Reads, name_eq};
ghost use Rattle.core_links.specs.Exports as spec;
ghost use Rattle.core_links.specs.Names.{Names, names_in};
ghost use Rattle.core_links.specs.View.{AreNamesOf};

use crate::fault::LinkFault;
use crate::names::CoreNames;
use std::alloc::{AllocError, Global};
use std::borrow::CowStr;
use wasm_types::Export;
use wit_core_items::CoreExports;
use wit_core_names::{WasmExport, wasm_export_name};
use wit_core_tables::{Meaning, NameTable};
use wit_types::Mangling;

/// Names of core exports, each with its place.
type Places<'a> = NameTable<CowStr<'a>>;

/// The places of core exports by their names.
fn places_of<'a>(alloc: Global, exports: &[Export<'a>]) -> Result<Places<'a>, AllocError>
    ensures { IfOk result (Reads name_eq (λ q i. spec.HasName (map export_value exports.now) (cow_str_bytes q) i)) }
{
    let mut places = NameTable::new(alloc);
    for (place, export) in exports.iter().enumerate() {
        places.add(CowStr::Borrowed(export.name), place)?;
    }
    Ok(places)
}

/// The core exports of a module by their names, and what the names stand for in a world.
#[derive(Drop)]
pub struct ExportNames<'a> {
    reader: CoreExports,
    places: Places<'a>,
}

impl<'a> ExportNames<'a> {
    /// The core exports of a module.
    pub fn new(
        alloc: Global,
        names: &CoreNames<'_>,
        exports: &[Export<'a>],
    ) -> Result<ExportNames<'a>, AllocError>
        requires { ArePackagesKnown names.now.tables.packages.now names.now.tables.interfaces.now }
        ensures { IfOk result (AreNamesOf (names_in names.now) (map export_value exports.now)) }
    {
        let reader = CoreExports::new(alloc, &names.tables, names.world, names.counts_legacy())?;
        let places = places_of(alloc, exports)?;
        Ok(ExportNames { reader, places })
    }

    /// The place of the one core export of that name, if there is one (WebAssembly Core, Modules, Exports). Answers `Ambiguous` where two
    /// have it, and where it stands for two things, and `OutOfMemory` where memory is wanting.
    pub fn named(&self, name: &str) -> Result<Option<usize>, LinkFault>
        ensures found { (n : Names) (es : List ExportValue) → AreNamesOf n es self.now → IfOk result (spec.IsFoundAs n es (λ text. text ≡ name.now)) }
        ensures cause { (n : Names) (es : List ExportValue) → AreNamesOf n es self.now → IfErr result (spec.IsUnclearCause n es (λ text. text ≡ name.now)) }
    {
        let found = self.places.get(&CowStr::Borrowed(name));
        one_place(found, self.reader.read(name))
    }

    /// The place of the core export that stands for something by its name in a spelling, if there is one.
    fn spelled(
        &self,
        alloc: Global,
        names: &CoreNames<'_>,
        mangling: Mangling,
        export: &WasmExport<'_>,
    ) -> Result<Option<usize>, LinkFault>
        requires packages { ArePackagesKnown names.now.tables.packages.now names.now.tables.interfaces.now }
        requires named { IsExportNamed (names_in names.now).known (export_of «export».now) }
        ensures found { (es : List ExportValue) → AreNamesOf (names_in names.now) es self.now → IfOk result (spec.IsFoundAs (names_in names.now) es (IsExportName mangling (names_in names.now).known (export_of «export».now))) }
        ensures cause { (es : List ExportValue) → AreNamesOf (names_in names.now) es self.now → IfErr result (spec.IsUnclearCause (names_in names.now) es (IsExportName mangling (names_in names.now).known (export_of «export».now))) }
    {
        let name = wasm_export_name(alloc, &names.tables, mangling, export)?;
        self.named(name.as_str())
    }

    /// The place of the core export that stands for something by its legacy name, if that counts and there is one.
    fn legacy(
        &self,
        alloc: Global,
        names: &CoreNames<'_>,
        export: &WasmExport<'_>,
    ) -> Result<Option<usize>, LinkFault>
        requires packages { ArePackagesKnown names.now.tables.packages.now names.now.tables.interfaces.now }
        requires named { IsExportNamed (names_in names.now).known (export_of «export».now) }
        ensures found { (es : List ExportValue) → AreNamesOf (names_in names.now) es self.now → IfOk result (spec.IsFoundAs (names_in names.now) es (spec.IsLegacyName (names_in names.now) (export_of «export».now))) }
        ensures cause { (es : List ExportValue) → AreNamesOf (names_in names.now) es self.now → IfErr result (spec.IsUnclearCause (names_in names.now) es (spec.IsLegacyName (names_in names.now) (export_of «export».now))) }
    {
        if !names.counts_legacy() {
            return Ok(None);
        }
        self.spelled(alloc, names, Mangling::Legacy, export)
    }

    /// The place of the one core export that stands for something a world has, and whose name stands for nothing else (Component Model,
    /// Build Targets). Answers `MissingCoreExport` where none stands for it, `Ambiguous` where two do, and where the name of one stands for
    /// two things, and `OutOfMemory` where memory is wanting. An interface has a name and a package, or is known by a plain name, and a
    /// resource has a name.
    pub fn place(
        &self,
        alloc: Global,
        names: &CoreNames<'_>,
        export: &WasmExport<'_>,
    ) -> Result<usize, LinkFault>
        requires packages { ArePackagesKnown names.now.tables.packages.now names.now.tables.interfaces.now }
        requires named { IsExportNamed (names_in names.now).known (export_of «export».now) }
        ensures place { (es : List ExportValue) → AreNamesOf (names_in names.now) es self.now → IfOk result (spec.IsExportOf (names_in names.now) es (export_of «export».now)) }
        ensures cause { (es : List ExportValue) → AreNamesOf (names_in names.now) es self.now → IfErr result (spec.IsExportCause (names_in names.now) es (export_of «export».now)) }
    {
        let found = self.spelled(alloc, names, Mangling::Standard32, export)?;
        let other = self.legacy(alloc, names, export)?;
        one_of(found, other)
    }
}

/// The place that is found by a name, which stands for one thing at most.
fn one_place(found: Option<Meaning>, meaning: Option<Meaning>) -> Result<Option<usize>, LinkFault>
    ensures { spec.IsPlaceOf found meaning result }
{
    match found {
        None => Ok(None),
        Some(Meaning::Ambiguous) => Err(LinkFault::Ambiguous),
        Some(Meaning::One(place)) => match meaning {
            Some(Meaning::Ambiguous) => Err(LinkFault::Ambiguous),
            Some(Meaning::One(_)) => Ok(Some(place)),
            None => Ok(Some(place)),
        },
    }
}

/// The one place that there is.
fn one_of(found: Option<usize>, other: Option<usize>) -> Result<usize, LinkFault>
    ensures { spec.IsOneOf found other result }
{
    match (found, other) {
        (None, None) => Err(LinkFault::MissingCoreExport),
        (Some(place), None) => Ok(place),
        (None, Some(place)) => Ok(place),
        (Some(place), Some(same)) if place == same => Ok(place),
        (Some(_), Some(_)) => Err(LinkFault::Ambiguous),
    }
}
