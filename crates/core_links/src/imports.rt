//! What the core imports of a module stand for.

ghost use Rattle.std.specs.Prelude.{◌≡◌, ◌∷◌, ◌++◌, ◌⊎◌, ◌<◌, ℕ, List, [], map, length, slice_get, Some, true, false, IfOk, IfErr, OnOk};
ghost use Rattle.wasm_types.specs.Entries.{ImportValue, import_value};
ghost use Rattle.wit_core_names.specs.Passed.wit_names-Names.{ArePackagesKnown};
ghost use Rattle.wit_core_names.specs.Items.{import_of};
ghost use Rattle.wit_core_items.specs.Readers.{IsReaderOfImports};
ghost use Rattle.core_links.specs.declared.fault.LinkFault.TheVariants as faults;
ghost use Rattle.core_links.specs.Imports as spec;
ghost use Rattle.core_links.specs.View.{AreLinksOf};
ghost use Rattle.core_links.specs.Names.{Names, names_in, counts_legacy, IsImport};
ghost use Rattle.core_links.specs.Pairs.{is_new, pair_of};

use crate::fault::LinkFault;
use crate::names::CoreNames;
use crate::pairs::Pairs;
use std::alloc::Global;
use wasm_types::Import;
use wit_core_items::{CoreImports, ImportPlace};
use wit_core_names::WasmImport;
use wit_core_tables::Meaning;
use wit_types::{Function, WorldKey};

/// Adds the pair of texts of an import, unless it is there.
fn add_pair<'a>(seen: &mut Pairs<'a>, import: &Import<'a>) -> Result<(), LinkFault>
    ensures new { OnOk result (is_new seen.old (pair_of (import_value «import».entry.now)) ≡ true) }
    ensures added { OnOk result (seen.new ≡ seen.old ++ pair_of (import_value «import».entry.now) ∷ []) }
    ensures cause { IfErr result (λ fault. ((fault ≡ faults.DuplicateImport) × (is_new seen.old (pair_of (import_value «import».entry.now)) ≡ false)) ⊎ (fault ≡ faults.OutOfMemory)) }
{
    if !seen.is_new(import.module, import.name) {
        return Err(LinkFault::DuplicateImport);
    }
    seen.add(import.module, import.name)?;
    Ok(())
}

/// Whether an import is the memory of the surroundings.
fn is_outer_memory(import: &Import<'_>) -> bool
    ensures { result ≡ spec.is_outer_memory (import_value «import».now) }
{
    import.module == "env" && import.name == "memory"
}

/// Why an import stands for nothing: legacy names are rejected, among which it would stand for something, or it wouldn't either.
fn unknown(alloc: Global, names: &CoreNames<'_>, import: &Import<'_>) -> LinkFault
    requires packages { ArePackagesKnown names.now.tables.packages.now names.now.tables.interfaces.now }
    requires outside { spec.is_outer_memory (import_value «import».now) ≡ false }
    requires none { (j : ℕ) → IsImport (names_in names.now) «import».now.module.now «import».now.name.now j → ⊥ }
    ensures { spec.IsImportCause (names_in names.now) (import_value «import».now) result }
{
    if names.counts_legacy() {
        return LinkFault::UnknownImport;
    }
    match CoreImports::new(alloc, &names.tables, names.world, true) {
        Ok(reader) => match reader.read(import.module, import.name) {
            Some(_) => LinkFault::LegacyName,
            None => LinkFault::UnknownImport,
        },
        Err(_) => LinkFault::OutOfMemory,
    }
}

/// The place of what an import stands for.
fn place_of(
    alloc: Global,
    names: &CoreNames<'_>,
    reader: &CoreImports,
    import: &Import<'_>,
) -> Result<usize, LinkFault>
    requires packages { ArePackagesKnown names.now.tables.packages.now names.now.tables.interfaces.now }
    requires reader { IsReaderOfImports (names_in names.now).known names.now.world.now (counts_legacy (names_in names.now)) reader.now }
    ensures means { IfOk result (spec.IsMeaning (names_in names.now) (import_value «import».now)) }
    ensures cause { IfErr result (spec.IsImportCause (names_in names.now) (import_value «import».now)) }
{
    if is_outer_memory(import) {
        return Err(LinkFault::NotYet);
    }
    match reader.read(import.module, import.name) {
        Some(Meaning::One(place)) => Ok(place),
        Some(Meaning::Ambiguous) => Err(LinkFault::Ambiguous),
        None => Err(unknown(alloc, names, import)),
    }
}

/// The places of what imports stand for, no two of which have one pair of names.
fn places_of(
    alloc: Global,
    names: &CoreNames<'_>,
    reader: &CoreImports,
    imports: &[Import<'_>],
) -> Result<Vec<usize>, LinkFault>
    requires packages { ArePackagesKnown names.now.tables.packages.now names.now.tables.interfaces.now }
    requires reader { IsReaderOfImports (names_in names.now).known names.now.world.now (counts_legacy (names_in names.now)) reader.now }
    ensures mean { IfOk result (λ places. spec.AreMeanings (names_in names.now) (map import_value imports.now) places.items) }
    ensures distinct { IfOk result (λ places. spec.RepeatsPair (map import_value imports.now) → ⊥) }
    ensures cause { IfErr result (spec.IsImportsCause (names_in names.now) (map import_value imports.now)) }
{
    let mut seen = Pairs::new(alloc);
    let mut places = Vec::new(alloc);
    for import in imports {
        add_pair(&mut seen, import)?;
        let place = place_of(alloc, names, reader, import)?;
        places.push(place)?;
    }
    Ok(places)
}

/// What the core imports of a module stand for in a world.
#[derive(Drop)]
pub struct ImportLinks {
    reader: CoreImports,
    places: Vec<usize>,
}

impl ImportLinks {
    /// What each core import of a module stands for (Component Model, Build Targets). Answers `DuplicateImport` where two have one pair of
    /// names, `UnknownImport` where one stands for nothing, `Ambiguous` where it stands for two things, `LegacyName` where it would stand
    /// for something if legacy names weren't rejected, `NotYet` for the memory of the surroundings, and `OutOfMemory` where memory is
    /// wanting.
    pub fn new(
        alloc: Global,
        names: &CoreNames<'_>,
        imports: &[Import<'_>],
    ) -> Result<ImportLinks, LinkFault>
        requires { ArePackagesKnown names.now.tables.packages.now names.now.tables.interfaces.now }
        ensures links { IfOk result (AreLinksOf (names_in names.now) (map import_value imports.now)) }
        ensures distinct { IfOk result (λ links. spec.RepeatsPair (map import_value imports.now) → ⊥) }
        ensures cause { IfErr result (spec.IsImportsCause (names_in names.now) (map import_value imports.now)) }
    {
        let reader = CoreImports::new(alloc, &names.tables, names.world, names.counts_legacy())?;
        let places = places_of(alloc, names, &reader, imports)?;
        Ok(ImportLinks { reader, places })
    }

    /// What the core import at a place among them stands for.
    pub fn meaning<'s>(&self, names: &CoreNames<'s>, index: usize) -> WasmImport<'s>
        requires links { (is : List ImportValue) × AreLinksOf (names_in names.now) is self.now × (index < length is) }
        ensures { (is : List ImportValue) (i : ImportValue) → AreLinksOf (names_in names.entry.now) is self.now → slice_get is index ≡ Some i → spec.StandsFor (names_in names.entry.now) i (import_of result) }
    {
        // The borrow check is to know the types of what an import lends.
        let _lends: Option<(&WorldKey, &Function)> = None;
        self.reader
            .item(&names.tables, names.world, self.places[index])
    }
    /// Where the world has what the core import at a place among them stands for.
    pub fn place(&self, index: usize) -> ImportPlace
        requires links { (n : Names) × (is : List ImportValue) × AreLinksOf n is self.now × (index < length is) }
        ensures { (n : Names) (is : List ImportValue) (i : ImportValue) → AreLinksOf n is self.now → slice_get is index ≡ Some i → spec.StandsAt n i result }
    {
        self.reader.place(self.places[index])
    }
}
