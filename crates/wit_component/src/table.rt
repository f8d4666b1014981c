//! The link table: what each core import and each exported function ends at.

ghost use Rattle.std.specs.Prelude.{◌≡◌, ◌⊎◌, ◌||◌, ◌&&◌, ◌++◌, ◌∷◌, [], ℕ, List, map, if◌then◌else◌, IfOk, IfErr, OnOk, bytes_eq, string_bytes, true, false};
ghost use Rattle.std.specs.List.{list_any};
ghost use Rattle.distinct_names.specs.Names.{is_new};
ghost use Rattle.wit_component.specs.Candidates.{candidates, with_one, joined, Stands, Notes, has_hook, has_post_return, named_by, NameAdded, IsNameCause};
ghost use Rattle.wit_component.specs.Cause.{IsImportCause, IsExportCause, IsLinkCause, IsLinkable, IsStillToCome, RepeatsPair};
ghost use Rattle.wit_component.specs.CoreNames.{root, standard, is_export_name, is_memory_name, is_outer_memory};
ghost use Rattle.wit_component.specs.Linking.{core_import};
ghost use Rattle.wit_component.specs.Places.{ImportPlace, ExportPlace, Placed, names_under, ArePlaces};
ghost use Rattle.wit_component.specs.Table.{needed};
ghost use Rattle.plain_worlds.specs.World.{function_item};
ghost use Rattle.wit_component.specs.View as view;
ghost use Rattle.wasm_types.specs.Entries.{import_value, export_value};
ghost use Rattle.wasm_format.specs.Module.{module_value};

use crate::fault::Fault;
use crate::linking::{Linking, is_of_type};
use distinct_names::Names;
use indexmap::IndexMap;
use plain_worlds::Function;
use std::alloc::{AllocError, Global};
use wasm_format::{Export, Import};

/// The import text of the world's own functions in the legacy mangling.
pub const ROOT: &str = "$root";

/// The import text of the world's own functions in the standard mangling.
pub const STANDARD: &str = "cm32p2";

/// What the export texts of the standard mangling begin with.
const STANDARD_EXPORT: &str = "cm32p2||";

/// The link table of one main module.
#[derive(Drop)]
pub struct Table<'a> {
    /// The names that are imported under the legacy module text.
    pub legacy: Names<'a>,
    /// The names that are imported under the standard module text.
    pub standard: Names<'a>,
    /// For each core import, in order, the place of its function among the world's imports.
    pub imports: Vec<usize>,
    /// For each function that the world exports, in order, the place of its core export.
    pub exports: Vec<usize>,
}

/// The items that have a text: the place of the one, or that there are several.
#[derive(Clone, Copy)]
enum Candidates {
    One(usize),
    Several,
}

/// One more item, of this place.
fn with_one(found: Option<Candidates>, place: usize) -> Candidates
    ensures { result ≡ with_one found place }
{
    match found {
        None => Candidates::One(place),
        Some(_) => Candidates::Several,
    }
}

/// Notes that an item has a text.
fn note<'s>(
    places: &mut IndexMap<&'s str, Candidates>,
    text: &'s str,
    place: usize,
) -> Result<(), AllocError>
    ensures { OnOk result ((q : List ℕ) → candidates places.new q ≡ (if bytes_eq text.entry.now q then Some (with_one (candidates places.old q) place) else candidates places.old q)) }
{
    let found = with_one(places.get(text).copied(), place);
    places.insert(text, found)?;
    Ok(())
}

/// The places of functions by their names.
fn places_of<'s>(
    alloc: Global,
    functions: &'s [Function],
) -> Result<IndexMap<&'s str, Candidates>, AllocError>
    ensures { IfOk result (λ m. Notes (λ f. f.name) (map function_item functions.now) (candidates m)) }
{
    let mut places = IndexMap::new(alloc);
    for (place, function) in functions.iter().enumerate() {
        note(&mut places, function.name.as_str(), place)?;
    }
    Ok(places)
}

/// The places of core exports by their texts.
fn texts_of<'a>(
    alloc: Global,
    exports: &[Export<'a>],
) -> Result<IndexMap<&'a str, Candidates>, AllocError>
    ensures { IfOk result (λ m. Notes (λ e. e.name) (map export_value exports.now) (candidates m)) }
{
    let mut texts = IndexMap::new(alloc);
    for (place, export) in exports.iter().enumerate() {
        note(&mut texts, export.name, place)?;
    }
    Ok(texts)
}

/// A text in two parts.
fn text_of(alloc: Global, front: &str, back: &str) -> Result<String, AllocError>
    ensures { IfOk result (λ s. string_bytes s ≡ front.now ++ back.now) }
{
    let mut text = String::from_str(alloc, front)?;
    text.push_str(back)?;
    Ok(text)
}

/// The places of the core exports of what the world exports. Answers X1 where the module asks for, or offers, what is still
/// to come.
fn checked_exports(alloc: Global, linking: &Linking) -> Result<Vec<usize>, Fault>
    ensures places { IfOk result (λ v. Placed (ExportPlace (view.linking linking.now)) (view.linking linking.now).world.exports v.items) }
    ensures plain { IfOk result (λ v. IsStillToCome (view.linking linking.now) → ⊥) }
    ensures cause { IfErr result (IsLinkCause (view.linking linking.now)) }
{
    let texts = texts_of(alloc, &linking.main.exports)?;
    if is_still_to_come(alloc, linking, &texts)? {
        return Err(Fault::NotYet);
    }
    export_places(alloc, linking, &texts)
}

/// The link table. Answers X1 where the module asks for, or offers, what is still to come, and B7 to B12.
pub fn table_of<'a>(alloc: Global, linking: &Linking<'_, 'a>) -> Result<Table<'a>, Fault>
    ensures found { IfOk result (λ t. ArePlaces (view.linking linking.now) (view.places t)) }
    ensures linkable { IfOk result (λ t. IsLinkable (view.linking linking.now)) }
    ensures cause { IfErr result (IsLinkCause (view.linking linking.now)) }
{
    let exports = checked_exports(alloc, linking)?;
    let mut table = Table {
        legacy: Names::new(alloc),
        standard: Names::new(alloc),
        imports: Vec::new(alloc),
        exports,
    };
    add_imports(alloc, linking, &mut table)?;
    Ok(table)
}

/// Whether a module asks for, or offers, what is still to come.
fn is_still_to_come(
    alloc: Global,
    linking: &Linking,
    texts: &IndexMap<&str, Candidates>,
) -> Result<bool, AllocError>
    ensures { IfOk result (λ b. b ≡ (list_any (λ i. is_outer_memory i.place i.name) (map import_value linking.now.main.imports.items) || (has_hook linking.now.rejects_legacy (candidates texts.now) || list_any (λ f. has_post_return linking.now.rejects_legacy (candidates texts.now) f.name) (map function_item linking.now.world.now.exports.items)))) }
{
    if asks_for_memory(&linking.main.imports) || has_hook(linking.rejects_legacy, texts) {
        return Ok(true);
    }
    for function in &linking.world.exports {
        if has_post_return(alloc, linking.rejects_legacy, texts, &function.name)? {
            return Ok(true);
        }
    }
    Ok(false)
}

/// Whether the memory of the surroundings is imported.
fn asks_for_memory(imports: &[Import]) -> bool
    ensures { result ≡ list_any (λ i. is_outer_memory i.place i.name) (map import_value imports.now) }
{
    for import in imports {
        if import.module == "env" && import.name == "memory" {
            return true;
        }
    }
    false
}

/// Whether a core export is the hook, or initializes.
fn has_hook(rejects_legacy: bool, texts: &IndexMap<&str, Candidates>) -> bool
    ensures { result ≡ has_hook rejects_legacy (candidates texts.now) }
{
    texts.contains_key("__wasm_task_hook")
        || texts.contains_key("cm32p2_initialize")
        || (!rejects_legacy && texts.contains_key("_initialize"))
}

/// Whether a core export is the post-return of an exported function.
fn has_post_return(
    alloc: Global,
    rejects_legacy: bool,
    texts: &IndexMap<&str, Candidates>,
    name: &str,
) -> Result<bool, AllocError>
    ensures { IfOk result (λ b. b ≡ has_post_return rejects_legacy (candidates texts.now) name.now) }
{
    let function = text_of(alloc, STANDARD_EXPORT, name)?;
    let standard = text_of(alloc, &function, "_post")?;
    if texts.contains_key(standard.as_str()) {
        return Ok(true);
    }
    let legacy = text_of(alloc, "cabi_post_", name)?;
    Ok(!rejects_legacy && texts.contains_key(legacy.as_str()))
}

/// Adds for each core import the place of its function.
fn add_imports<'a>(
    alloc: Global,
    linking: &Linking<'_, 'a>,
    table: &mut Table<'a>,
) -> Result<(), Fault>
    requires legacy { table.old.legacy ≡ [] }
    requires standard { table.old.standard ≡ [] }
    requires imports { table.old.imports.items ≡ [] }
    requires plain { IsStillToCome (view.linking linking.now) → ⊥ }
    ensures legacy { OnOk result (table.new.legacy ≡ names_under (view.linking linking.now) root) }
    ensures standard { OnOk result (table.new.standard ≡ names_under (view.linking linking.now) standard) }
    ensures imports { OnOk result (Placed (ImportPlace (view.linking linking.now)) (view.linking linking.now).main.imports table.new.imports.items) }
    ensures distinct { OnOk result (RepeatsPair (view.linking linking.now).main.imports → ⊥) }
    ensures exports { OnOk result (table.new.exports ≡ table.old.exports) }
    ensures cause { IfErr result (IsLinkCause (view.linking linking.now)) }
{
    let places = places_of(alloc, &linking.world.imports)?;
    add_places(linking, &places, table)
}

/// The same by the places of the world's imports.
fn add_places<'a>(
    linking: &Linking<'_, 'a>,
    places: &IndexMap<&str, Candidates>,
    table: &mut Table<'a>,
) -> Result<(), Fault>
    requires places { Notes (λ f. f.name) (view.linking linking.now).world.imports (candidates places.now) }
    requires legacy { table.old.legacy ≡ [] }
    requires standard { table.old.standard ≡ [] }
    requires imports { table.old.imports.items ≡ [] }
    requires plain { IsStillToCome (view.linking linking.now) → ⊥ }
    ensures legacy { OnOk result (table.new.legacy ≡ names_under (view.linking linking.now) root) }
    ensures standard { OnOk result (table.new.standard ≡ names_under (view.linking linking.now) standard) }
    ensures imports { OnOk result (Placed (ImportPlace (view.linking linking.now)) (view.linking linking.now).main.imports table.new.imports.items) }
    ensures distinct { OnOk result (RepeatsPair (view.linking linking.now).main.imports → ⊥) }
    ensures exports { OnOk result (table.new.exports ≡ table.old.exports) }
    ensures cause { IfErr result (IsLinkCause (view.linking linking.now)) }
{
    for import in &linking.main.imports {
        add_name(table, import)?;
        let place = import_place(linking, places.get(import.name).copied(), import)?;
        table.imports.push(place)?;
    }
    Ok(())
}

/// Adds the name of a core import under its module text, where it isn't there yet.
fn add_name<'a>(table: &mut Table<'a>, import: &Import<'a>) -> Result<(), Fault>
    ensures added { OnOk result (NameAdded table.old table.new import.now.module.now import.now.name.now) }
    ensures cause { IfErr result (IsNameCause table.old import.now.module.now import.now.name.now) }
{
    if import.module == STANDARD {
        add_once(&mut table.standard, import.name)?;
    } else if import.module == ROOT {
        add_once(&mut table.legacy, import.name)?;
    } else {
        return Err(Fault::UnknownImport);
    }
    Ok(())
}

/// Adds a name that isn't there yet.
fn add_once<'a>(seen: &mut Names<'a>, name: &'a str) -> Result<(), Fault>
    ensures fresh { OnOk result (is_new seen.old name.entry.now ≡ true) }
    ensures added { OnOk result (seen.new ≡ seen.old ++ name.entry.now ∷ []) }
    ensures cause { IfErr result (λ e. (e ≡ Fault.OutOfMemory) ⊎ ((e ≡ Fault.DuplicateImport) × (is_new seen.old name.entry.now ≡ false))) }
{
    if !seen.is_new(name) {
        return Err(Fault::DuplicateImport);
    }
    seen.add(name)?;
    Ok(())
}

/// Whether a module text is legacy, and those are rejected.
fn is_rejected(rejects_legacy: bool, module_text: &str) -> bool
    ensures { result ≡ (rejects_legacy && bytes_eq module_text.now root) }
{
    rejects_legacy && module_text == ROOT
}

/// The place of the function that a core import stands for, by the functions of its name.
fn import_place(
    linking: &Linking,
    found: Option<Candidates>,
    import: &Import,
) -> Result<usize, Fault>
    requires known { (bytes_eq import.now.module.now standard || bytes_eq import.now.module.now root) ≡ true }
    requires stands { Stands (λ f. bytes_eq f.name import.now.name.now) (view.linking linking.now).world.imports found }
    ensures place { IfOk result (ImportPlace (view.linking linking.now) (core_import (module_value linking.now.main) (import_value import.now))) }
    ensures cause { IfErr result (λ e. IsImportCause (view.linking linking.now) e (core_import (module_value linking.now.main) (import_value import.now))) }
{
    let Some(found) = found else {
        return Err(Fault::UnknownImport);
    };
    if is_rejected(linking.rejects_legacy, import.module) {
        return Err(Fault::LegacyName);
    }
    let Candidates::One(place) = found else {
        return Err(Fault::Ambiguous);
    };
    let Some(function) = linking.world.imports.get(place) else {
        return Err(Fault::UnknownImport);
    };
    if !is_of_type(linking.import_type(import), function) {
        return Err(Fault::WrongCoreType);
    }
    Ok(place)
}

/// For each exported function the place of its core export.
fn export_places(
    alloc: Global,
    linking: &Linking,
    texts: &IndexMap<&str, Candidates>,
) -> Result<Vec<usize>, Fault>
    requires { Notes (λ e. e.name) (map export_value linking.now.main.exports.items) (candidates texts.now) }
    ensures places { IfOk result (λ v. Placed (ExportPlace (view.linking linking.now)) (view.linking linking.now).world.exports v.items) }
    ensures cause { IfErr result (IsLinkCause (view.linking linking.now)) }
{
    let mut places = Vec::new(alloc);
    for function in &linking.world.exports {
        let found = named_by(alloc, linking.rejects_legacy, texts, &function.name)?;
        places.push(export_place(linking, found, function)?)?;
    }
    Ok(places)
}

/// The core exports that stand for an exported function.
fn named_by(
    alloc: Global,
    rejects_legacy: bool,
    texts: &IndexMap<&str, Candidates>,
    name: &str,
) -> Result<Option<Candidates>, AllocError>
    ensures { IfOk result (λ o. o ≡ named_by rejects_legacy (candidates texts.now) name.now) }
{
    let standard = text_of(alloc, STANDARD_EXPORT, name)?;
    let found = texts.get(standard.as_str()).copied();
    if rejects_legacy {
        return Ok(found);
    }
    Ok(joined(found, texts.get(name).copied()))
}

/// Those of either kind.
fn joined(found: Option<Candidates>, other: Option<Candidates>) -> Option<Candidates>
    ensures { result ≡ joined found other }
{
    match (found, other) {
        (None, other) => other,
        (found, None) => found,
        _ => Some(Candidates::Several),
    }
}

/// Whether a text is the memory's.
fn is_memory_name(rejects_legacy: bool, name: &str) -> bool
    ensures { result ≡ is_memory_name rejects_legacy name.now }
{
    name == "cm32p2_memory" || (!rejects_legacy && name == "memory")
}

/// The place of the one core export of a function, by those that stand for it.
fn export_place(
    linking: &Linking,
    found: Option<Candidates>,
    function: &Function,
) -> Result<usize, Fault>
    requires { Stands (λ e. is_export_name linking.now.rejects_legacy (function_item function.now).name e.name) (view.linking linking.now).main.exports found }
    ensures place { IfOk result (ExportPlace (view.linking linking.now) (function_item function.now)) }
    ensures cause { IfErr result (λ e. IsExportCause (view.linking linking.now) e (function_item function.now)) }
{
    let Some(found) = found else {
        return Err(Fault::MissingCoreExport);
    };
    let Candidates::One(place) = found else {
        return Err(Fault::Ambiguous);
    };
    let Some(export) = linking.main.exports.get(place) else {
        return Err(Fault::MissingCoreExport);
    };
    // The memory has the same text, so it has two meanings.
    if is_memory_name(linking.rejects_legacy, export.name) {
        return Err(Fault::Ambiguous);
    }
    if !is_of_type(linking.export_type(export), function) {
        return Err(Fault::WrongCoreType);
    }
    Ok(place)
}

/// The functions of the world that core imports stand for, in the order of the world.
pub fn needed_functions<'s>(
    alloc: Global,
    linking: &Linking<'s, '_>,
    table: &Table,
) -> Result<Vec<&'s Function>, AllocError>
    requires { ArePlaces (view.linking linking.now) (view.places table.now) }
    ensures { IfOk result (λ v. map (λ f. function_item f.now) v.items ≡ needed (view.linking linking.now)) }
{
    let mut needed = Vec::new(alloc);
    for function in &linking.world.imports {
        let name = function.name.as_str();
        if !table.legacy.is_new(name) || !table.standard.is_new(name) {
            needed.push(function)?;
        }
    }
    Ok(needed)
}

/// Each of these functions.
pub fn references<'e>(
    alloc: Global,
    functions: &'e [Function],
) -> Result<Vec<&'e Function>, AllocError>
    ensures { IfOk result (λ v. map (λ f. function_item f.now) v.items ≡ map function_item functions.entry.now) }
{
    let mut found = Vec::new(alloc);
    for function in functions {
        found.push(function)?;
    }
    Ok(found)
}
