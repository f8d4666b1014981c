//! Whether a component is right for its input.

ghost use Rattle.std.specs.Prelude.{◌≡◌, ◌≢◌, ◌⊎◌, ◌≤◌, ◌++◌, nat_le, ℕ, List, Option, [], None, Any, bytes_eq, map, option_map, slice_get, string_bytes, true, length, IfOk, IfErr, IfSome, OnOk};
ghost use Rattle.std.specs.Bool.{Decides};
ghost use Rattle.std.specs.Cmp.Lexicographic.{pointwise};
ghost use Rattle.std.specs.List.{list_all, AllByRecursion as Each};
ghost use Rattle.wasm_types.specs.Entries.{import_value, export_value};
ghost use Rattle.wasm_format.specs.Module.{module_value};
ghost use Rattle.known_definitions.specs.Definition.{function_type_value, parameter_value, definition_values};
ghost use Rattle.known_definitions.specs.Definition.{AreWithin as DefinitionsWithin};
ghost use Rattle.distinct_names.specs.Names.{all_new};
ghost use Rattle.component_sections.specs.Component.{BreaksComponent};
ghost use Rattle.wit_component.specs.Linking.{Linking as LinkingValue, core_import, core_export};
ghost use Rattle.wit_component.specs.Cause.{IsLinkable};
ghost use Rattle.component_audit.specs.Tests.{Finds, IsOutside, IsSoFar, function_named, is_listed, is_there, is_export_of, is_lift_of, is_import_of, is_lowering_of, IsOwnExport};
ghost use Rattle.component_audit.specs.Judged.{IsBeyond, IsJudgeCause, Says, SaysOf};
ghost use Rattle.wit_component.specs.Meaning as meant;
ghost use Rattle.wit_component.specs.Places.{ArePlaces, ImportPlace};
ghost use Rattle.wit_component.specs.Right.{IsIn, IsOnce, IsGiven, EachGiven, TakesOwn, LiftsOwn, ImportsRight, LinksRight, type_seen};
ghost use Rattle.component_audit.specs.SpacesView as seen;
ghost use Rattle.wit_component.specs.View as view;
ghost use Rattle.plain_worlds.specs.World.{FunctionItem, function_item, param_item, world_fits};

use crate::spaces::{
    ComponentFunction, CoreFunction, CoreInstance, CoreOrigin, ExportEntry, ImportEntry, Origin,
    Spaces, core_at, function_at, same_result,
};
use crate::verdict::Verdict;
use crate::walk::{Walk, all_there, is_of_type};
use binary_grammar::ReadError;
use component_sections::read_definitions;
use known_definitions::{FunctionType, KnownDefinition, Parameter, known_definitions};
use name_places::FirstPlaces;
use plain_worlds::{Function, Param};
use std::alloc::{AllocError, Global};
use wasm_format::{Export, Import};
use wit_component::{Fault, FindingKind, Linking, Table, needed_functions, references, table_of};

/// Judges bytes against what is linked: yes where they meet each condition of being right, and else a finding, a condition
/// that fails of them, and where.
///
/// Refuses as `table_of` does, and with X1 where the bytes have a definition that index meaning doesn't know, or a core module
/// other than the main one: of such bytes no verdict is given.
pub fn judge(alloc: Global, linking: &Linking, bytes: &[u8]) -> Result<Verdict, Fault>
    requires { world_fits (view.linking linking.now).world ≡ true }
    ensures verdict { IfOk result (Says (view.linking linking.now) bytes.now) }
    ensures linkable { IfOk result (λ v. IsLinkable (view.linking linking.now)) }
    ensures here { OnOk result (IsBeyond (view.linking linking.now) bytes.now → ⊥) }
    ensures cause { IfErr result (IsJudgeCause (view.linking linking.now) bytes.now) }
{
    let table = table_of(alloc, linking)?;
    judge_bytes(alloc, linking, &table, bytes)
}

/// Judges bytes, where this is the link table.
fn judge_bytes(
    alloc: Global,
    linking: &Linking,
    table: &Table,
    bytes: &[u8],
) -> Result<Verdict, Fault>
    requires fits { world_fits (view.linking linking.now).world ≡ true }
    requires places { ArePlaces (view.linking linking.now) (view.places table.now) }
    requires linkable { IsLinkable (view.linking linking.now) }
    ensures verdict { IfOk result (Says (view.linking linking.now) bytes.now) }
    ensures here { OnOk result (IsBeyond (view.linking linking.now) bytes.now → ⊥) }
    ensures cause { IfErr result (IsJudgeCause (view.linking linking.now) bytes.now) }
{
    let definitions = match read_definitions(alloc, bytes) {
        Ok(definitions) => definitions,
        Err(ReadError::Memory) => return Err(Fault::OutOfMemory),
        Err(ReadError::Malformed(fault)) => return Ok(format_finding(bytes, fault)),
    };
    let Some(known) = known_definitions(alloc, &definitions)? else {
        return Err(Fault::NotYet);
    };
    judge_component(alloc, linking, table, &known, bytes.len())
}

/// What is said of bytes that break a rule of the grammar of components: F1, and where.
fn format_finding(bytes: &[u8], fault: binary_grammar::Fault) -> Verdict
    requires { BreaksComponent bytes.now fault }
    ensures { (l : LinkingValue) → Says l bytes.now result }
{
    Verdict::Finding(FindingKind::Format, bytes.len() - fault.left)
}

/// Judges a component of so many bytes.
fn judge_component<'c>(
    alloc: Global,
    linking: &'c Linking<'c, 'c>,
    table: &Table,
    definitions: &'c [KnownDefinition<'c>],
    length: usize,
) -> Result<Verdict, Fault>
    requires fits { world_fits (view.linking linking.now).world ≡ true }
    requires places { ArePlaces (view.linking linking.now) (view.places table.now) }
    requires within { DefinitionsWithin length definitions.now }
    ensures verdict { IfOk result (SaysOf (view.linking linking.entry.now) (meant.meaning (view.linking linking.entry.now).main (definition_values definitions.entry.now)) length) }
    ensures handed { OnOk result (Any (λ m. m ≢ (view.linking linking.entry.now).main.bytes) (meant.meaning (view.linking linking.entry.now).main (definition_values definitions.entry.now)).modules → ⊥) }
    ensures cause { IfErr result (λ e. (e ≡ Fault.OutOfMemory) ⊎ ((e ≡ Fault.NotYet) × Any (λ m. m ≢ (view.linking linking.entry.now).main.bytes) (meant.meaning (view.linking linking.entry.now).main (definition_values definitions.entry.now)).modules)) }
{
    let walk = walk_over(alloc, linking, definitions, length)?;
    if !are_handed(linking, &walk.spaces) {
        return Err(Fault::NotYet);
    }
    judge_spaces(alloc, linking, table, &walk.spaces, length)
}

/// A walk over all definitions of a component of so many bytes.
fn walk_over<'c>(
    alloc: Global,
    linking: &'c Linking<'c, 'c>,
    definitions: &'c [KnownDefinition<'c>],
    length: usize,
) -> Result<Walk<'c>, Fault>
    requires { DefinitionsWithin length definitions.now }
    ensures spaces { IfOk result (λ w. seen.spaces (view.linking linking.entry.now).main w.spaces ≡ meant.meaning (view.linking linking.entry.now).main (definition_values definitions.entry.now)) }
    ensures within { IfOk result (λ w. seen.AreWithin length w.spaces) }
    ensures memory { IfErr result (λ e. e ≡ Fault.OutOfMemory) }
{
    let mut walk = Walk::new(alloc, linking, length)?;
    for definition in definitions {
        walk.step(definition)?;
    }
    Ok(walk)
}

/// Whether each core module is the one that was handed in.
fn are_handed(linking: &Linking, spaces: &Spaces) -> bool
    ensures { result ≡ list_all (λ m. bytes_eq m linking.now.bytes.now) (map seen.module_bytes spaces.now.modules.items) }
{
    for found in &spaces.modules {
        if found.bytes != linking.bytes {
            return false;
        }
    }
    true
}

/// Judges what the definitions of a component of so many bytes stand for, where each core module is the one that was handed in.
fn judge_spaces(
    alloc: Global,
    linking: &Linking,
    table: &Table,
    spaces: &Spaces,
    length: usize,
) -> Result<Verdict, Fault>
    requires fits { world_fits (view.linking linking.now).world ≡ true }
    requires places { ArePlaces (view.linking linking.now) (view.places table.now) }
    requires within { seen.AreWithin length spaces.now }
    requires handed { Each (λ m. m ≡ (view.linking linking.now).main.bytes) (seen.spaces (view.linking linking.now).main spaces.now).modules }
    ensures verdict { IfOk result (SaysOf (view.linking linking.now) (seen.spaces (view.linking linking.now).main spaces.now) length) }
    ensures memory { IfErr result (λ e. e ≡ Fault.OutOfMemory) }
{
    if let Some(offset) = instances_finding(&spaces.instances, length) {
        return Ok(Verdict::Finding(FindingKind::Module, offset));
    }
    if let Some(offset) = imports_finding(alloc, linking, table, spaces, length)? {
        return Ok(Verdict::Finding(FindingKind::Import, offset));
    }
    let exports = Listed::new(alloc, &linking.world.exports)?;
    if let Some(offset) = exports_finding(alloc, &exports, spaces, length)? {
        return Ok(Verdict::Finding(FindingKind::Export, offset));
    }
    if let Some(offset) = links_finding(linking, table, &exports, spaces) {
        return Ok(Verdict::Finding(FindingKind::Link, offset));
    }
    Ok(Verdict::Yes)
}

/// Where the main module is instantiated once more, or without all that it asks; the end, where it is never.
fn instances_finding(instances: &[CoreInstance], length: usize) -> Option<usize>
    requires { list_all (seen.is_within length) instances.now ≡ true }
    ensures { Finds length (IsOnce (seen.all_given instances.now)) result }
{
    let mut found = false;
    for instance in instances {
        match one_more(found, instance) {
            Ok(now) => found = now,
            Err(offset) => return Some(offset),
        }
    }
    if found { None } else { Some(length) }
}

/// Whether the main module is instantiated by now, where it was before or not; or where it is once more, or without all that it asks.
fn one_more(found: bool, instance: &CoreInstance) -> Result<bool, usize>
    ensures ok { (front : List (List (Option meant.CoreFunction))) → IsSoFar found front → IfOk result (λ now. IsSoFar now (front ++ meant.given_by (seen.source instance.now))) }
    ensures err { (front more : List (List (Option meant.CoreFunction))) → IsSoFar found front → IfErr result (λ at. IsOnce (front ++ (meant.given_by (seen.source instance.now) ++ more)) → ⊥) }
    ensures within { (n : ℕ) → seen.is_within n instance.now ≡ true → IfErr result (λ at. at ≤ n) }
{
    match instance {
        CoreInstance::Main(given) => {
            if found {
                return Err(given.offset);
            }
            if !all_there(&given.functions) {
                return Err(given.offset);
            }
            Ok(true)
        }
        CoreInstance::Unknown | CoreInstance::Inline(_) => Ok(found),
    }
}

/// The functions of one side of a world, found by their names.
#[derive(Drop)]
struct Listed<'w> {
    functions: &'w [Function],
    places: FirstPlaces<'w>,
    ghost named: { places ≡ map (λ f. string_bytes f.name) functions.now },
}

impl<'w> Listed<'w> {
    fn new(alloc: Global, functions: &'w [Function]) -> Result<Listed<'w>, AllocError>
        ensures { IfOk result (λ l. l.functions.now ≡ functions.entry.now) }
    {
        let mut places = FirstPlaces::new(alloc);
        for function in functions {
            places.push(function.name.as_str())?;
        }
        Ok(Listed { functions, places })
    }

    /// The function at a place.
    fn at(&self, place: usize) -> Option<&Function>
        ensures { option_map (λ f. function_item f.now) result ≡ slice_get (map function_item self.now.functions.now) place }
    {
        let function = self.functions.get(place)?;
        Some(function)
    }

    /// The function of a name.
    fn find(&self, name: &str) -> Option<&Function>
        ensures { option_map (λ f. function_item f.now) result ≡ function_named name.now (map function_item self.now.functions.now) }
    {
        match self.places.first(name) {
            Some(place) => self.at(place),
            None => None,
        }
    }

    /// Whether an import, or an export as the outside sees it, is one of the functions.
    fn has(&self, entry: &ImportEntry) -> bool
        ensures { result ≡ is_listed (map function_item self.now.functions.now) (seen.import_entry entry.now) }
    {
        match (self.find(entry.name), entry.item) {
            (Some(function), Some(ty)) => has_type(function, ty),
            _ => false,
        }
    }
}

/// Whether a function of the world has this type.
fn has_type(function: &Function, ty: &FunctionType) -> bool
    ensures { result ≡ meant.same_type (function_item function.now).ty (function_type_value ty.now) }
{
    have_types(&function.params, &ty.params) && same_result(function.result, ty.result)
}

/// Whether parameters of the world are these, in the same order.
fn have_types(a: &[Param], b: &[Parameter]) -> bool
    ensures { result ≡ pointwise meant.same_parameter (map param_item a.now) (map parameter_value b.now) }
{
    if a.len() != b.len() {
        return false;
    }
    for (place, p) in a.iter().enumerate() {
        if !is_parameter(p, &b[place]) {
            return false;
        }
    }
    true
}

/// Whether a parameter of the world is this one.
fn is_parameter(a: &Param, b: &Parameter) -> bool
    ensures { result ≡ meant.same_parameter (param_item a.now) (parameter_value b.now) }
{
    a.name.as_str() == b.name && a.ty == b.ty
}

/// Where the first entry stands that isn't listed.
fn first_unlisted(listed: &Listed, entries: &[ImportEntry]) -> Option<usize>
    ensures { (n : ℕ) → list_all (λ e. nat_le e.offset n) entries.now ≡ true → Finds n (Each (λ e. is_listed (map function_item listed.now.functions.now) e ≡ true) (map seen.import_entry entries.now)) result }
{
    for entry in entries {
        if !listed.has(entry) {
            return Some(entry.offset);
        }
    }
    None
}

/// The names of entries, found by them.
fn names_of<'c>(alloc: Global, entries: &[ImportEntry<'c>]) -> Result<FirstPlaces<'c>, AllocError>
    ensures { IfOk result (λ p. p ≡ map (λ e. e.name.now) entries.now) }
{
    let mut names = FirstPlaces::new(alloc);
    for entry in entries {
        names.push(entry.name)?;
    }
    Ok(names)
}

/// Whether the names have each function's.
fn are_there(names: &FirstPlaces, functions: &[&Function]) -> bool
    ensures { result ≡ list_all (is_there names.now) (map (λ f. function_item f.now) functions.now) }
{
    for function in functions {
        if names.first(function.name.as_str()).is_none() {
            return false;
        }
    }
    true
}

/// Where one side of the outside isn't as the world lists it: an entry that isn't listed, or the end, where a wanted
/// function isn't there.
fn outside_finding(
    alloc: Global,
    listed: &Listed,
    wanted: &[&Function],
    entries: &[ImportEntry],
    length: usize,
) -> Result<Option<usize>, AllocError>
    requires distinct { all_new [] (map (λ f. f.name) (map function_item listed.now.functions.now)) ≡ true }
    requires among { (f : FunctionItem) → IsIn f (map (λ f. function_item f.now) wanted.now) → IsIn f (map function_item listed.now.functions.now) }
    requires within { list_all (λ e. nat_le e.offset length) entries.now ≡ true }
    ensures { IfOk result (Finds length (IsOutside (map function_item listed.now.functions.now) (map (λ f. function_item f.now) wanted.now) (map seen.import_entry entries.now))) }
{
    if let Some(offset) = first_unlisted(listed, entries) {
        return Ok(Some(offset));
    }
    let names = names_of(alloc, entries)?;
    if !are_there(&names, wanted) {
        return Ok(Some(length));
    }
    Ok(None)
}

/// Each import is listed by the world, and each that links need is there.
fn imports_finding(
    alloc: Global,
    linking: &Linking,
    table: &Table,
    spaces: &Spaces,
    length: usize,
) -> Result<Option<usize>, AllocError>
    requires fits { world_fits (view.linking linking.now).world ≡ true }
    requires places { ArePlaces (view.linking linking.now) (view.places table.now) }
    requires within { seen.AreWithin length spaces.now }
    ensures { IfOk result (Finds length (ImportsRight (view.linking linking.now) (seen.spaces (view.linking linking.now).main spaces.now))) }
{
    let listed = Listed::new(alloc, &linking.world.imports)?;
    let needed = needed_functions(alloc, linking, table)?;
    outside_finding(alloc, &listed, &needed, &spaces.imports, length)
}

/// Exports as the outside sees them.
fn types_seen<'c>(
    alloc: Global,
    entries: &[ExportEntry<'c>],
) -> Result<Vec<ImportEntry<'c>>, AllocError>
    ensures seen { IfOk result (λ v. map seen.import_entry v.items ≡ map type_seen (map seen.export_entry entries.now)) }
    ensures within { (n : ℕ) → list_all (λ e. nat_le e.offset n) entries.now ≡ true → IfOk result (λ v. list_all (λ e. nat_le e.offset n) v.items ≡ true) }
{
    let mut found = Vec::new(alloc);
    for entry in entries {
        found.push(type_of(entry))?;
    }
    Ok(found)
}

/// An export as the outside sees it.
fn type_of<'c>(entry: &ExportEntry<'c>) -> ImportEntry<'c>
    ensures seen { seen.import_entry result ≡ type_seen (seen.export_entry entry.now) }
    ensures offset { result.offset ≡ entry.now.offset }
{
    let item = match entry.item {
        Some(function) => Some(function.ty),
        None => None,
    };
    ImportEntry {
        offset: entry.offset,
        name: entry.name,
        item,
    }
}

/// The exports are exactly the world's.
fn exports_finding(
    alloc: Global,
    exports: &Listed,
    spaces: &Spaces,
    length: usize,
) -> Result<Option<usize>, AllocError>
    requires distinct { all_new [] (map (λ f. f.name) (map function_item exports.now.functions.now)) ≡ true }
    requires within { seen.AreWithin length spaces.now }
    ensures { IfOk result (Finds length (IsOutside (map function_item exports.now.functions.now) (map function_item exports.now.functions.now) (map type_seen (map seen.export_entry spaces.now.exports.items)))) }
{
    let wanted = references(alloc, exports.functions)?;
    let entries = types_seen(alloc, &spaces.exports)?;
    outside_finding(alloc, exports, &wanted, &entries, length)
}

/// Each core import is given the lowering of its own function, and each export lifts its own core export.
fn links_finding(
    linking: &Linking,
    table: &Table,
    exports: &Listed,
    spaces: &Spaces,
) -> Option<usize>
    requires places { ArePlaces (view.linking linking.now) (view.places table.now) }
    requires listed { exports.now.functions.now ≡ linking.now.world.now.exports.items }
    requires distinct { all_new [] (map (λ f. f.name) (view.linking linking.now).world.exports) ≡ true }
    ensures { (n : ℕ) → seen.AreWithin n spaces.now → Finds n (LinksRight (view.linking linking.now) (seen.spaces (view.linking linking.now).main spaces.now)) result }
{
    match first_wrong_given(linking, table, spaces) {
        Some(offset) => Some(offset),
        None => first_wrong_lift(linking, table, exports, spaces),
    }
}

/// Where the first instance of the main module stands that isn't given the lowerings of its own functions.
fn first_wrong_given(linking: &Linking, table: &Table, spaces: &Spaces) -> Option<usize>
    requires { ArePlaces (view.linking linking.now) (view.places table.now) }
    ensures { (n : ℕ) → list_all (seen.is_within n) spaces.now.instances.items ≡ true → Finds n (Each (λ i. TakesOwn (view.linking linking.now) (seen.spaces (view.linking linking.now).main spaces.now) i.source) (map (seen.instance (view.linking linking.now).main) spaces.now.instances.items)) result }
{
    for instance in &spaces.instances {
        if let Some(offset) = wrong_given(linking, table, spaces, instance) {
            return Some(offset);
        }
    }
    None
}

/// Where an instance of the main module stands, if it isn't given the lowerings of its own functions.
fn wrong_given(
    linking: &Linking,
    table: &Table,
    spaces: &Spaces,
    instance: &CoreInstance,
) -> Option<usize>
    requires { ArePlaces (view.linking linking.now) (view.places table.now) }
    ensures right { result ≡ None → TakesOwn (view.linking linking.now) (seen.spaces (view.linking linking.now).main spaces.now) (seen.source instance.now) }
    ensures wrong { IfSome result (λ at. TakesOwn (view.linking linking.now) (seen.spaces (view.linking linking.now).main spaces.now) (seen.source instance.now) → ⊥) }
    ensures within { (n : ℕ) → seen.is_within n instance.now ≡ true → IfSome result (λ at. at ≤ n) }
{
    match instance {
        CoreInstance::Main(given) => {
            if takes_own(linking, table, spaces, &given.functions) {
                None
            } else {
                Some(given.offset)
            }
        }
        CoreInstance::Unknown | CoreInstance::Inline(_) => None,
    }
}

/// Whether each core import is given the lowering of its own function.
fn takes_own(
    linking: &Linking,
    table: &Table,
    spaces: &Spaces,
    functions: &[Option<CoreFunction>],
) -> bool
    requires { ArePlaces (view.linking linking.now) (view.places table.now) }
    ensures { Decides result (EachGiven (view.linking linking.now) (seen.spaces (view.linking linking.now).main spaces.now) (view.linking linking.now).main.imports (map (option_map seen.core_function) functions.now)) }
{
    if functions.len() != linking.main.imports.len() {
        return false;
    }
    for (index, import) in linking.main.imports.iter().enumerate() {
        if !is_own_lowering(
            linking,
            spaces,
            import,
            table.imports[index],
            &functions[index],
        ) {
            return false;
        }
    }
    true
}

/// Whether a core import is given the lowering of its function, which stands at a place of the world.
fn is_own_lowering(
    linking: &Linking,
    spaces: &Spaces,
    import: &Import,
    place: usize,
    function: &Option<CoreFunction>,
) -> bool
    requires { ImportPlace (view.linking linking.now) (core_import (module_value linking.now.main) (import_value import.now)) place }
    ensures { Decides result (IsGiven (view.linking linking.now) (seen.spaces (view.linking linking.now).main spaces.now) (core_import (module_value linking.now.main) (import_value import.now)) (option_map seen.core_function function.now)) }
{
    let wanted = &linking.world.imports[place];
    is_lowering_of(&spaces.functions, function, wanted.name.as_str())
        && is_of_type(linking, import, function)
}

/// Whether a core function is the lowering of the import of this name.
fn is_lowering_of(
    functions: &[Option<ComponentFunction>],
    function: &Option<CoreFunction>,
    name: &str,
) -> bool
    ensures { result ≡ is_lowering_of (map (option_map seen.component_function) functions.now) (option_map seen.core_function function.now) name.now }
{
    let Some(function) = function else {
        return false;
    };
    match function.origin {
        CoreOrigin::Lower(index) => is_import_of(function_at(functions, index as usize), name),
        CoreOrigin::Export(_, _) => false,
    }
}

/// Whether a function is the import of this name.
fn is_import_of(function: Option<ComponentFunction>, name: &str) -> bool
    ensures { result ≡ is_import_of (option_map seen.component_function function.entry) name.now }
{
    let Some(function) = function else {
        return false;
    };
    match function.origin {
        Origin::Import(of) => of == name,
        Origin::Lift(_) => false,
    }
}

/// Where the first export stands that doesn't lift the core export of its function.
fn first_wrong_lift(
    linking: &Linking,
    table: &Table,
    exports: &Listed,
    spaces: &Spaces,
) -> Option<usize>
    requires places { ArePlaces (view.linking linking.now) (view.places table.now) }
    requires listed { exports.now.functions.now ≡ linking.now.world.now.exports.items }
    requires distinct { all_new [] (map (λ f. f.name) (view.linking linking.now).world.exports) ≡ true }
    ensures { (n : ℕ) → list_all (λ e. nat_le e.offset n) spaces.now.exports.items ≡ true → Finds n (Each (LiftsOwn (view.linking linking.now) (seen.spaces (view.linking linking.now).main spaces.now)) (map seen.export_entry spaces.now.exports.items)) result }
{
    for entry in &spaces.exports {
        if !lifts_own(linking, table, exports, &spaces.core_functions, entry) {
            return Some(entry.offset);
        }
    }
    None
}

/// Whether an export lifts the core export of its function.
fn lifts_own(
    linking: &Linking,
    table: &Table,
    exports: &Listed,
    cores: &[Option<CoreFunction>],
    entry: &ExportEntry,
) -> bool
    requires places { ArePlaces (view.linking linking.now) (view.places table.now) }
    requires listed { exports.now.functions.now ≡ linking.now.world.now.exports.items }
    requires distinct { all_new [] (map (λ f. f.name) (view.linking linking.now).world.exports) ≡ true }
    ensures { (s : meant.Spaces) → s.core_functions ≡ map (option_map seen.core_function) cores.now → Decides result (LiftsOwn (view.linking linking.now) s (seen.export_entry entry.now)) }
{
    match own_export(linking, table, exports, entry.name) {
        Some(export) => is_lift_of(linking, cores, entry.item, export),
        None => false,
    }
}

/// The core export of the exported function of this name.
fn own_export<'m>(
    linking: &'m Linking<'_, 'm>,
    table: &Table,
    exports: &Listed,
    name: &str,
) -> Option<&'m Export<'m>>
    requires places { ArePlaces (view.linking linking.now) (view.places table.now) }
    requires listed { exports.now.functions.now ≡ linking.now.world.now.exports.items }
    ensures { IsOwnExport (view.linking linking.now) name.now (option_map (λ e. core_export (module_value linking.now.main) (export_value e.now)) result) }
{
    match exports.places.first(name) {
        Some(place) => Some(&linking.main.exports[table.exports[place]]),
        None => None,
    }
}

/// Whether a function is the lift of this export of the main module.
fn is_lift_of(
    linking: &Linking,
    cores: &[Option<CoreFunction>],
    item: Option<ComponentFunction>,
    export: &Export,
) -> bool
    ensures { result ≡ is_lift_of (map (option_map seen.core_function) cores.now) (option_map seen.component_function item.entry) export.now.name.now (core_export (module_value linking.now.main) (export_value export.now)).ty }
{
    let Some(function) = item else {
        return false;
    };
    match function.origin {
        Origin::Lift(index) => is_export_of(linking, core_at(cores, index as usize), export),
        Origin::Import(_) => false,
    }
}

/// Whether a core function is this export of the main module.
fn is_export_of(linking: &Linking, function: Option<CoreFunction>, export: &Export) -> bool
    ensures { result ≡ is_export_of (option_map seen.core_function function.entry) export.now.name.now (core_export (module_value linking.now.main) (export_value export.now)).ty }
{
    let Some(function) = function else {
        return false;
    };
    match function.origin {
        CoreOrigin::Export(_, name) => {
            name == export.name && has_core_type(linking, export, function)
        }
        CoreOrigin::Lower(_) => false,
    }
}

/// Whether a core function has the core type of this export of the main module.
fn has_core_type(linking: &Linking, export: &Export, function: CoreFunction) -> bool
    ensures { result ≡ meant.is_of_core_type (core_export (module_value linking.now.main) (export_value export.now)).ty (Some (seen.core_function function.entry)) }
{
    match linking.export_type(export) {
        Some(ty) => function.ty.is(ty),
        None => false,
    }
}
