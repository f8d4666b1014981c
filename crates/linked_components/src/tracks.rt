//! Version tracks of what a world imports.

ghost use Rattle.std.specs.Prelude.{◌≡◌, ◌++◌, [], true, false, map, option_map, slice_get, string_bytes, IfOk, OnOk, Some};
ghost use Rattle.core_links.specs.Names.{names_in};
ghost use Rattle.distinct_names.specs.Names.{all_new};
ghost use Rattle.interface_names.specs.Names.{AreImportsThere};
ghost use Rattle.wit_core_items.specs.Places.{Entry};
ghost use Rattle.linked_components.specs.Build.{IsOfGraph};
ghost use Rattle.linked_components.specs.Tracks as spec;

use core_links::CoreNames;
use distinct_names::Names;
use interface_names::law_imports_are_there;
use std::alloc::{AllocError, Global};
use wit_names::{Known, canonicalized_id_of, id_of};
use wit_types::{WorldItem, WorldKey};

/// Adds the canonical text of an interface that a world imports under its own key, if it has one.
fn add_track(
    alloc: Global,
    tracks: &mut Vec<String>,
    names: &CoreNames<'_>,
    entry: usize,
) -> Result<(), AllocError>
    requires { AreImportsThere (names_in names.now) }
    ensures { OnOk result ((e : Entry) → slice_get (names_in names.now).world.imports.entries entry ≡ Some e → map string_bytes tracks.new.items ≡ map string_bytes tracks.old.items ++ spec.track_of (names_in names.now) e) }
{
    let known = Known {
        packages: names.tables.packages,
        interfaces: names.tables.interfaces,
    };
    match names.world.imports.get_index(entry) {
        Some((WorldKey::Interface(id), WorldItem::Interface { .. })) => {
            match canonicalized_id_of(alloc, &known, *id)? {
                Some(text) => tracks.push(text)?,
                None => {}
            }
        }
        _ => {}
    }
    Ok(())
}

/// The canonical texts of the interfaces that a world imports under their own keys, in their order.
fn tracks_of(alloc: Global, names: &CoreNames<'_>) -> Result<Vec<String>, AllocError>
    requires { AreImportsThere (names_in names.now) }
    ensures { IfOk result (λ v. map string_bytes v.items ≡ spec.tracks (names_in names.now)) }
{
    let mut tracks = Vec::new(alloc);
    for entry in 0..names.world.imports.len() {
        add_track(alloc, &mut tracks, names, entry)?;
    }
    Ok(tracks)
}

/// Whether no two texts are equal.
fn are_distinct(alloc: Global, texts: &[String]) -> Result<bool, AllocError>
    ensures { IfOk result (λ b. b ≡ all_new [] (map string_bytes texts.now)) }
{
    let mut seen = Names::new(alloc);
    for text in texts {
        let name = text.as_str();
        if !seen.is_new(name) {
            return Ok(false);
        }
        seen.add(name)?;
    }
    Ok(true)
}

/// Whether no two interfaces that a world of a graph imports under their own keys are of one version track: their canonical texts differ, so
/// that merging imports by their versions changes nothing (Component Model, Import and Export Definitions).
pub fn tracks_are_apart(alloc: Global, names: &CoreNames<'_>) -> Result<bool, AllocError>
    requires { IsOfGraph (names_in names.now) }
    ensures { IfOk result (λ b. b ≡ all_new [] (spec.tracks (names_in names.now))) }
{
    law_imports_are_there();
    let tracks = tracks_of(alloc, names)?;
    let apart = are_distinct(alloc, tracks.as_slice())?;
    Ok(apart)
}

/// Whether two texts, each of which may be absent, differ.
fn differ(text: &Option<String>, other: &Option<String>) -> bool
    ensures yes { result ≡ true → option_map string_bytes text.now ≡ option_map string_bytes other.now → ⊥ }
    ensures no { result ≡ false → option_map string_bytes text.now ≡ option_map string_bytes other.now }
{
    match (text, other) {
        (Some(text), Some(other)) => text.as_str() != other.as_str(),
        (None, None) => false,
        _ => true,
    }
}

/// Whether what a world imports is an interface under its own key that has another canonical text than its own.
fn has_other_text(alloc: Global, names: &CoreNames<'_>, entry: usize) -> Result<bool, AllocError>
    requires { AreImportsThere (names_in names.now) }
    ensures yes { IfOk result (λ b. b ≡ true → (e : Entry) → slice_get (names_in names.now).world.imports.entries entry ≡ Some e → spec.HasOtherText (names_in names.now) e) }
    ensures no { IfOk result (λ b. b ≡ false → (e : Entry) → slice_get (names_in names.now).world.imports.entries entry ≡ Some e → spec.HasOtherText (names_in names.now) e → ⊥) }
{
    let known = Known {
        packages: names.tables.packages,
        interfaces: names.tables.interfaces,
    };
    match names.world.imports.get_index(entry) {
        Some((WorldKey::Interface(id), WorldItem::Interface { .. })) => {
            let text = id_of(alloc, &known, *id)?;
            let canonical = canonicalized_id_of(alloc, &known, *id)?;
            Ok(differ(&canonical, &text))
        }
        _ => Ok(false),
    }
}

/// Whether canonical names are others than those by which a world of a graph imports interfaces under their own keys: the version of one is
/// more than its track (Component Model, Import and Export Definitions).
pub fn names_change(alloc: Global, names: &CoreNames<'_>) -> Result<bool, AllocError>
    requires { IsOfGraph (names_in names.now) }
    ensures yes { IfOk result (λ b. b ≡ true → spec.HasOtherNames (names_in names.now)) }
    ensures no { IfOk result (λ b. b ≡ false → spec.HasOtherNames (names_in names.now) → ⊥) }
{
    law_imports_are_there();
    for entry in 0..names.world.imports.len() {
        if has_other_text(alloc, names, entry)? {
            return Ok(true);
        }
    }
    Ok(false)
}
