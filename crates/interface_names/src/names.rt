//! Names of interfaces by their ids.

ghost use Rattle.std.specs.Prelude.{◌≡◌, ◌<◌, length, map, option_map, slice_get, string_bytes, true, false, IfOk, OnOk, MatchOption, Some};
ghost use Rattle.wasm_types.specs.Entries.{import_value};
ghost use Rattle.wit_core_items.specs.Places.{Entry};
ghost use Rattle.core_links.specs.Names.{names_in};
ghost use Rattle.core_links.specs.View.{AreLinksOf};
ghost use Rattle.interface_names.specs.Names as spec;
ghost use Rattle.interface_names.specs.Found as found;

use core_links::{CoreNames, ImportLinks};
use std::alloc::{AllocError, Global};
use wasm_types::Import;
use wit_core_items::ImportPlace;
use wit_names::{Known, name_world_key};
use wit_types::{WorldItem, WorldKey};

/// No texts, for so many interfaces.
fn no_texts(alloc: Global, interfaces: usize) -> Result<Vec<Option<String>>, AllocError>
    ensures { IfOk result (λ texts. found.AreNone (found.texts_of texts.items) interfaces) }
{
    let mut texts = Vec::new(alloc);
    for _id in 0..interfaces {
        texts.push(None)?;
    }
    Ok(texts)
}

/// Puts a text at a place where none stands; answers whether no other one stands there.
fn put(texts: &mut Vec<Option<String>>, place: usize, text: String) -> bool
    requires { place < length texts.old.items }
    ensures { found.Puts (found.texts_of texts.old.items) place (string_bytes text) result (found.texts_of texts.new.items) }
{
    match &texts[place] {
        Some(other) => other.as_str() == text.as_str(),
        None => {
            texts[place] = Some(text);
            true
        }
    }
}

/// Puts the text of a key at an interface's place; answers whether no other one stands there.
fn put_key(
    alloc: Global,
    texts: &mut Vec<Option<String>>,
    names: &CoreNames<'_>,
    key: &WorldKey,
    place: usize,
) -> Result<bool, AllocError>
    requires there { spec.IsImportThere (names_in names.now) key.now place }
    requires packages { spec.ArePackagesThere (names_in names.now) }
    requires so_many { length texts.old.items ≡ length (names_in names.now).known.interfaces }
    ensures { IfOk result (λ alone. found.PutsKey (names_in names.now) (found.texts_of texts.old.items) key.now place alone (found.texts_of texts.new.items)) }
{
    let known = Known {
        packages: names.tables.packages,
        interfaces: names.tables.interfaces,
    };
    match name_world_key(alloc, &known, key)? {
        Some(text) => Ok(put(texts, place, text)),
        None => Ok(true),
    }
}

/// Puts the text of the key of what a world imports, if it's an interface, at that interface's place; answers whether no other one stands
/// there.
fn put_import(
    alloc: Global,
    texts: &mut Vec<Option<String>>,
    names: &CoreNames<'_>,
    entry: usize,
) -> Result<bool, AllocError>
    requires there { spec.AreImportsThere (names_in names.now) }
    requires so_many { length texts.old.items ≡ length (names_in names.now).known.interfaces }
    ensures { IfOk result (λ alone. (e : Entry) → slice_get (names_in names.now).world.imports.entries entry ≡ Some e → found.PutsEntry (names_in names.now) (found.texts_of texts.old.items) e alone (found.texts_of texts.new.items)) }
{
    match names.world.imports.get_index(entry) {
        Some((key, WorldItem::Interface { id, .. })) => put_key(
            alloc,
            texts,
            names,
            key,
            id.index(),
        ),
        _ => Ok(true),
    }
}

/// The text, or an empty one.
fn or_empty(alloc: Global, text: Option<String>) -> String
    ensures { string_bytes result ≡ found.text_or_empty (option_map string_bytes text) }
{
    match text {
        Some(text) => text,
        None => String::new(alloc),
    }
}

/// These texts, and an empty one where there is none.
fn names_of(alloc: Global, texts: Vec<Option<String>>) -> Result<Vec<String>, AllocError>
    ensures { IfOk result (λ names. map string_bytes names.items ≡ found.or_empty (found.texts_of texts.items)) }
{
    let mut names = Vec::new(alloc);
    for text in texts {
        names.push(or_empty(alloc, text))?;
    }
    Ok(names)
}

/// Puts the text of the key of the interface of which a function stands at a place, if one does, at that interface's place; answers whether no
/// other one stands there.
fn put_place(
    alloc: Global,
    texts: &mut Vec<Option<String>>,
    names: &CoreNames<'_>,
    place: ImportPlace,
) -> Result<bool, AllocError>
    requires there { spec.AreImportsThere (names_in names.now) }
    requires so_many { length texts.old.items ≡ length (names_in names.now).known.interfaces }
    ensures { IfOk result (λ alone. found.PutsPlace (names_in names.now) (found.texts_of texts.old.items) place alone (found.texts_of texts.new.items)) }
{
    match place {
        ImportPlace::InterfaceFunction { entry, .. } => put_import(alloc, texts, names, entry),
        ImportPlace::OwnFunction(_)
        | ImportPlace::OwnDrop(_)
        | ImportPlace::InterfaceDrop { .. }
        | ImportPlace::ExportedIntrinsic { .. } => Ok(true),
    }
}

/// Puts the texts of the keys by which core imports name functions of interfaces at these interfaces' places; answers whether that is one of
/// each.
fn put_needed(
    alloc: Global,
    texts: &mut Vec<Option<String>>,
    names: &CoreNames<'_>,
    links: &ImportLinks,
    imports: &[Import<'_>],
) -> Result<bool, AllocError>
    requires there { spec.AreImportsThere (names_in names.now) }
    requires links { AreLinksOf (names_in names.now) (map import_value imports.now) links.now }
    requires none { found.AreNone (found.texts_of texts.old.items) (length (names_in names.now).known.interfaces) }
    ensures yes { IfOk result (λ one. one ≡ true → found.AreFound (names_in names.now) (map import_value imports.now) (found.texts_of texts.new.items)) }
    ensures no { IfOk result (λ one. one ≡ false → spec.HasTwoNames (names_in names.now) (map import_value imports.now)) }
{
    // Each item has a key of its own.
    let _count = names.world.imports.len();
    for index in 0..imports.len() {
        if !put_place(alloc, texts, names, links.place(index))? {
            return Ok(false);
        }
    }
    Ok(true)
}

/// Puts the text of a key at the place of each interface that a world imports and that has none.
fn put_others(
    alloc: Global,
    texts: &mut Vec<Option<String>>,
    names: &CoreNames<'_>,
) -> Result<(), AllocError>
    requires there { spec.AreImportsThere (names_in names.now) }
    requires so_many { length texts.old.items ≡ length (names_in names.now).known.interfaces }
    ensures { OnOk result (found.AreFilled (names_in names.now) (names_in names.now).world.imports.entries (found.texts_of texts.old.items) (found.texts_of texts.new.items)) }
{
    for entry in 0..names.world.imports.len() {
        let _alone = put_import(alloc, texts, names, entry)?;
    }
    Ok(())
}

/// The text of a key under which a world imports each interface, by the interfaces' ids: of the key by which core imports name functions of it
/// where they do, and else of one of them; an empty one where the world doesn't import it. None where core imports name functions of one
/// interface by keys of two texts, which no such list says: so it can be where an `include` brings an interface that stands in a world under
/// a name twice, and changes that name once (WIT, Item: `include`). Fails only for want of memory.
pub fn interface_names(
    alloc: Global,
    names: &CoreNames<'_>,
    links: &ImportLinks,
    imports: &[Import<'_>],
) -> Result<Option<Vec<String>>, AllocError>
    requires there { spec.AreImportsThere (names_in names.now) }
    requires links { AreLinksOf (names_in names.now) (map import_value imports.now) links.now }
    ensures { IfOk result (λ o. MatchOption o (spec.HasTwoNames (names_in names.now) (map import_value imports.now)) (λ v. spec.AreNamesById (names_in names.now) (map import_value imports.now) (map string_bytes v.items))) }
{
    let mut texts = no_texts(alloc, names.tables.interfaces.len())?;
    if !put_needed(alloc, &mut texts, names, links, imports)? {
        return Ok(None);
    }
    put_others(alloc, &mut texts, names)?;
    let found = names_of(alloc, texts)?;
    Ok(Some(found))
}
