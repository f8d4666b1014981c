//! The link table in the order in which the program prints it.

ghost use Rattle.std.specs.Prelude.{◌≡◌, ◌<◌, ◌++◌, ◌∷◌, [], length, map, slice_get, Some, IfOk, IfErr};
ghost use Rattle.wit_component.specs.Cause.{IsLinkable, IsLinkCause};
ghost use Rattle.wit_component.specs.Linking.{CoreImport};
ghost use Rattle.plain_worlds.specs.World.{FunctionItem};
ghost use Rattle.link_lines.specs.Line.{link_value};
ghost use Rattle.wit_component.specs.Line.{import_line, export_line};
ghost use Rattle.wit_component.specs.Links.{AreLinks};
ghost use Rattle.wit_component.specs.Places as spec;
ghost use Rattle.wit_component.specs.Places.{ArePlaces, target};
ghost use Rattle.wit_component.specs.View as view;

use crate::fault::Fault;
use crate::linking::Linking;
use crate::table::{ROOT, Table, table_of};
use link_lines::{Link, LinkKind, LinkSide, Owner};
use plain_worlds::Function;
use std::alloc::{AllocError, Global};
use wasm_format::Export;

/// The link of a core import that ends in the lowering of a function of the world.
fn import_link(alloc: Global, place: &str, name: &str, function: &str) -> Result<Link, AllocError>
    ensures { IfOk result (λ l. link_value l ≡ import_line place.now name.now function.now) }
{
    Ok(Link {
        side: LinkSide::Import,
        owner: Owner::Main,
        module: Some(String::from_str(alloc, place)?),
        name: Some(String::from_str(alloc, name)?),
        kind: LinkKind::Lower,
        place: Some(String::from_str(alloc, ROOT)?),
        item: Some(String::from_str(alloc, function)?),
        memory: None,
        realloc: None,
        encoding: None,
        post_return: None,
        hook: None,
    })
}

/// The link of an exported function that is a core export of the main module.
fn export_link(alloc: Global, function: &str, name: &str) -> Result<Link, AllocError>
    ensures { IfOk result (λ l. link_value l ≡ export_line function.now name.now) }
{
    Ok(Link {
        side: LinkSide::Export,
        owner: Owner::Main,
        module: Some(String::from_str(alloc, ROOT)?),
        name: Some(String::from_str(alloc, function)?),
        kind: LinkKind::Core,
        place: Some(String::from_str(alloc, "main")?),
        item: Some(String::from_str(alloc, name)?),
        memory: None,
        realloc: None,
        encoding: None,
        post_return: None,
        hook: None,
    })
}

/// The function at the place that the table has for a core import.
fn import_target<'l>(linking: &'l Linking<'l, 'l>, table: &Table, index: usize) -> &'l Function
    requires places { ArePlaces (view.linking linking.now) (view.places table.now) }
    requires there { index < length linking.now.main.imports.items }
    ensures { target linking.now.world.now.imports.items table.now.imports.items index ≡ Some result.now }
{
    &linking.world.imports[table.imports[index]]
}

/// The core export at the place that the table has for an exported function.
fn export_target<'l>(linking: &'l Linking<'l, 'l>, table: &Table, index: usize) -> &'l Export<'l>
    requires places { ArePlaces (view.linking linking.now) (view.places table.now) }
    requires there { index < length linking.now.world.now.exports.items }
    ensures { target linking.now.main.exports.items table.now.exports.items index ≡ Some result.now }
{
    &linking.main.exports[table.exports[index]]
}

/// The texts of the core import at an index, with the name of its function.
fn import_entry<'l>(
    linking: &'l Linking<'l, 'l>,
    table: &Table,
    index: usize,
) -> (&'l str, &'l str, &'l str)
    requires places { ArePlaces (view.linking linking.now) (view.places table.now) }
    requires there { index < length linking.now.main.imports.items }
    ensures { (i : CoreImport) × (slice_get (view.linking linking.now).main.imports index ≡ Some i) × (spec.lines_of_import (view.linking linking.now) i ≡ spec.import_text result ∷ []) }
{
    let import = &linking.main.imports[index];
    let function = import_target(linking, table, index);
    (import.module, import.name, function.name.as_str())
}

/// The exported function at an index, with the text of its core export.
fn export_entry<'l>(linking: &'l Linking<'l, 'l>, table: &Table, index: usize) -> (&'l str, &'l str)
    requires places { ArePlaces (view.linking linking.now) (view.places table.now) }
    requires there { index < length linking.now.world.now.exports.items }
    ensures { (f : FunctionItem) × (slice_get (view.linking linking.now).world.exports index ≡ Some f) × (spec.lines_of_export (view.linking linking.now) f ≡ spec.export_text result ∷ []) }
{
    let function = &linking.world.exports[index];
    let export = export_target(linking, table, index);
    (function.name.as_str(), export.name)
}

/// The entry of each core import.
fn import_entries<'l>(
    alloc: Global,
    linking: &'l Linking<'l, 'l>,
    table: &Table,
) -> Result<Vec<(&'l str, &'l str, &'l str)>, AllocError>
    requires { ArePlaces (view.linking linking.now) (view.places table.now) }
    ensures { IfOk result (λ v. map spec.import_text v.items ≡ spec.import_lines (view.linking linking.now)) }
{
    let mut found = Vec::new(alloc);
    for index in 0..linking.main.imports.as_slice().len() {
        found.push(import_entry(linking, table, index))?;
    }
    Ok(found)
}

/// The entry of each exported function.
fn export_entries<'l>(
    alloc: Global,
    linking: &'l Linking<'l, 'l>,
    table: &Table,
) -> Result<Vec<(&'l str, &'l str)>, AllocError>
    requires { ArePlaces (view.linking linking.now) (view.places table.now) }
    ensures { IfOk result (λ v. map spec.export_text v.items ≡ spec.export_lines (view.linking linking.now)) }
{
    let mut found = Vec::new(alloc);
    for index in 0..linking.world.exports.as_slice().len() {
        found.push(export_entry(linking, table, index))?;
    }
    Ok(found)
}

/// The links of entries, in order.
fn links_in_order(
    alloc: Global,
    imports: &[(&str, &str, &str)],
    exports: &[(&str, &str)],
) -> Result<Vec<Link>, AllocError>
    ensures { IfOk result (λ v. map link_value v.items ≡ map spec.import_text imports.now ++ map spec.export_text exports.now) }
{
    let mut links = Vec::new(alloc);
    for (place, name, function) in imports {
        links.push(import_link(alloc, place, name, function)?)?;
    }
    for (function, name) in exports {
        links.push(export_link(alloc, function, name)?)?;
    }
    Ok(links)
}

/// The link table: imports by module text and name, then exports by name. Refuses as `table_of` does.
pub fn links_of(alloc: Global, linking: &Linking) -> Result<Vec<Link>, Fault>
    ensures links { IfOk result (λ v. AreLinks (view.linking linking.now) (map link_value v.items)) }
    ensures linkable { IfOk result (λ v. IsLinkable (view.linking linking.now)) }
    ensures cause { IfErr result (IsLinkCause (view.linking linking.now)) }
{
    let table = table_of(alloc, linking)?;
    Ok(sorted_links(alloc, linking, &table)?)
}

/// The links at the places of a table, in order.
fn sorted_links<'l>(
    alloc: Global,
    linking: &'l Linking<'l, 'l>,
    table: &Table,
) -> Result<Vec<Link>, AllocError>
    requires { ArePlaces (view.linking linking.now) (view.places table.now) }
    ensures { IfOk result (λ v. AreLinks (view.linking linking.now) (map link_value v.items)) }
{
    let mut imports = import_entries(alloc, linking, table)?;
    imports.sort()?;
    let mut exports = export_entries(alloc, linking, table)?;
    exports.sort()?;
    links_in_order(alloc, &imports, &exports)
}
