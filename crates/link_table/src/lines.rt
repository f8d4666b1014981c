//! The lines of a link table.

ghost use Rattle.std.specs.Prelude.{◌≡◌, ◌<◌, ℕ, length, map, slice_get, Some, option_map, option_and_then, string_bytes, IfOk, OnOk};
ghost use Rattle.wasm_types.specs.Entries.{import_value, export_value};
ghost use Rattle.wit_names.specs.Names.{ArePackagesKnown};
ghost use Rattle.link_lines.specs.Line.{link_value};
ghost use Rattle.link_table.specs.Linking.{linking_value};
ghost use Rattle.link_table.specs.Lines as spec;
ghost use Rattle.link_table.specs.Table.{ImportEntry, ExportEntry};
ghost use Rattle.link_table.specs.Pairwise.{Pairwise};
ghost use Rattle.link_table.specs.View.{IsTableOf, name_at, options_value};

use crate::exports::exported_function;
use crate::linking::Linking;
use crate::options::LinkOptions;
use crate::table::LinkTable;
use link_lines::{Link, LinkKind, LinkSide, Owner, sort_lines};
use std::alloc::{AllocError, Global};
use wasm_types::{Export, Import};
use wit_core_names::wasm_import_name;
use wit_types::{Function, Mangling, WorldKey};

/// The link of a core import that ends in the lowering of a function, which has this name in a place.
fn import_link(
    alloc: Global,
    import: &Import<'_>,
    place: String,
    function: String,
) -> Result<Link, AllocError>
    ensures { IfOk result (λ l. link_value l ≡ spec.import_line (import_value «import».now) (string_bytes place) (string_bytes function)) }
{
    Ok(Link {
        side: LinkSide::Import,
        owner: Owner::Main,
        module: Some(String::from_str(alloc, import.module)?),
        name: Some(String::from_str(alloc, import.name)?),
        kind: LinkKind::Lower,
        place: Some(place),
        item: Some(function),
        memory: None,
        realloc: None,
        encoding: None,
        post_return: None,
        hook: None,
    })
}

/// The text of the memory, if one has this name.
fn memory_text(alloc: Global, name: Option<&str>) -> Result<Option<String>, AllocError>
    ensures { IfOk result (λ t. option_map string_bytes t ≡ spec.memory_text (option_map (λ n. n.now) name.entry)) }
{
    match name {
        Some(_) => Ok(Some(String::from_str(alloc, "memory")?)),
        None => Ok(None),
    }
}

/// What makes room, if something does, as an export of the main module.
fn realloc_text(alloc: Global, name: Option<&str>) -> Result<Option<String>, AllocError>
    ensures { IfOk result (λ t. option_map string_bytes t ≡ option_map (λ n. spec.of_main n.now) name.entry) }
{
    match name {
        Some(name) => Ok(Some(format!(in alloc; "main={name}")?)),
        None => Ok(None),
    }
}

/// The name of the core export at a place.
fn export_name<'l>(exports: &[Export<'l>], place: usize) -> Option<&'l str>
    ensures { option_map (λ n. n.now) result ≡ name_at (map export_value exports.now) place }
{
    let export = exports.get(place)?;
    Some(export.name)
}

/// The name of the core export at a place, if there is a place.
fn name_of<'l>(exports: &[Export<'l>], place: Option<usize>) -> Option<&'l str>
    ensures { option_map (λ n. n.now) result ≡ option_and_then (name_at (map export_value exports.now)) place }
{
    match place {
        Some(place) => export_name(exports, place),
        None => None,
    }
}

/// The link of a function that the world exports, which ends at a core export of the main module of that name, without options.
fn bare_export(alloc: Global, function: &Function, name: &str) -> Result<Link, AllocError>
    ensures { IfOk result (λ l. link_value l ≡ spec.export_line function.now name.now spec.no_options) }
{
    Ok(Link {
        side: LinkSide::Export,
        owner: Owner::Main,
        module: Some(String::from_str(alloc, "$root")?),
        name: Some(String::from_str(alloc, function.name.as_str())?),
        kind: LinkKind::Core,
        place: Some(String::from_str(alloc, "main")?),
        item: Some(String::from_str(alloc, name)?),
        memory: None,
        realloc: None,
        encoding: None,
        post_return: None,
        hook: None,
    })
}

/// The link of a function that the world exports, with options that name these core exports.
fn export_link(
    alloc: Global,
    function: &Function,
    exports: &[Export<'_>],
    name: &str,
    options: &LinkOptions,
) -> Result<Link, AllocError>
    ensures { IfOk result (λ l. link_value l ≡ spec.export_line function.now name.now (options_value (map export_value exports.now) options.now)) }
{
    let mut link = bare_export(alloc, function, name)?;
    link.memory = memory_text(alloc, name_of(exports, options.memory))?;
    link.realloc = realloc_text(alloc, name_of(exports, options.realloc))?;
    link.encoding = options.encoding;
    Ok(link)
}

impl LinkTable {
    /// The link of the core import at a place.
    fn import_line(
        &self,
        alloc: Global,
        linking: &Linking<'_, '_, '_>,
        index: usize,
    ) -> Result<Link, AllocError>
        requires packages { ArePackagesKnown linking.now.names.tables.packages.now linking.now.names.tables.interfaces.now }
        requires table { IsTableOf (linking_value linking.now) self.now }
        requires there { index < length (linking_value linking.now).main.imports }
        ensures { (is : IsTableOf (linking_value linking.now) self.now) (e : ImportEntry) → slice_get is.table.imports index ≡ Some e → IfOk result (λ k. spec.IsImportLine (linking_value linking.now) e (link_value k)) }
    {
        // The borrow check is to know the types of what an import lends.
        let _lends: Option<(&WorldKey, &Function)> = None;
        // In the spelling of the texts the names of an import are those of its place and its function.
        let end = self.imports.meaning(&linking.names, index);
        let (place, function) = wasm_import_name(
            alloc,
            &linking.names.tables,
            Mangling::Legacy,
            &end,
        )?;
        import_link(alloc, &linking.main.imports[index], place, function)
    }

    /// The link of the function that the world exports at a place.
    fn export_line(
        &self,
        alloc: Global,
        linking: &Linking<'_, '_, '_>,
        index: usize,
    ) -> Result<Link, AllocError>
        requires table { IsTableOf (linking_value linking.now) self.now }
        requires there { index < length self.now.exports.items }
        ensures { (is : IsTableOf (linking_value linking.now) self.now) (e : ExportEntry) → slice_get is.table.exports index ≡ Some e → IfOk result (λ k. spec.IsExportLine e (link_value k)) }
    {
        let link = self.exports[index];
        let exports = linking.main.exports.as_slice();
        let Some(name) = export_name(exports, link.export) else {
            unreachable!()
        };
        let Some(function) = exported_function(linking.names.world, index) else {
            unreachable!()
        };
        export_link(alloc, function, exports, name, &link.options)
    }

    /// The links of core imports, in their order.
    fn import_lines(
        &self,
        alloc: Global,
        linking: &Linking<'_, '_, '_>,
    ) -> Result<Vec<Link>, AllocError>
        requires packages { ArePackagesKnown linking.now.names.tables.packages.now linking.now.names.tables.interfaces.now }
        requires table { IsTableOf (linking_value linking.now) self.now }
        ensures { (is : IsTableOf (linking_value linking.now) self.now) → IfOk result (λ v. Pairwise (spec.IsImportLine (linking_value linking.now)) is.table.imports (map link_value v.items)) }
    {
        let mut lines = Vec::new(alloc);
        for index in 0..linking.main.imports.as_slice().len() {
            lines.push(self.import_line(alloc, linking, index)?)?;
        }
        Ok(lines)
    }

    /// Adds the links of the functions that the world exports, in their order.
    fn add_export_lines(
        &self,
        alloc: Global,
        linking: &Linking<'_, '_, '_>,
        lines: &mut Vec<Link>,
    ) -> Result<(), AllocError>
        requires table { IsTableOf (linking_value linking.now) self.now }
        ensures { (is : IsTableOf (linking_value linking.now) self.now) → OnOk result (spec.AreAdded is.table.exports (map link_value lines.old.items) (map link_value lines.new.items)) }
    {
        for index in 0..self.exports.len() {
            lines.push(self.export_line(alloc, linking, index)?)?;
        }
        Ok(())
    }

    /// The links of a link table, in order: by side, and then by the bytes of module, name and item. The link table is that of this module
    /// and this world. Fails only for want of memory.
    pub fn links(
        &self,
        alloc: Global,
        linking: &Linking<'_, '_, '_>,
    ) -> Result<Vec<Link>, AllocError>
        requires packages { ArePackagesKnown linking.now.names.tables.packages.now linking.now.names.tables.interfaces.now }
        requires table { IsTableOf (linking_value linking.now) self.now }
        ensures { (is : IsTableOf (linking_value linking.now) self.now) → IfOk result (λ v. spec.AreLines (linking_value linking.now) is.table (map link_value v.items)) }
    {
        let mut lines = self.import_lines(alloc, linking)?;
        self.add_export_lines(alloc, linking, &mut lines)?;
        sort_lines(&mut lines)?;
        Ok(lines)
    }
}
