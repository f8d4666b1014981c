//! The link table.

ghost use Rattle.std.specs.Prelude.{◌≡◌, ◌≤◌, ◌++◌, length, map, IfOk, IfErr, OnOk};
ghost use Rattle.wasm_types.specs.Entries.{import_value};
ghost use Rattle.wit_order.specs.Order.{Has};
ghost use Rattle.wit_names.specs.Names.{ArePackagesKnown};
ghost use Rattle.wit_reach.specs.Types.{AreTypesBackward};
ghost use Rattle.wit_types.specs.declared.function.Function.{Function};
ghost use Rattle.core_links.specs.Names.{names_in};
ghost use Rattle.core_links.specs.View.{AreLinksOf};
ghost use Rattle.linked_types.specs.Reached.{MayBeLinked};
ghost use Rattle.link_table.specs.Cause.{IsTableCause};
ghost use Rattle.link_table.specs.Lookups.{IsLookup};
ghost use Rattle.link_table.specs.Linking.{linking_value, types_of, AreFunctions, AreFunctionsThere, AreImported, AreLinked, exported_functions};
ghost use Rattle.link_table.specs.Types.{HaveTrees};
ghost use Rattle.link_table.specs.View as view;
ghost use Rattle.link_table.specs.Walks as spec;

use crate::exports::{ExportLink, add_exported};
use crate::fault::TableFault;
use crate::imports::imported_functions;
use crate::linking::Linking;
use crate::lookup::Lookup;
use core_links::ImportLinks;
use flat_trees::law_linked_functions_unfold;
use linked_types::check_functions;
use std::alloc::Global;
use wasm_types::Import;
use wit_types::Function;

/// What each core import of a module, and each function that a world exports, ends at.
#[derive(Drop)]
pub struct LinkTable {
    pub(crate) imports: ImportLinks,
    pub(crate) exports: Vec<ExportLink>,
}

/// The functions that are linked: those for which core imports stand, and then those that the world exports.
fn linked_functions<'l>(
    alloc: Global,
    linking: &Linking<'l, '_, '_>,
    links: &ImportLinks,
) -> Result<Vec<&'l Function>, TableFault>
    requires { AreLinksOf (linking_value linking.now).names (linking_value linking.now).main.imports links.now }
    ensures linked { IfOk result (λ fs. AreLinked (linking_value linking.now) (map (λ f. f.now) fs.items)) }
    ensures only { IfOk result (λ fs. AreFunctions (linking_value linking.now).names.world) }
    ensures cause { IfErr result (spec.IsFunctionsCause (linking_value linking.now)) }
{
    let mut functions = imported_functions(alloc, linking, links)?;
    add_exported(&mut functions, linking.names.world)?;
    Ok(functions)
}

impl Lookup<'_, '_, '_> {
    /// Looks at core imports that stand for these functions.
    fn check_imports(
        &self,
        imports: &[Import<'_>],
        functions: &[&Function],
    ) -> Result<(), TableFault>
        requires lookup { IsLookup self.now }
        requires trees { HaveTrees (types_of (linking_value self.now.linking)) (map (λ f. f.now) functions.now) }
        requires so_many { length imports.now ≤ length functions.now }
        ensures plain { OnOk result (spec.ArePlain (linking_value self.now.linking) (map import_value imports.now) (map (λ f. f.now) functions.now)) }
        ensures cause { IfErr result (spec.IsWalkCause (linking_value self.now.linking) (map import_value imports.now) (map (λ f. f.now) functions.now)) }
    {
        for (place, import) in imports.iter().enumerate() {
            self.check_import(import, functions[place])?;
        }
        Ok(())
    }

    /// The links of the functions that the world exports.
    fn export_links(&self, functions: &[&Function]) -> Result<Vec<ExportLink>, TableFault>
        requires lookup { IsLookup self.now }
        requires function { HaveTrees (types_of (linking_value self.now.linking)) (map (λ f. f.now) functions.now) }
        ensures links { IfOk result (λ v. view.AreExportLinks (linking_value self.now.linking) (map (λ f. f.now) functions.now) v.items) }
        ensures cause { IfErr result (spec.IsExportsCause (linking_value self.now.linking) (map (λ f. f.now) functions.now)) }
    {
        let mut links = Vec::new(self.alloc);
        for function in functions {
            links.push(self.export_link(function)?)?;
        }
        Ok(links)
    }

    /// The links of the functions that the world exports, where core imports stand for the others.
    fn links(
        &self,
        imported: &[&Function],
        exported: &[&Function],
    ) -> Result<Vec<ExportLink>, TableFault>
        requires lookup { IsLookup self.now }
        requires imported { AreImported (linking_value self.now.linking).names (linking_value self.now.linking).main.imports (map (λ f. f.now) imported.now) }
        requires exported { map (λ f. f.now) exported.now ≡ exported_functions (linking_value self.now.linking).names.world }
        requires trees { HaveTrees (types_of (linking_value self.now.linking)) (map (λ f. f.now) imported.now ++ map (λ f. f.now) exported.now) }
        ensures links { IfOk result (λ v. spec.AreChecked (linking_value self.now.linking) (map (λ f. f.now) imported.now) (map (λ f. f.now) exported.now) v.items) }
        ensures cause { IfErr result (IsTableCause (linking_value self.now.linking)) }
    {
        self.check_imports(self.linking.main.imports.as_slice(), imported)?;
        self.check_apart(exported)?;
        self.export_links(exported)
    }
}

/// The links of the functions that the world exports, where core imports stand for the others.
fn checked_links(
    alloc: Global,
    linking: &Linking<'_, '_, '_>,
    imported: &[&Function],
    exported: &[&Function],
) -> Result<Vec<ExportLink>, TableFault>
    requires packages { ArePackagesKnown linking.now.names.tables.packages.now linking.now.names.tables.interfaces.now }
    requires backward { AreTypesBackward linking.now.names.tables.types.now }
    requires imported { AreImported (linking_value linking.now).names (linking_value linking.now).main.imports (map (λ f. f.now) imported.now) }
    requires exported { map (λ f. f.now) exported.now ≡ exported_functions (linking_value linking.now).names.world }
    requires trees { HaveTrees (types_of (linking_value linking.now)) (map (λ f. f.now) imported.now ++ map (λ f. f.now) exported.now) }
    ensures links { IfOk result (λ v. spec.AreChecked (linking_value linking.now) (map (λ f. f.now) imported.now) (map (λ f. f.now) exported.now) v.items) }
    ensures cause { IfErr result (IsTableCause (linking_value linking.now)) }
{
    let lookup = Lookup::new(alloc, linking)?;
    lookup.links(imported, exported)
}

/// The link table of a module and a world (Component Model, Build Targets; Canonical ABI, canon lift and canon lower): each core import
/// stands for one function of the world or of an interface that the world imports, and has its core type; one core export stands for each
/// function that the world exports, and has its core type; lifts have the memory, what makes room in it, and the encoding that their
/// functions ask for.
///
/// Answers `Link` for names and core types that aren't those of the world (B7 to B12), `NoMemory` where a function asks for a memory and the
/// module exports none, `NoRealloc` where one asks for what makes room and the module exports none, `Types` where a linked function
/// reaches a type that isn't linked (B15 to B17), `NotYet` for what is still to come: exported interfaces, resources, the memory of the
/// surroundings, imports that ask for options, and functions that are called at other times. `OutOfMemory` where memory is wanting.
pub fn table_of(alloc: Global, linking: &Linking<'_, '_, '_>) -> Result<LinkTable, TableFault>
    requires packages { ArePackagesKnown linking.now.names.tables.packages.now linking.now.names.tables.interfaces.now }
    requires backward { AreTypesBackward linking.now.names.tables.types.now }
    requires there { AreFunctionsThere (names_in linking.now.names) }
    ensures table { IfOk result (view.IsTableOf (linking_value linking.now)) }
    ensures cause { IfErr result (IsTableCause (linking_value linking.now)) }
{
    law_linked_functions_unfold();
    let imports = ImportLinks::new(alloc, &linking.names, linking.main.imports.as_slice())?;
    let functions = linked_functions(alloc, linking, &imports)?;
    check_functions(alloc, linking.names.tables.types, functions.as_slice())?;
    let (imported, exported) = functions.split_at(linking.main.imports.len());
    let exports = checked_links(alloc, linking, imported, exported)?;
    Ok(LinkTable { imports, exports })
}

impl LinkTable {
    /// What the core imports of the module stand for.
    pub fn imports(&self) -> &ImportLinks
        ensures { result.now ≡ self.now.imports }
    {
        &self.imports
    }

    /// The links of the functions that the world exports, in its order.
    pub fn exports(&self) -> &[ExportLink]
        ensures { result.now ≡ self.now.exports.items }
    {
        &self.exports
    }
}
