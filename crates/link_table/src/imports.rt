//! The functions for which core imports stand.

ghost use Rattle.std.specs.Prelude.{◌≡◌, ◌<◌, false, length, slice_get, Some, None, map, option_map, IfOk, IfErr, OnOk};
ghost use Rattle.wasm_types.specs.Entries.{ImportValue, import_value};
ghost use Rattle.wasm_format.specs.Module.{imported_type};
ghost use Rattle.wit_types.specs.declared.mangling.AbiVariant.TheVariants.{GuestImport};
ghost use Rattle.flat_trees.specs.Passed.type_writing-Unfolding.{WitTree};
ghost use Rattle.canonical_options.specs.Passed.flat_types-Signature.{RequiredValue};
ghost use Rattle.canonical_options.specs.Passed.flat_types-View.{required_value};
ghost use Rattle.core_links.specs.View.{AreLinksOf};
ghost use Rattle.link_table.specs.Imports as spec;
ghost use Rattle.link_table.specs.Lookups.{IsLookup};
ghost use Rattle.link_table.specs.Linking.{linking_value, types_of, IsImported, AreImported, StandsForFunction};
ghost use Rattle.link_table.specs.Options.{asks};
ghost use Rattle.link_table.specs.Types.{HasTree, Requires, IsOfType};

use crate::fault::TableFault;
use crate::linking::Linking;
use crate::lookup::Lookup;
use canonical_options::Required;
use core_links::{ImportLinks, LinkFault};
use std::alloc::Global;
use wasm_types::Import;
use wit_core_names::WasmImport;
use wit_types::{AbiVariant, Function};

/// The function for which the core import at a place stands; none where it's something else.
fn imported_function<'l>(
    linking: &Linking<'l, '_, '_>,
    links: &ImportLinks,
    index: usize,
) -> Option<&'l Function>
    requires links { AreLinksOf (linking_value linking.now).names (linking_value linking.now).main.imports links.now }
    requires there { index < length (linking_value linking.now).main.imports }
    ensures { (i : ImportValue) → slice_get (linking_value linking.now).main.imports index ≡ Some i → IsImported (linking_value linking.now).names i (option_map (λ f. f.now) result) }
{
    match links.meaning(&linking.names, index) {
        WasmImport::Func { func, .. } => Some(func),
        WasmImport::ResourceIntrinsic { .. } => None,
    }
}

/// The functions for which core imports stand, in their order.
pub fn imported_functions<'l>(
    alloc: Global,
    linking: &Linking<'l, '_, '_>,
    links: &ImportLinks,
) -> Result<Vec<&'l Function>, TableFault>
    requires { AreLinksOf (linking_value linking.now).names (linking_value linking.now).main.imports links.now }
    ensures functions { IfOk result (λ fs. AreImported (linking_value linking.now).names (linking_value linking.now).main.imports (map (λ f. f.now) fs.items)) }
    ensures cause { IfErr result (spec.IsResourceCause (linking_value linking.now)) }
{
    let mut functions = Vec::new(alloc);
    for index in 0..linking.main.imports.as_slice().len() {
        let Some(function) = imported_function(linking, links, index) else {
            return Err(TableFault::NotYet);
        };
        functions.push(function)?;
    }
    Ok(functions)
}

/// Whether something is asked for.
fn asks(required: Required) -> bool
    ensures { result ≡ asks (required_value required) }
{
    required.memory || required.realloc || required.encoding
}

impl Lookup<'_, '_, '_> {
    /// Looks whether a function asks for no options as an import.
    fn check_plain(&self, function: &Function) -> Result<(), TableFault>
        requires lookup { IsLookup self.now }
        requires function { (t : WitTree) × HasTree (types_of (linking_value self.now.linking)) function.now t }
        ensures plain { OnOk result ((r : RequiredValue) → Requires (types_of (linking_value self.now.linking)) GuestImport function.now r → asks r ≡ false) }
        ensures cause { IfErr result (spec.IsAskingCause (linking_value self.now.linking) function.now) }
    {
        let required = self.required(AbiVariant::GuestImport, function);
        if asks(required) {
            self.options_for(AbiVariant::GuestImport, required)?;
            return Err(TableFault::NotYet);
        }
        Ok(())
    }

    /// Looks at the core type of an import that stands for a function, and whether that asks for no options.
    pub fn check_import(&self, import: &Import<'_>, function: &Function) -> Result<(), TableFault>
        requires lookup { IsLookup self.now }
        requires function { (t : WitTree) × HasTree (types_of (linking_value self.now.linking)) function.now t }
        ensures typed { OnOk result (IsOfType (types_of (linking_value self.now.linking)) GuestImport function.now (imported_type (linking_value self.now.linking).main «import».now.ty)) }
        ensures plain { OnOk result ((r : RequiredValue) → Requires (types_of (linking_value self.now.linking)) GuestImport function.now r → asks r ≡ false) }
        ensures cause { IfErr result (spec.IsImportCause (linking_value self.now.linking) (import_value «import».now) function.now) }
    {
        let core = self.linking.main.imported_type(import);
        if !self.is_of_type(AbiVariant::GuestImport, function, core)? {
            return Err(TableFault::Link(LinkFault::WrongCoreType));
        }
        self.check_plain(function)
    }
}
