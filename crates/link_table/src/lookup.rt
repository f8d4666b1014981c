//! What is looked up in a module and in the types of a world again and again.

ghost use Rattle.std.specs.Prelude.{◌≡◌, true, false, map, option_map, IfOk, IfErr};
ghost use Rattle.wasm_types.specs.Entries.{export_value};
ghost use Rattle.wasm_types.specs.Types.{func_type_value};
ghost use Rattle.wit_names.specs.Names.{ArePackagesKnown};
ghost use Rattle.wit_reach.specs.Types.{AreTypesBackward};
ghost use Rattle.wit_core_names.specs.Exports.{IsExportNamed};
ghost use Rattle.wit_core_names.specs.Items.{export_of};
ghost use Rattle.flat_trees.specs.Passed.type_writing-Unfolding.{WitTree};
ghost use Rattle.canonical_options.specs.Passed.flat_types-Flats.{flats};
ghost use Rattle.canonical_options.specs.Passed.flat_types-Signature.{RequiredValue};
ghost use Rattle.canonical_options.specs.Passed.flat_types-View.{signature_value, required_value};
ghost use Rattle.flat_trees.specs.Flat.{core_type};
ghost use Rattle.core_links.specs.Names.{names_in};
ghost use Rattle.core_links.specs.Exports.{IsExportOf, IsExportCause};
ghost use Rattle.core_links.specs.View.{AreNamesOf};
ghost use Rattle.link_table.specs.Linking.{linking_value, types_of};
ghost use Rattle.link_table.specs.Lookups.{IsLookup};
ghost use Rattle.link_table.specs.Options.{NamesOf, IsThere, IsPlaceCause};
ghost use Rattle.link_table.specs.Types.{HasTree, Requires, IsOfType, IsMistyped};

use crate::fault::TableFault;
use crate::linking::Linking;
use canonical_options::{FlatTypes, Required, WasmSignature};
use core_links::{ExportNames, LinkFault};
use flat_trees::law_unfolded_functions_are_flat;
use std::alloc::{AllocError, Global};
use wasm_types::{FuncType, ValType};
use wit_core_names::WasmExport;
use wit_types::{AbiVariant, Function};

/// The core exports of a module by their names, and the core types of the types of a world.
#[derive(Drop)]
pub struct Lookup<'l, 'm, 'b> {
    pub alloc: Global,
    pub linking: Linking<'l, 'm, 'b>,
    pub exports: ExportNames<'b>,
    pub flat: FlatTypes,
}

/// Whether core types are those, one by one.
pub fn same_values(values: &[ValType], others: &[ValType]) -> bool
    ensures is { result ≡ true → values.now ≡ others.now }
    ensures is_not { result ≡ false → ¬ (values.now ≡ others.now) }
{
    if values.len() != others.len() {
        return false;
    }
    for (place, value) in values.iter().enumerate() {
        if *value != others[place] {
            return false;
        }
    }
    true
}

/// Whether there is a core type, that of a signature.
pub fn has_signature(core: Option<&FuncType>, signature: &WasmSignature) -> bool
    ensures is { result ≡ true → option_map (λ t. func_type_value t.now) core.entry ≡ Some (core_type (signature_value signature.now)) }
    ensures is_not { result ≡ false → ¬ (option_map (λ t. func_type_value t.now) core.entry ≡ Some (core_type (signature_value signature.now))) }
{
    match core {
        Some(core) => {
            same_values(&core.params, &signature.params)
                && same_values(&core.results, &signature.results)
        }
        None => false,
    }
}

impl<'l, 'm, 'b> Lookup<'l, 'm, 'b> {
    /// What is looked up for a module and a world.
    pub fn new(
        alloc: Global,
        linking: &Linking<'l, 'm, 'b>,
    ) -> Result<Lookup<'l, 'm, 'b>, AllocError>
        requires packages { ArePackagesKnown linking.now.names.tables.packages.now linking.now.names.tables.interfaces.now }
        requires backward { AreTypesBackward linking.now.names.tables.types.now }
        ensures is { IfOk result IsLookup }
        ensures of { IfOk result (λ l. l.linking ≡ linking.now) }
    {
        let exports = ExportNames::new(alloc, &linking.names, linking.main.exports.as_slice())?;
        let flat = FlatTypes::new(alloc, linking.names.tables.types)?;
        Ok(Lookup {
            alloc,
            linking: *linking,
            exports,
            flat,
        })
    }

    /// Whether something has the core type of a function.
    pub fn is_of_type(
        &self,
        variant: AbiVariant,
        function: &Function,
        core: Option<&FuncType>,
    ) -> Result<bool, AllocError>
        requires lookup { IsLookup self.now }
        requires function { (t : WitTree) × HasTree (types_of (linking_value self.now.linking)) function.now t }
        ensures is { IfOk result (λ b. b ≡ true → IsOfType (types_of (linking_value self.now.linking)) variant function.now (option_map (λ t. func_type_value t.now) core.entry)) }
        ensures is_not { IfOk result (λ b. b ≡ false → IsMistyped (types_of (linking_value self.now.linking)) variant function.now (option_map (λ t. func_type_value t.now) core.entry)) }
    {
        law_unfolded_functions_are_flat();
        let signature = self.flat.signature(self.alloc, variant, function)?;
        Ok(has_signature(core, &signature))
    }

    /// What a function asks for.
    pub fn required(&self, variant: AbiVariant, function: &Function) -> Required
        requires lookup { IsLookup self.now }
        requires function { (t : WitTree) × HasTree (types_of (linking_value self.now.linking)) function.now t }
        ensures is { Requires (types_of (linking_value self.now.linking)) variant function.now (required_value result) }
        ensures only { (r : RequiredValue) → Requires (types_of (linking_value self.now.linking)) variant function.now r → r ≡ required_value result }
    {
        law_unfolded_functions_are_flat();
        self.flat.required(variant, function)
    }

    /// The place of the one core export that stands for something.
    pub fn place(&self, export: &WasmExport<'_>) -> Result<usize, LinkFault>
        requires lookup { IsLookup self.now }
        requires named { IsExportNamed (names_in self.now.linking.names).known (export_of «export».now) }
        ensures place { IfOk result (IsExportOf (linking_value self.now.linking).names (linking_value self.now.linking).main.exports (export_of «export».now)) }
        ensures cause { IfErr result (IsExportCause (linking_value self.now.linking).names (linking_value self.now.linking).main.exports (export_of «export».now)) }
    {
        self.exports.place(self.alloc, &self.linking.names, export)
    }

    /// The place of the one core export that stands for something; where there is none this is why.
    pub fn place_or(&self, export: &WasmExport<'_>, none: TableFault) -> Result<usize, TableFault>
        requires lookup { IsLookup self.now }
        requires named { IsExportNamed (names_in self.now.linking.names).known (export_of «export».now) }
        ensures place { IfOk result (IsThere (linking_value self.now.linking) (NamesOf (linking_value self.now.linking).names (export_of «export».now))) }
        ensures cause { IfErr result (IsPlaceCause (linking_value self.now.linking) (NamesOf (linking_value self.now.linking).names (export_of «export».now)) none) }
    {
        match self.place(export) {
            Ok(place) => Ok(place),
            Err(LinkFault::MissingCoreExport) => Err(none),
            Err(LinkFault::Ambiguous) => Err(TableFault::Link(LinkFault::Ambiguous)),
            Err(_) => Err(TableFault::OutOfMemory),
        }
    }
}
