//! The options of links: the memory, what makes room in it, how strings are encoded.

ghost use Rattle.std.specs.Prelude.{◌≡◌, ◌⊎◌, true, false, length, slice_get, Some, Bool, option_map, IfOk, IfErr, OnOk};
ghost use Rattle.wasm_types.specs.Types.{func_type_value};
ghost use Rattle.canonical_options.specs.Passed.flat_types-View.{required_value};
ghost use Rattle.link_table.specs.Lookups.{IsLookup};
ghost use Rattle.link_table.specs.Linking.{linking_value};
ghost use Rattle.core_links.specs.Exports.{IsFoundAs, IsUnclearCause};
ghost use Rattle.link_table.specs.Options as spec;
ghost use Rattle.link_table.specs.View.{options_value};

use crate::fault::TableFault;
use crate::lookup::{Lookup, same_values};
use canonical_options::Required;
use core_links::LinkFault;
use link_lines::StringEncoding;
use wasm_types::{ExportKind, FuncType, ValType};
use wit_core_names::WasmExport;
use wit_types::{AbiVariant, Function, WorldKey};

/// The options of a link, with the places of core exports among those of the module, from 0.
#[derive(Clone, Copy)]
pub struct LinkOptions {
    /// The memory of the module.
    pub memory: Option<usize>,
    /// What makes room in that.
    pub realloc: Option<usize>,
    /// How strings are encoded.
    pub encoding: Option<StringEncoding>,
}

/// The name of what makes room for one side alone.
fn own_realloc_name(variant: AbiVariant) -> &'static str
    ensures { result.now ≡ spec.own_realloc_name variant }
{
    match variant {
        AbiVariant::GuestImport => "cabi_import_realloc",
        AbiVariant::GuestExport => "cabi_export_realloc",
    }
}

/// Whether something has the core type of what makes room.
fn is_realloc_type(core: Option<&FuncType>) -> bool
    ensures is { result ≡ true → option_map (λ t. func_type_value t.now) core.entry ≡ Some spec.realloc_type }
    ensures is_not { result ≡ false → ¬ (option_map (λ t. func_type_value t.now) core.entry ≡ Some spec.realloc_type) }
{
    match core {
        Some(core) => {
            same_values(
                &core.params,
                &[ValType::I32, ValType::I32, ValType::I32, ValType::I32],
            ) && same_values(&core.results, &[ValType::I32])
        }
        None => false,
    }
}

impl Lookup<'_, '_, '_> {
    /// The place of the memory that the module exports.
    fn memory(&self) -> Result<usize, TableFault>
        requires lookup { IsLookup self.now }
        ensures has { IfOk result (spec.IsMemoryAt (linking_value self.now.linking)) }
        ensures cause { IfErr result (spec.IsMemoryCause (linking_value self.now.linking)) }
    {
        // The borrow check is to know the types of what an export lends.
        let _lends: Option<(&WorldKey, &Function)> = None;
        let place = self.place_or(&WasmExport::Memory, TableFault::NoMemory)?;
        if self.linking.main.exports[place].kind != ExportKind::Memory {
            return Err(TableFault::Link(LinkFault::WrongCoreType));
        }
        Ok(place)
    }

    /// The place of what makes room for one side alone, if there is one.
    fn own_realloc(&self, variant: AbiVariant) -> Result<Option<usize>, LinkFault>
        requires lookup { IsLookup self.now }
        ensures found { IfOk result (IsFoundAs (linking_value self.now.linking).names (linking_value self.now.linking).main.exports (spec.IsOwnReallocName (linking_value self.now.linking).names variant)) }
        ensures cause { IfErr result (IsUnclearCause (linking_value self.now.linking).names (linking_value self.now.linking).main.exports (spec.IsOwnReallocName (linking_value self.now.linking).names variant)) }
    {
        if !self.linking.names.counts_legacy() {
            return Ok(None);
        }
        self.exports.named(own_realloc_name(variant))
    }

    /// The place of what makes room for a side.
    fn realloc_place(&self, variant: AbiVariant) -> Result<usize, TableFault>
        requires lookup { IsLookup self.now }
        ensures place { IfOk result (spec.IsReallocAt (linking_value self.now.linking) variant) }
        ensures cause { IfErr result (spec.IsReallocPlaceCause (linking_value self.now.linking) variant) }
    {
        // The borrow check is to know the types of what an export lends.
        let _lends: Option<(&WorldKey, &Function)> = None;
        match self.own_realloc(variant)? {
            Some(place) => Ok(place),
            None => self.place_or(&WasmExport::Realloc, TableFault::NoRealloc),
        }
    }

    /// The place of what makes room for a side, which has its core type.
    fn realloc(&self, variant: AbiVariant) -> Result<usize, TableFault>
        requires lookup { IsLookup self.now }
        ensures has { IfOk result (spec.IsTypedRealloc (linking_value self.now.linking) variant) }
        ensures cause { IfErr result (spec.IsReallocCause (linking_value self.now.linking) variant) }
    {
        let place = self.realloc_place(variant)?;
        let main = self.linking.main;
        if !is_realloc_type(main.exported_type(&main.exports[place])) {
            return Err(TableFault::Link(LinkFault::WrongCoreType));
        }
        Ok(place)
    }

    /// The options of a function that asks for these.
    pub fn options_for(
        &self,
        variant: AbiVariant,
        required: Required,
    ) -> Result<LinkOptions, TableFault>
        requires lookup { IsLookup self.now }
        ensures options { IfOk result (λ o. spec.AreOptions (linking_value self.now.linking) variant (required_value required) (options_value (linking_value self.now.linking).main.exports o)) }
        ensures cause { IfErr result (spec.IsOptionsCause (linking_value self.now.linking) variant (required_value required)) }
    {
        let memory = if required.memory {
            Some(self.memory()?)
        } else {
            None
        };
        let realloc = if required.realloc {
            Some(self.realloc(variant)?)
        } else {
            None
        };
        let encoding = required.encoding.then_some(self.linking.encoding);
        Ok(LinkOptions {
            memory,
            realloc,
            encoding,
        })
    }
}
