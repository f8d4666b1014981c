//! Core exports that are called at other times than the functions of a world: they are to come.

ghost use Rattle.std.specs.Prelude.{◌≡◌, true, false, None, map, IfOk, IfErr, OnOk};
ghost use Rattle.wit_names.specs.Names.{ArePackagesKnown};
ghost use Rattle.wit_core_names.specs.Exports.{IsExportNamed};
ghost use Rattle.wit_core_names.specs.Items.{CoreExport, export_of};
ghost use Rattle.wit_core_names.specs.declared.items.WasmExportKind.TheVariants.{PostReturn};
ghost use Rattle.core_links.specs.Names.{names_in};
ghost use Rattle.link_table.specs.Apart as spec;
ghost use Rattle.link_table.specs.Coming.{IsSomewhere, IsHookName};
ghost use Rattle.link_table.specs.Lookups.{IsLookup};
ghost use Rattle.link_table.specs.Linking.{linking_value};
ghost use Rattle.link_table.specs.Options.{NamesOf, IsMissing};

use crate::exports::own_export;
use crate::fault::TableFault;
use crate::lookup::Lookup;
use core_links::LinkFault;
use std::alloc::AllocError;
use wit_core_names::{WasmExport, WasmExportKind};
use wit_types::{Function, WorldKey};

impl Lookup<'_, '_, '_> {
    /// Whether a core export has a name that stands for something.
    fn is_exported(&self, export: &WasmExport<'_>) -> Result<bool, AllocError>
        requires lookup { IsLookup self.now }
        requires named { IsExportNamed (linking_value self.now.linking).names.known (export_of «export».now) }
        ensures yes { IfOk result (λ b. b ≡ true → IsSomewhere (linking_value self.now.linking) (NamesOf (linking_value self.now.linking).names (export_of «export».now))) }
        ensures no { IfOk result (λ b. b ≡ false → IsMissing (linking_value self.now.linking) (NamesOf (linking_value self.now.linking).names (export_of «export».now))) }
    {
        match self.place(export) {
            Ok(_place) => Ok(true),
            Err(LinkFault::Ambiguous) => Ok(true),
            Err(LinkFault::MissingCoreExport) => Ok(false),
            Err(_) => Err(AllocError),
        }
    }

    /// Whether a core export has the name of the function that is called before others and behind them.
    fn has_hook(&self) -> Result<bool, AllocError>
        requires lookup { IsLookup self.now }
        ensures yes { IfOk result (λ b. b ≡ true → IsSomewhere (linking_value self.now.linking) IsHookName) }
        ensures no { IfOk result (λ b. b ≡ false → IsMissing (linking_value self.now.linking) IsHookName) }
    {
        match self.exports.named("__wasm_task_hook") {
            Ok(place) => Ok(place.is_some()),
            Err(LinkFault::Ambiguous) => Ok(true),
            Err(_) => Err(AllocError),
        }
    }

    /// Looks whether a core export is called behind one of these functions.
    fn check_post_returns(&self, functions: &[&Function]) -> Result<(), TableFault>
        requires lookup { IsLookup self.now }
        ensures none { OnOk result (spec.HaveNoPostReturns (linking_value self.now.linking) (map (λ f. f.now) functions.now)) }
        ensures cause { IfErr result (spec.IsPostReturnCause (linking_value self.now.linking) (map (λ f. f.now) functions.now)) }
    {
        // The borrow check is to know the types of what an export lends.
        let _lends: Option<(&WorldKey, &Function)> = None;
        for function in functions {
            if self.is_exported(&own_export(function, WasmExportKind::PostReturn))? {
                return Err(TableFault::NotYet);
            }
        }
        Ok(())
    }

    /// Looks whether a core export is called at another time than these functions, which the world exports.
    pub fn check_apart(&self, functions: &[&Function]) -> Result<(), TableFault>
        requires lookup { IsLookup self.now }
        ensures none { OnOk result (spec.AreNoneApart (linking_value self.now.linking) (map (λ f. f.now) functions.now)) }
        ensures cause { IfErr result (spec.IsApartCause (linking_value self.now.linking) (map (λ f. f.now) functions.now)) }
    {
        // The borrow check is to know the types of what an export lends.
        let _lends: Option<(&WorldKey, &Function)> = None;
        if self.has_hook()? || self.is_exported(&WasmExport::Initialize)? {
            return Err(TableFault::NotYet);
        }
        self.check_post_returns(functions)
    }
}
