//! The core exports that stand for the functions of a world.

ghost use Rattle.std.specs.Prelude.{◌≡◌, ◌<◌, ◌++◌, length, slice_get, Some, None, map, option_map, option_and_then, IfOk, IfErr, OnOk};
ghost use Rattle.wit_core_names.specs.Items.{CoreExport, export_of};
ghost use Rattle.flat_trees.specs.Passed.type_writing-Unfolding.{WitTree};
ghost use Rattle.link_table.specs.Exports as spec;
ghost use Rattle.link_table.specs.Lookups.{IsLookup};
ghost use Rattle.link_table.specs.Linking.{linking_value, types_of, function_at, functions_at, AreFunctions};
ghost use Rattle.link_table.specs.Types.{HasTree};
ghost use Rattle.link_table.specs.View.{IsExportLink};

use crate::fault::TableFault;
use crate::lookup::Lookup;
use crate::options::LinkOptions;
use core_links::LinkFault;
use wit_core_names::{WasmExport, WasmExportKind};
use wit_types::{AbiVariant, Function, World, WorldItem, WorldKey};

/// The core export at which a function that a world exports ends, by its place, and the options of the lift.
#[derive(Clone, Copy)]
pub struct ExportLink {
    /// The place of the core export, from 0.
    pub export: usize,
    /// What its lift has.
    pub options: LinkOptions,
}

/// The function that a world exports itself at a place among its exports, which has to be there; none where it's something else (WIT, Item: `world`).
pub fn exported_function(world: &World, entry: usize) -> Option<&Function>
    requires { entry < length world.now.exports.entries }
    ensures { option_map (λ f. f.now) result ≡ option_and_then (λ e. function_at e.1) (slice_get world.entry.now.exports.entries entry) }
{
    let (_, item) = world.exports.get_index(entry)?;
    match item {
        WorldItem::Function(function) => Some(function),
        _ => None,
    }
}

/// Adds the functions that a world exports, which are all that it exports.
pub fn add_exported<'l>(
    functions: &mut Vec<&'l Function>,
    world: &'l World,
) -> Result<(), TableFault>
    ensures functions { OnOk result (map (λ f. f.now) functions.new.items ≡ map (λ f. f.now) functions.old.items ++ functions_at world.now.exports.entries) }
    ensures only { OnOk result (AreFunctions world.now) }
    ensures cause { IfErr result (spec.IsInterfaceCause world.now) }
{
    for entry in 0..world.exports.len() {
        let Some(function) = exported_function(world, entry) else {
            return Err(TableFault::NotYet);
        };
        functions.push(function)?;
    }
    Ok(())
}

/// What stands for a function of the world itself.
pub fn own_export(function: &Function, kind: WasmExportKind) -> WasmExport<'_>
    ensures { export_of result ≡ CoreExport.func None function.entry.now kind }
{
    WasmExport::Func {
        interface: None,
        func: function,
        kind,
    }
}

impl Lookup<'_, '_, '_> {
    /// The place of the core export that stands for a function, which has its core type.
    fn typed_export(&self, function: &Function) -> Result<usize, TableFault>
        requires lookup { IsLookup self.now }
        requires function { (t : WitTree) × HasTree (types_of (linking_value self.now.linking)) function.now t }
        ensures found { IfOk result (spec.IsTypedExport (linking_value self.now.linking) function.now) }
        ensures cause { IfErr result (spec.IsTypedCause (linking_value self.now.linking) function.now) }
    {
        // The borrow check is to know the types of what an export lends.
        let _lends: Option<(&WorldKey, &Function)> = None;
        let place = self.place_or(
            &own_export(function, WasmExportKind::Normal),
            TableFault::Link(LinkFault::MissingCoreExport),
        )?;
        let main = self.linking.main;
        let core = main.exported_type(&main.exports[place]);
        if !self.is_of_type(AbiVariant::GuestExport, function, core)? {
            return Err(TableFault::Link(LinkFault::WrongCoreType));
        }
        Ok(place)
    }

    /// The link of a function that the world exports.
    pub fn export_link(&self, function: &Function) -> Result<ExportLink, TableFault>
        requires lookup { IsLookup self.now }
        requires function { (t : WitTree) × HasTree (types_of (linking_value self.now.linking)) function.now t }
        ensures link { IfOk result (IsExportLink (linking_value self.now.linking) function.now) }
        ensures cause { IfErr result (spec.IsExportCause (linking_value self.now.linking) function.now) }
    {
        let export = self.typed_export(function)?;
        let required = self.required(AbiVariant::GuestExport, function);
        let options = self.options_for(AbiVariant::GuestExport, required)?;
        Ok(ExportLink { export, options })
    }
}
