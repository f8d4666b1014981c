//! The whole component.

ghost use Rattle.std.specs.Prelude.{◌≡◌, ◌++◌, [], length, map, string_bytes, IfOk, IfErr, OnOk, true};
ghost use Rattle.component_entries.specs.Entries.{entry_value};
ghost use Rattle.linked_imports.specs.Passed.component_imports-Functions.{functions_of, function_names};
ghost use Rattle.linked_imports.specs.Passed.component_imports-Interfaces.{EarlierAreApart};
ghost use Rattle.linked_imports.specs.Passed.component_meaning-Spaces.{meaning};
ghost use Rattle.linked_imports.specs.Imports as imported;
ghost use Rattle.linked_imports.specs.Passed.link_table-Linking.{linking_value, types_of, exported_functions as functions_exported, AreFunctionsThere};
ghost use Rattle.linked_imports.specs.Passed.link_table-View.{IsTableOf};
ghost use Rattle.linked_imports.specs.Passed.right_components-Main.{main_of};
ghost use Rattle.linked_imports.specs.Passed.right_components-Outside.{AreInterfaceNames};
ghost use Rattle.linked_imports.specs.Passed.right_components-Right.{IsRightFor};
ghost use Rattle.type_writing.specs.Passed.type_meaning-Scope.{meaning as scope_meaning};
ghost use Rattle.linked_imports.specs.Passed.type_sinks-Placing.{as_definitions};
ghost use Rattle.linked_imports.specs.Passed.type_sinks-Root.{InterfaceNames};
ghost use Rattle.type_writing.specs.Refusals.{IsCause};
ghost use Rattle.wit_reach.specs.Lists.{AreOwnersThere};
ghost use Rattle.wit_reach.specs.Types.{AreTypesBackward};
ghost use Rattle.distinct_names.specs.Names.{all_new};
ghost use Rattle.component_encoding.specs.Component as spec;
ghost use Rattle.component_encoding.specs.Placing as placing;

use crate::exports::add_exports;
use crate::instances::add_main_module;
use binary_grammar::WriteFault;
use component_builder::ComponentBuilder;
use component_sections::{Definition, Entry};
use flat_trees::{law_unfolded_functions_are_flat, law_written_trees_keep_core_types};
use linked_imports::{LinkTable, Linking, WrittenImports, exported_functions, write_imports};
use std::alloc::Global;
use type_writing::Fault;
use wit_types::{Function, WorldId};

/// The same cause, of what is written of types.
fn fault_of(fault: WriteFault) -> Fault
    ensures { IsCause ⊥ (Unit {0}) result }
{
    match fault {
        WriteFault::OutOfMemory => Fault::OutOfMemory,
        WriteFault::TooLarge => Fault::TooLarge,
    }
}

/// Adds types, imports and aliases.
fn add_entries<'e>(
    builder: &mut ComponentBuilder<'e>,
    entries: Vec<Entry<'e>>,
) -> Result<(), WriteFault>
    ensures { OnOk result (builder.new ≡ builder.old ++ as_definitions (map entry_value entries.entry.items)) }
{
    for entry in entries {
        builder.add(Definition::Entry(entry))?;
    }
    Ok(())
}

/// Adds what is imported, the main module with its instance, and what is exported.
fn add_linked<'e>(
    alloc: Global,
    builder: &mut ComponentBuilder<'e>,
    linking: &Linking<'e, 'e, 'e>,
    table: &LinkTable,
    bytes: &'e [u8],
    exported: &[&'e Function],
    imports: WrittenImports<'e>,
) -> Result<(), WriteFault>
    requires empty { builder.now ≡ [] }
    requires table { IsTableOf (linking_value linking.now) table.now }
    requires exported { functions_of exported.now ≡ functions_exported (linking_value linking.now).names.world }
    requires lowered { length imports.lowered.items ≡ length (linking_value linking.now).main.imports }
    requires lifted { length imports.lifted.items ≡ length (functions_exported (linking_value linking.now).names.world) }
    requires backward { AreTypesBackward (types_of (linking_value linking.now)) }
    ensures right { (names : InterfaceNames) (is : IsTableOf (linking_value linking.entry.now) table.now) → AreInterfaceNames (linking_value linking.entry.now).names (linking_value linking.entry.now).main.imports names → imported.AreImportsWritten (linking_value linking.entry.now) is.table names (scope_meaning (map entry_value imports.entry.entries.items)) imports.entry.lowered.items imports.entry.lifted.items → OnOk result ((imported.AreImportsListed (linking_value linking.entry.now) names (scope_meaning (map entry_value imports.entry.entries.items)) → IsRightFor (linking_value linking.entry.now) bytes.entry.now is.table (meaning (main_of bytes.entry.now (linking_value linking.entry.now).main) builder.new)) × spec.ArePlacedBehind (map entry_value imports.entry.entries.items) (functions_exported (linking_value linking.entry.now).names.world) builder.new) }
{
    let main = linking.main;
    law_unfolded_functions_are_flat();
    law_written_trees_keep_core_types();
    add_entries(builder, imports.entries)?;
    let instance = add_main_module(alloc, builder, main, bytes, imports.lowered.as_slice())?;
    add_exports(
        alloc,
        builder,
        main.exports.as_slice(),
        instance,
        table.exports(),
        exported,
        imports.lifted.as_slice(),
    )?;
    Ok(())
}

/// The component of a link table: it imports what the table needs of the world, under names by the ids of interfaces, instantiates the
/// main module of these bytes with that, and exports the functions that the world exports (Component Model, Explainer, Component
/// Definitions; Canonical ABI, canon lift and canon lower). Answers `NotYet` where what is needed can't be imported, `TooLarge` where 32
/// bits can't say an index, and `OutOfMemory` where memory is wanting.
pub fn component_of<'e>(
    alloc: Global,
    linking: &Linking<'e, 'e, 'e>,
    table: &LinkTable,
    world: WorldId,
    names: &'e [String],
    bytes: &'e [u8],
) -> Result<ComponentBuilder<'e>, Fault>
    requires table { IsTableOf (linking_value linking.now) table.now }
    requires names { AreInterfaceNames (linking_value linking.now).names (linking_value linking.now).main.imports (map string_bytes names.now) }
    requires backward { AreTypesBackward (types_of (linking_value linking.now)) }
    requires there { AreFunctionsThere (linking_value linking.now).names }
    requires owners { AreOwnersThere (length (linking_value linking.now).names.known.interfaces) (types_of (linking_value linking.now)) }
    requires apart { EarlierAreApart (types_of (linking_value linking.now)) }
    ensures right { (is : IsTableOf (linking_value linking.entry.now) table.now) → spec.AreNeededListed (linking_value linking.entry.now) world → IfOk result (λ b. IsRightFor (linking_value linking.entry.now) bytes.entry.now is.table (meaning (main_of bytes.entry.now (linking_value linking.entry.now).main) b)) }
    ensures placed { imported.ArePartsApart (linking_value linking.entry.now) → all_new [] (function_names (functions_exported (linking_value linking.entry.now).names.world)) ≡ true → IfOk result placing.ArePlaced }
    ensures importable { imported.IsImportable (linking_value linking.entry.now) world (map string_bytes names.entry.now) → IfErr result (IsCause ⊥ (Unit {0})) }
{
    let exported = exported_functions(alloc, linking.names.world)?;
    let exported = exported.as_slice();
    let imports = write_imports(alloc, linking, table, world, names, exported)?;
    let mut builder = ComponentBuilder::new(alloc);
    match add_linked(
        alloc,
        &mut builder,
        linking,
        table,
        bytes,
        exported,
        imports,
    ) {
        Ok(()) => Ok(builder),
        Err(fault) => Err(fault_of(fault)),
    }
}

/// The bytes of the component of a link table (Component Model Binary, Component Definitions). Answers what `component_of` does, and
/// `TooLarge` where 32 bits can't say a size.
pub fn encode<'e>(
    alloc: Global,
    linking: &Linking<'e, 'e, 'e>,
    table: &LinkTable,
    world: WorldId,
    names: &'e [String],
    bytes: &'e [u8],
) -> Result<Vec<u8>, Fault>
    requires table { IsTableOf (linking_value linking.now) table.now }
    requires names { AreInterfaceNames (linking_value linking.now).names (linking_value linking.now).main.imports (map string_bytes names.now) }
    requires backward { AreTypesBackward (types_of (linking_value linking.now)) }
    requires there { AreFunctionsThere (linking_value linking.now).names }
    requires owners { AreOwnersThere (length (linking_value linking.now).names.known.interfaces) (types_of (linking_value linking.now)) }
    requires apart { EarlierAreApart (types_of (linking_value linking.now)) }
    ensures right { (is : IsTableOf (linking_value linking.entry.now) table.now) → spec.AreNeededListed (linking_value linking.entry.now) world → imported.ArePartsApart (linking_value linking.entry.now) → all_new [] (function_names (functions_exported (linking_value linking.entry.now).names.world)) ≡ true → IfOk result (λ v. spec.IsEncoding (linking_value linking.entry.now) bytes.entry.now is.table v.items) }
    ensures importable { imported.IsImportable (linking_value linking.entry.now) world (map string_bytes names.entry.now) → IfErr result (IsCause ⊥ (Unit {0})) }
{
    let component = component_of(alloc, linking, table, world, names, bytes)?;
    match component.finish(alloc) {
        Ok(encoded) => Ok(encoded),
        Err(fault) => Err(fault_of(fault)),
    }
}
