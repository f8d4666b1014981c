//! The main module, and its instance.

ghost use Rattle.std.specs.Prelude.{◌≡◌, ◌+◌, ◌<◌, ◌++◌, ◌∷◌, [], length, map, OnOk, IfOk};
ghost use Rattle.component_definitions.specs.Canonical.{lower};
ghost use Rattle.component_instances.specs.Instances.{core_argument_value};
ghost use Rattle.linked_imports.specs.Passed.component_meaning-Spaces.{meaning};
ghost use Rattle.component_sections.specs.Component.{a_canonical};
ghost use Rattle.component_value_types.specs.Names.{named_value};
ghost use Rattle.core_links.specs.Imports.{RepeatsPair};
ghost use Rattle.linked_imports.specs.Passed.right_components-Main.{main_of};
ghost use Rattle.type_writing.specs.Writing.{Begins};
ghost use Rattle.wasm_format.specs.Module.{module_value};
ghost use Rattle.wasm_types.specs.Entries.{import_value};
ghost use Rattle.component_builder.specs.Builder.{index_behind};
ghost use Rattle.component_encoding.specs.Given as given;
ghost use Rattle.component_encoding.specs.Instances as spec;
ghost use Rattle.component_encoding.specs.Placing as placing;

use crate::given::{Given, Group};
use binary_grammar::WriteFault;
use component_builder::ComponentBuilder;
use component_definitions::CanonicalDefinition;
use component_instances::{CoreArgument, CoreInstance};
use component_sections::Definition;
use component_value_types::Named;
use std::alloc::Global;
use wasm_format::CoreModule;
use wasm_types::Import;

/// Lowers a function without options, and answers the index of the core function.
fn add_lowering(
    alloc: Global,
    builder: &mut ComponentBuilder<'_>,
    function: u32,
) -> Result<u32, WriteFault>
    ensures added { OnOk result (builder.new ≡ builder.old ++ a_canonical (lower function []) ∷ []) }
    ensures index { IfOk result (λ i. i ≡ index_behind builder.old (a_canonical (lower function []))) }
{
    builder.add(Definition::Canonical(CanonicalDefinition::Lower {
        function,
        options: Vec::new(alloc),
    }))
}

/// Lowers functions, one for each import, and gathers the core functions under the texts of the imports.
fn add_lowerings<'e>(
    alloc: Global,
    builder: &mut ComponentBuilder<'_>,
    imports: &[Import<'e>],
    functions: &[u32],
) -> Result<Given<'e>, WriteFault>
    requires { length functions.now ≡ length imports.now }
    ensures added { OnOk result (builder.new ≡ builder.old ++ map spec.lowering_of functions.now) }
    ensures given { IfOk result (λ g. given.AreGivenFor (index_behind builder.old (spec.lowering_of 0)) (map import_value imports.now) (map given.under_value g.groups.items)) }
    ensures once { (RepeatsPair (map import_value imports.now) → ⊥) → IfOk result (λ g. given.MayBeGiven (index_behind builder.old (spec.lowering_of 0) + length imports.now) (map given.under_value g.groups.items)) }
{
    let mut given = Given::new(alloc);
    for (place, import) in imports.iter().enumerate() {
        let index = add_lowering(alloc, builder, functions[place])?;
        given.add(alloc, import.module, import.name, index)?;
    }
    Ok(given)
}

/// Adds an instance of core functions by names, and answers it as what a module is given under the text.
fn add_group<'e>(
    builder: &mut ComponentBuilder<'e>,
    group: Group<'e>,
) -> Result<Named<'e, CoreArgument>, WriteFault>
    ensures added { OnOk result (builder.new ≡ builder.old ++ spec.instance_of (given.under_value group.entry) ∷ []) }
    ensures argument { IfOk result (λ a. named_value core_argument_value a ≡ record { name = group.entry.text.now; item = index_behind builder.old (spec.instance_of (given.under_value group.entry)) }) }
{
    let instance = builder.add(Definition::CoreInstance(CoreInstance::Inline(group.items)))?;
    Ok(Named {
        name: group.text,
        item: CoreArgument { instance },
    })
}

/// Adds an instance for each group, and answers them as what a module is given.
fn add_groups<'e>(
    alloc: Global,
    builder: &mut ComponentBuilder<'e>,
    groups: Vec<Group<'e>>,
) -> Result<Vec<Named<'e, CoreArgument>>, WriteFault>
    ensures added { OnOk result (builder.new ≡ builder.old ++ map spec.instance_of (map given.under_value groups.entry.items)) }
    ensures arguments { IfOk result (λ v. map (named_value core_argument_value) v.items ≡ spec.arguments_from (index_behind builder.old (spec.instance_of (record { text = []; items = [] }))) (map given.under_value groups.entry.items)) }
{
    let mut args = Vec::new(alloc);
    for group in groups {
        args.push(add_group(builder, group)?)?;
    }
    Ok(args)
}

/// Adds a module's instance, and answers its index.
fn add_instance<'e>(
    builder: &mut ComponentBuilder<'e>,
    core_module: u32,
    args: Vec<Named<'e, CoreArgument>>,
) -> Result<u32, WriteFault>
    ensures added { OnOk result (builder.new ≡ builder.old ++ spec.instantiation core_module (map (named_value core_argument_value) args.entry.items) ∷ []) }
    ensures index { IfOk result (λ i. i ≡ index_behind builder.old (spec.instantiation core_module (map (named_value core_argument_value) args.entry.items))) }
{
    builder.add(Definition::CoreInstance(CoreInstance::Instantiate { core_module, args }))
}

/// Adds the main module of these bytes, lowerings of functions, one for each of its imports, in their order, and an instance of the module
/// that is given these, and answers the index of that instance (Component Model, Explainer, Core Definitions; Canonical ABI, canon lower).
/// Answers `TooLarge` where 32 bits can't say an index, and `OutOfMemory` where memory is wanting.
pub fn add_main_module<'e>(
    alloc: Global,
    builder: &mut ComponentBuilder<'e>,
    main: &CoreModule<'e>,
    bytes: &'e [u8],
    functions: &[u32],
) -> Result<u32, WriteFault>
    requires so_many { length functions.now ≡ length main.now.imports.items }
    requires distinct { RepeatsPair (map import_value main.now.imports.items) → ⊥ }
    ensures begins { OnOk result (Begins builder.old builder.new) }
    ensures instance { spec.AreLowerable (main_of bytes.entry.now (module_value main.now)) (meaning (main_of bytes.entry.now (module_value main.now)) builder.old) functions.now → IfOk result (spec.IsInstantiated (main_of bytes.entry.now (module_value main.now)) (meaning (main_of bytes.entry.now (module_value main.now)) builder.old) (meaning (main_of bytes.entry.now (module_value main.now)) builder.new) functions.now) }
    ensures placed { spec.AreLowerable (main_of bytes.entry.now (module_value main.now)) (meaning (main_of bytes.entry.now (module_value main.now)) builder.old) functions.now → OnOk result (placing.StayPlaced builder.old builder.new) }
{
    let core_module = builder.add(Definition::CoreModule(bytes))?;
    let given = add_lowerings(alloc, builder, main.imports.as_slice(), functions)?;
    let args = add_groups(alloc, builder, given.into_groups())?;
    let instance = add_instance(builder, core_module, args)?;
    Ok(instance)
}
