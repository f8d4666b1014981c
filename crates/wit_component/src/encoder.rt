//! Writing the component of an input.

ghost use Rattle.std.specs.Prelude.{◌≡◌, ◌⊎◌, ◌+◌, ◌^◌, ◌<◌, ◌≤◌, ◌++◌, ◌∷◌, ℕ, List, [], true, false, None, length, map, option_map, OnOk, IfOk, IfErr, IfNone, IsNone, Err};
ghost use Rattle.std.specs.List.{flat_map};
ghost use Rattle.component_value_types.specs.Names.{named_value};
ghost use Rattle.component_instances.specs.Instances.{core_argument_value};
ghost use Rattle.component_sections.specs.Component.{definition_value};
ghost use Rattle.known_definitions.specs.Definition.{core_module_of, instantiation_of, alias_of, type_of, lift_of, lower_of, import_of, export_of};
ghost use Rattle.known_definitions.specs.Known.{primitive_value, value_type as value_type_of, named_parameter, named_argument, named_function, definition_of};
ghost use Rattle.known_definitions.specs.Component.{IsComponent, Fits};
ghost use Rattle.plain_worlds.specs.World.{param_item, function_item, world_fits};
ghost use Rattle.wit_component.specs.Linking.{Linking as LinkingValue};
ghost use Rattle.wit_component.specs.Table.{needed, exported_by};
ghost use Rattle.wit_component.specs.Places.{ArePlaces, names_under};
ghost use Rattle.wit_component.specs.Component.{numbered, types_of, given_under, instance_with, argument_for, instances_for, instance_side, component_of as component_value};
ghost use Rattle.wit_component.specs.Cause.{IsLinkable, IsEncodeCause, IsTooLarge};
ghost use Rattle.wit_component.specs.View as view;
ghost use Rattle.wit_component.specs.Written.{written, among};

use crate::fault::Fault;
use crate::linking::Linking;
use crate::table::{ROOT, STANDARD, Table, needed_functions, references, table_of};
use binary_grammar::WriteFault;
use component_builder::write_definitions;
use component_definitions::{
    Alias, CanonicalDefinition, ComponentSort, Description, Export, Import, Sort,
};
use component_instances::{CoreArgument, CoreInstance, CoreItem, TypeDefinition};
use component_sections::{Definition, Entry};
use component_value_types::{DefinedType, FunctionType, Named, PrimitiveValueType, ValueType};
use distinct_names::Names;
use plain_worlds::{Function, Param, PrimitiveType};
use std::alloc::{AllocError, Global};
use wasm_types::ExportKind;

fn primitive_of(ty: PrimitiveType) -> PrimitiveValueType
    ensures { result ≡ primitive_value ty }
{
    match ty {
        PrimitiveType::Bool => PrimitiveValueType::Bool,
        PrimitiveType::S8 => PrimitiveValueType::S8,
        PrimitiveType::U8 => PrimitiveValueType::U8,
        PrimitiveType::S16 => PrimitiveValueType::S16,
        PrimitiveType::U16 => PrimitiveValueType::U16,
        PrimitiveType::S32 => PrimitiveValueType::S32,
        PrimitiveType::U32 => PrimitiveValueType::U32,
        PrimitiveType::S64 => PrimitiveValueType::S64,
        PrimitiveType::U64 => PrimitiveValueType::U64,
    }
}

fn value_type(ty: PrimitiveType) -> ValueType
    ensures { result ≡ value_type_of ty }
{
    ValueType::Primitive(primitive_of(ty))
}

fn result_of(ty: Option<PrimitiveType>) -> Option<ValueType>
    ensures { result ≡ option_map value_type_of ty }
{
    match ty {
        Some(ty) => Some(value_type(ty)),
        None => None,
    }
}

/// A function's parameters for the component.
fn parameters_of<'s>(
    alloc: Global,
    params: &'s [Param],
) -> Result<Vec<Named<'s, ValueType>>, AllocError>
    ensures { IfOk result (λ v. map (named_value (λ t. t)) v.items ≡ map named_parameter (map param_item params.entry.now)) }
{
    let mut found = Vec::new(alloc);
    for param in params {
        found.push(Named {
            name: param.name.as_str(),
            item: value_type(param.ty),
        })?;
    }
    Ok(found)
}

/// The definition of a function's type.
fn type_definition<'s>(alloc: Global, function: &'s Function) -> Result<Definition<'s>, AllocError>
    ensures { IfOk result (λ d. definition_value d ≡ definition_of (type_of (function_item function.entry.now).ty)) }
{
    let ty = FunctionType {
        params: parameters_of(alloc, &function.params)?,
        result: result_of(function.result),
    };
    let defined = TypeDefinition::Defined(DefinedType::Function(ty));
    Ok(Definition::Entry(Entry::Type_(defined)))
}

/// Adds the types of functions.
fn put_types<'s>(
    alloc: Global,
    functions: &[&'s Function],
    out: &mut Vec<Definition<'s>>,
) -> Result<(), AllocError>
    ensures { OnOk result (written out.new.items ≡ written out.old.items ++ among (types_of (map (λ f. function_item f.now) functions.now))) }
{
    for function in functions {
        out.push(type_definition(alloc, function)?)?;
    }
    Ok(())
}

/// Imports functions under their names, the first with the type at 0, and so on.
fn put_imports<'s>(
    functions: &[&'s Function],
    out: &mut Vec<Definition<'s>>,
) -> Result<(), AllocError>
    requires few { length functions.now ≤ 2 ^ 32 }
    ensures { OnOk result (written out.new.items ≡ written out.old.items ++ among (numbered (λ n f. import_of f.name n) 0 (map (λ f. function_item f.now) functions.now))) }
{
    for (place, function) in functions.iter().enumerate() {
        let import = Import {
            name: function.name.as_str(),
            description: Description::Function(place as u32),
        };
        out.push(Definition::Entry(Entry::Import(import)))?;
    }
    Ok(())
}

/// Lowers as many of the first functions as these are.
fn put_lowers(
    alloc: Global,
    functions: &[&Function],
    out: &mut Vec<Definition<'_>>,
) -> Result<(), AllocError>
    requires few { length functions.now ≤ 2 ^ 32 }
    ensures { OnOk result (written out.new.items ≡ written out.old.items ++ among (numbered (λ n f. lower_of n) 0 (map (λ f. function_item f.now) functions.now))) }
{
    for (place, _function) in functions.iter().enumerate() {
        let lower = CanonicalDefinition::Lower {
            function: place as u32,
            options: Vec::new(alloc),
        };
        out.push(Definition::Canonical(lower))?;
    }
    Ok(())
}

/// Takes core exports of an instance, by their names.
fn put_aliases<'s>(
    instance: u32,
    names: &[&'s str],
    out: &mut Vec<Definition<'s>>,
) -> Result<(), AllocError>
    ensures { OnOk result (written out.new.items ≡ written out.old.items ++ among (map (λ t. alias_of instance t.now) names.now)) }
{
    for name in names {
        let alias = Alias::CoreInstanceExport {
            kind: ExportKind::Func,
            instance,
            name,
        };
        out.push(Definition::Entry(Entry::Alias(alias)))?;
    }
    Ok(())
}

/// Lifts as many core functions as these are from an index on, with the types from that index on.
fn put_lifts(
    alloc: Global,
    from: usize,
    functions: &[&Function],
    out: &mut Vec<Definition<'_>>,
) -> Result<(), AllocError>
    requires few { from + length functions.now ≤ 2 ^ 32 }
    ensures { OnOk result (written out.new.items ≡ written out.old.items ++ among (numbered (λ n f. lift_of n n) from (map (λ f. function_item f.now) functions.now))) }
{
    for (place, _function) in functions.iter().enumerate() {
        let index = (from + place) as u32;
        let lift = CanonicalDefinition::Lift {
            core_function: index,
            options: Vec::new(alloc),
            ty: index,
        };
        out.push(Definition::Canonical(lift))?;
    }
    Ok(())
}

/// Exports functions under their names, the first as the function at an index, and so on.
fn put_exports<'s>(
    from: usize,
    functions: &[&'s Function],
    out: &mut Vec<Definition<'s>>,
) -> Result<(), AllocError>
    requires few { from + length functions.now ≤ 2 ^ 32 }
    ensures { OnOk result (written out.new.items ≡ written out.old.items ++ among (numbered (λ n f. export_of f.name n None) from (map (λ f. function_item f.now) functions.now))) }
{
    for (place, function) in functions.iter().enumerate() {
        let export = Export {
            name: function.name.as_str(),
            sort: Sort::Component(ComponentSort::Function),
            index: (from + place) as u32,
            ascribed: None,
        };
        out.push(Definition::Entry(Entry::Export(export)))?;
    }
    Ok(())
}

/// What a core instance gives the main module under one module text: the lowerings of the functions that are
/// imported there, the first function's at 0, and so on.
fn inline_exports<'s>(
    alloc: Global,
    functions: &[&'s Function],
    imported: &Names,
) -> Result<Vec<Named<'s, CoreItem>>, AllocError>
    requires few { length functions.now ≤ 2 ^ 32 }
    ensures { (l : LinkingValue) (place : List ℕ) → imported.now ≡ names_under l place → (map (λ f. function_item f.now) functions.now) ≡ needed l → IfOk result (λ v. map (named_value (λ x. x)) v.items ≡ map named_function (given_under l place)) }
{
    let mut found = Vec::new(alloc);
    for (place, function) in functions.iter().enumerate() {
        let name = function.name.as_str();
        if imported.is_new(name) {
            continue;
        }
        let kind = ExportKind::Func;
        let index = place as u32;
        found.push(Named {
            name,
            item: CoreItem { kind, index },
        })?;
    }
    Ok(found)
}

/// Adds what a core instance gives the main module under one module text, if anything, and notes it as an argument: the
/// instance behind those that are noted.
fn put_inline<'s>(
    alloc: Global,
    functions: &[&'s Function],
    imported: &Names,
    place: &'s str,
    args: &mut Vec<Named<'s, CoreArgument>>,
    out: &mut Vec<Definition<'s>>,
) -> Result<(), AllocError>
    requires few { length functions.now ≤ 2 ^ 32 }
    requires room { length args.old.items < 2 }
    ensures added { (l : LinkingValue) → imported.now ≡ names_under l place.now → (map (λ f. function_item f.now) functions.now) ≡ needed l → OnOk result (written out.new.items ≡ written out.old.items ++ among (instance_with (given_under l place.now))) }
    ensures args { (l : LinkingValue) → imported.now ≡ names_under l place.now → (map (λ f. function_item f.now) functions.now) ≡ needed l → OnOk result (map (named_value core_argument_value) args.new.items ≡ map (named_value core_argument_value) args.old.items ++ map named_argument (argument_for place.now (length args.old.items) (given_under l place.now))) }
    ensures more { OnOk result (length args.new.items ≤ length args.old.items + 1) }
{
    let exports = inline_exports(alloc, functions, imported)?;
    if exports.is_empty() {
        return Ok(());
    }
    let instance = args.len() as u32;
    out.push(Definition::CoreInstance(CoreInstance::Inline(exports)))?;
    args.push(Named {
        name: place,
        item: CoreArgument { instance },
    })?;
    Ok(())
}

/// Adds what the main module imports, the module itself, and the lowerings that it is given.
fn put_import_side<'e>(
    alloc: Global,
    bytes: &'e [u8],
    functions: &[&'e Function],
    out: &mut Vec<Definition<'e>>,
) -> Result<(), AllocError>
    requires few { length functions.now ≤ 2 ^ 32 }
    ensures { OnOk result (written out.new.items ≡ written out.old.items ++ among (types_of (map (λ f. function_item f.now) functions.now) ++ (numbered (λ n f. import_of f.name n) 0 (map (λ f. function_item f.now) functions.now) ++ (core_module_of bytes.entry.now ∷ numbered (λ n f. lower_of n) 0 (map (λ f. function_item f.now) functions.now))))) }
{
    put_types(alloc, functions, out)?;
    put_imports(functions, out)?;
    out.push(Definition::CoreModule(bytes))?;
    put_lowers(alloc, functions, out)
}

/// Adds the one instance of the main module, and answers its index.
fn put_instance<'e>(
    alloc: Global,
    functions: &[&'e Function],
    table: &Table,
    out: &mut Vec<Definition<'e>>,
) -> Result<u32, AllocError>
    requires few { length functions.now ≤ 2 ^ 32 }
    ensures added { (l : LinkingValue) → ArePlaces l (view.places table.now) → (map (λ f. function_item f.now) functions.now) ≡ needed l → OnOk result (written out.new.items ≡ written out.old.items ++ among (instance_side l)) }
    ensures index { (l : LinkingValue) → ArePlaces l (view.places table.now) → (map (λ f. function_item f.now) functions.now) ≡ needed l → IfOk result (λ i. i ≡ length (instances_for l)) }
{
    let mut args = Vec::new(alloc);
    put_inline(alloc, functions, &table.legacy, ROOT, &mut args, out)?;
    put_inline(alloc, functions, &table.standard, STANDARD, &mut args, out)?;
    let index = args.len() as u32;
    out.push(Definition::CoreInstance(CoreInstance::Instantiate {
        core_module: 0,
        args,
    }))?;
    Ok(index)
}

/// The names of the core exports that stand for the functions that the world exports.
fn core_names<'e>(
    alloc: Global,
    linking: &Linking<'_, 'e>,
    table: &Table,
) -> Result<Vec<&'e str>, AllocError>
    requires { ArePlaces (view.linking linking.now) (view.places table.now) }
    ensures { IfOk result (λ v. map (λ t. t.now) v.items ≡ flat_map (λ f. map (λ e. e.name) (exported_by (view.linking linking.now) f)) (view.linking linking.now).world.exports) }
{
    let mut names = Vec::new(alloc);
    for place in &table.exports {
        names.push(linking.main.exports[*place].name)?;
    }
    Ok(names)
}

/// Adds the exports of the world: each lifts a core export of an instance.
fn put_export_side<'e>(
    alloc: Global,
    instance: u32,
    from: usize,
    functions: &[&'e Function],
    names: &[&'e str],
    out: &mut Vec<Definition<'e>>,
) -> Result<(), AllocError>
    requires few { from + length functions.now ≤ 2 ^ 32 }
    ensures { OnOk result (written out.new.items ≡ written out.old.items ++ among (map (λ t. alias_of instance t.now) names.now ++ (types_of (map (λ f. function_item f.now) functions.now) ++ (numbered (λ n f. lift_of n n) from (map (λ f. function_item f.now) functions.now) ++ numbered (λ n f. export_of f.name n None) from (map (λ f. function_item f.now) functions.now))))) }
{
    put_aliases(instance, names, out)?;
    put_types(alloc, functions, out)?;
    put_lifts(alloc, from, functions, out)?;
    put_exports(from, functions, out)
}

/// The most functions that indices of 32 bits can number.
const MOST: usize = 1 << 32;

/// Whether indices of 32 bits can number the needed functions and then the exported ones.
fn can_be_numbered(needed: usize, exported: usize) -> bool
    ensures can { result ≡ true → needed + exported ≤ 2 ^ 32 }
    ensures cannot { result ≡ false → 2 ^ 32 < needed + exported }
{
    needed <= MOST && exported <= MOST - needed
}

/// The definitions of the component by its link table.
fn definitions_of<'e>(
    alloc: Global,
    linking: &'e Linking<'e, 'e>,
    table: &Table,
) -> Result<Vec<Definition<'e>>, Fault>
    requires places { ArePlaces (view.linking linking.now) (view.places table.now) }
    ensures found { IfOk result (λ v. written v.items ≡ among (component_value (view.linking linking.now))) }
    ensures cause { IfErr result (λ e. (e ≡ Fault.OutOfMemory) ⊎ ((e ≡ Fault.TooLarge) × IsTooLarge (view.linking linking.now))) }
{
    let needed = needed_functions(alloc, linking, table)?;
    let exported = references(alloc, &linking.world.exports)?;
    if !can_be_numbered(needed.len(), exported.len()) {
        return Err(Fault::TooLarge);
    }
    let mut out = Vec::new(alloc);
    put_import_side(alloc, linking.bytes, &needed, &mut out)?;
    let instance = put_instance(alloc, &needed, table, &mut out)?;
    let names = core_names(alloc, linking, table)?;
    put_export_side(alloc, instance, needed.len(), &exported, &names, &mut out)?;
    Ok(out)
}

/// The bytes of the component by its link table.
fn component_of<'e>(
    alloc: Global,
    linking: &'e Linking<'e, 'e>,
    table: &Table,
) -> Result<Vec<u8>, Fault>
    requires fits { world_fits (view.linking linking.now).world ≡ true }
    requires places { ArePlaces (view.linking linking.now) (view.places table.now) }
    ensures found { IfOk result (λ v. IsComponent v.items (component_value (view.linking linking.now))) }
    ensures fits { OnOk result (Fits (component_value (view.linking linking.now))) }
    ensures cause { IfErr result (λ e. (e ≡ Fault.OutOfMemory) ⊎ ((e ≡ Fault.TooLarge) × IsTooLarge (view.linking linking.now))) }
{
    let definitions = definitions_of(alloc, linking, table)?;
    match write_definitions(alloc, &definitions) {
        Ok(bytes) => Ok(bytes),
        Err(WriteFault::OutOfMemory) => Err(Fault::OutOfMemory),
        Err(WriteFault::TooLarge) => Err(Fault::TooLarge),
    }
}

/// The bytes of the component that joins the main module with the world. Refuses as `table_of` does, and with B25 where
/// nothing else is in the way.
pub fn encode(alloc: Global, linking: &Linking) -> Result<Vec<u8>, Fault>
    requires { world_fits (view.linking linking.now).world ≡ true }
    ensures found { IfOk result (λ v. IsComponent v.items (component_value (view.linking linking.now))) }
    ensures linkable { IfOk result (λ v. IsLinkable (view.linking linking.now)) }
    ensures fits { OnOk result (Fits (component_value (view.linking linking.now))) }
    ensures cause { IfErr result (IsEncodeCause (view.linking linking.now)) }
{
    let table = table_of(alloc, linking)?;
    component_of(alloc, linking, &table)
}
