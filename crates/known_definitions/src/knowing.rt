//! Which definitions of a component are known.

ghost use Rattle.std.specs.Prelude.{◌≡◌, ◌≤◌, ◌<◌, ℕ, List, map, length, option_map, IfOk, IfSome};
ghost use Rattle.std.specs.List.{All};
ghost use Rattle.component_value_types.specs.Names.{named_value};
ghost use Rattle.component_value_types.specs.Types as typed;
ghost use Rattle.component_definitions.specs.Aliases.{alias_value};
ghost use Rattle.component_definitions.specs.Canonical.{canonical_value};
ghost use Rattle.component_definitions.specs.Externs.{import_value, export_value};
ghost use Rattle.component_instances.specs.Instances.{core_argument_value, core_instance_value};
ghost use Rattle.component_instances.specs.TypeDefinitions.{type_definition_value};
ghost use Rattle.component_sections.specs.Passed.component_entries-Entries.{entry_value};
ghost use Rattle.component_sections.specs.Component as whole;
ghost use Rattle.plain_worlds.specs.World.{each_of};
ghost use Rattle.known_definitions.specs.Definition.{parameter_value, function_type_value, argument_value, inline_export_value, kind_value, definition_values, AreWithin};
ghost use Rattle.component_sections.specs.Passed.component_entries-Entries as entries;
ghost use Rattle.known_definitions.specs.Definition as known;
ghost use Rattle.known_definitions.specs.Known as spec;

use crate::definition::{
    Argument, FunctionType, InlineExport, KnownDefinition, KnownKind, Parameter,
};
use component_definitions::{
    Alias, CanonicalDefinition, ComponentSort, Description, Export, Import, Sort,
};
use component_instances::{CoreArgument, CoreInstance, CoreItem, TypeDefinition};
use component_sections::{Definition, Entry, PlacedDefinition};
use component_value_types::{DefinedType, Named, PrimitiveValueType, ValueType};
use plain_worlds::PrimitiveType;
use std::alloc::{AllocError, Global};
use wasm_types::ExportKind;

fn primitive_of(ty: PrimitiveValueType) -> Option<PrimitiveType>
    ensures { result ≡ spec.known_primitive ty }
{
    match ty {
        PrimitiveValueType::Bool => Some(PrimitiveType::Bool),
        PrimitiveValueType::S8 => Some(PrimitiveType::S8),
        PrimitiveValueType::U8 => Some(PrimitiveType::U8),
        PrimitiveValueType::S16 => Some(PrimitiveType::S16),
        PrimitiveValueType::U16 => Some(PrimitiveType::U16),
        PrimitiveValueType::S32 => Some(PrimitiveType::S32),
        PrimitiveValueType::U32 => Some(PrimitiveType::U32),
        PrimitiveValueType::S64 => Some(PrimitiveType::S64),
        PrimitiveValueType::U64 => Some(PrimitiveType::U64),
        PrimitiveValueType::F32
        | PrimitiveValueType::F64
        | PrimitiveValueType::Char
        | PrimitiveValueType::String => None,
    }
}

fn type_of(ty: ValueType) -> Option<PrimitiveType>
    ensures { result ≡ spec.known_type ty }
{
    match ty {
        ValueType::Primitive(primitive) => primitive_of(primitive),
        ValueType::Index(_) => None,
    }
}

fn parameter_of<'a>(param: &Named<'a, ValueType>) -> Option<Parameter<'a>>
    ensures { option_map parameter_value result ≡ spec.known_parameter (named_value (λ t. t) param.now) }
{
    let name = param.name;
    let ty = type_of(param.item)?;
    Some(Parameter { name, ty })
}

/// The parameters, if the type of each is known.
fn parameters_of<'a>(
    alloc: Global,
    params: &[Named<'a, ValueType>],
) -> Result<Option<Vec<Parameter<'a>>>, AllocError>
    ensures { IfOk result (λ o. option_map (λ v. map parameter_value v.items) o ≡ each_of spec.known_parameter (map (named_value (λ t. t)) params.now)) }
{
    let mut found = Vec::new(alloc);
    for param in params {
        let Some(known) = parameter_of(param) else {
            return Ok(None);
        };
        found.push(known)?;
    }
    Ok(Some(found))
}

fn result_of(ty: Option<ValueType>) -> Option<Option<PrimitiveType>>
    ensures { result ≡ spec.known_result ty }
{
    match ty {
        Some(ty) => Some(Some(type_of(ty)?)),
        None => Some(None),
    }
}

fn function_type_of<'a>(
    alloc: Global,
    ty: &component_value_types::FunctionType<'a>,
) -> Result<Option<FunctionType<'a>>, AllocError>
    ensures { IfOk result (λ o. option_map function_type_value o ≡ spec.known_function_type (typed.function_type_value ty.now)) }
{
    let Some(params) = parameters_of(alloc, &ty.params)? else {
        return Ok(None);
    };
    match result_of(ty.result) {
        Some(result) => Ok(Some(FunctionType { params, result })),
        None => Ok(None),
    }
}

fn arguments_of<'a>(
    alloc: Global,
    args: &[Named<'a, CoreArgument>],
) -> Result<Vec<Argument<'a>>, AllocError>
    ensures { IfOk result (λ v. map argument_value v.items ≡ map spec.known_argument (map (named_value core_argument_value) args.now)) }
{
    let mut found = Vec::new(alloc);
    for arg in args {
        let name = arg.name;
        let instance = arg.item.instance;
        found.push(Argument { name, instance })?;
    }
    Ok(found)
}

fn function_export<'a>(export: &Named<'a, CoreItem>) -> Option<InlineExport<'a>>
    ensures { option_map inline_export_value result ≡ spec.known_export (named_value (λ x. x) export.now) }
{
    match export.item.kind {
        ExportKind::Func => Some(InlineExport {
            name: export.name,
            func: export.item.index,
        }),
        ExportKind::Table | ExportKind::Memory | ExportKind::Global => None,
    }
}

/// The exports, if each is a core function.
fn exports_of<'a>(
    alloc: Global,
    exports: &[Named<'a, CoreItem>],
) -> Result<Option<Vec<InlineExport<'a>>>, AllocError>
    ensures { IfOk result (λ o. option_map (λ v. map inline_export_value v.items) o ≡ each_of spec.known_export (map (named_value (λ x. x)) exports.now)) }
{
    let mut found = Vec::new(alloc);
    for export in exports {
        let Some(known) = function_export(export) else {
            return Ok(None);
        };
        found.push(known)?;
    }
    Ok(Some(found))
}

fn core_instance_of<'a>(
    alloc: Global,
    instance: &CoreInstance<'a>,
) -> Result<Option<KnownKind<'a>>, AllocError>
    ensures { IfOk result (λ o. option_map kind_value o ≡ spec.known_core_instance (core_instance_value instance.now)) }
{
    match instance {
        CoreInstance::Instantiate { core_module, args } => {
            let module = *core_module;
            let args = arguments_of(alloc, args)?;
            Ok(Some(KnownKind::CoreInstance { module, args }))
        }
        CoreInstance::Inline(exports) => match exports_of(alloc, exports)? {
            Some(exports) => Ok(Some(KnownKind::InlineInstance(exports))),
            None => Ok(None),
        },
    }
}

fn canonical_of<'a>(canonical: &CanonicalDefinition) -> Option<KnownKind<'a>>
    ensures { option_map kind_value result ≡ spec.known_canonical (canonical_value canonical.now) }
{
    match canonical {
        CanonicalDefinition::Lift {
            core_function,
            options,
            ty,
        } if options.is_empty() => Some(KnownKind::Lift {
            core_func: *core_function,
            ty: *ty,
        }),
        CanonicalDefinition::Lower { function, options } if options.is_empty() => {
            Some(KnownKind::Lower { func: *function })
        }
        _ => None,
    }
}

fn alias_of<'a>(alias: Alias<'a>) -> Option<KnownKind<'a>>
    ensures { option_map kind_value result ≡ spec.known_alias (alias_value alias.entry) }
{
    match alias {
        Alias::CoreInstanceExport {
            kind: ExportKind::Func,
            instance,
            name,
        } => Some(KnownKind::CoreAlias { instance, name }),
        _ => None,
    }
}

fn type_definition_of<'a>(
    alloc: Global,
    ty: &TypeDefinition<'a>,
) -> Result<Option<KnownKind<'a>>, AllocError>
    ensures { IfOk result (λ o. option_map kind_value o ≡ spec.known_type_definition (type_definition_value ty.now)) }
{
    let TypeDefinition::Defined(DefinedType::Function(function)) = ty else {
        return Ok(None);
    };
    match function_type_of(alloc, function)? {
        Some(known) => Ok(Some(KnownKind::FunctionType(known))),
        None => Ok(None),
    }
}

fn import_of<'a>(import: Import<'a>) -> Option<KnownKind<'a>>
    ensures { option_map kind_value result ≡ spec.described_import (import_value import.entry).name (import_value import.entry).description }
{
    let name = import.name;
    match import.description {
        Description::Function(ty) => Some(KnownKind::Import { name, ty }),
        _ => None,
    }
}

/// The type of a function that is ascribed, if any, or that another thing is.
fn ascribed_of(ascribed: Option<Description>) -> Option<Option<u32>>
    ensures { (name : List ℕ) (index : ℕ) → option_map (λ t. known.export_of name index t) result ≡ spec.described_export name index ascribed }
{
    match ascribed {
        None => Some(None),
        Some(Description::Function(ty)) => Some(Some(ty)),
        Some(_) => None,
    }
}

fn export_of<'a>(export: Export<'a>) -> Option<KnownKind<'a>>
    ensures { option_map kind_value result ≡ spec.known_entry (entries.an_export (export_value export.entry)) }
{
    let Sort::Component(ComponentSort::Function) = export.sort else {
        return None;
    };
    let ty = ascribed_of(export.ascribed)?;
    Some(KnownKind::Export {
        name: export.name,
        func: export.index,
        ty,
    })
}

fn entry_of<'a>(alloc: Global, entry: &Entry<'a>) -> Result<Option<KnownKind<'a>>, AllocError>
    ensures { IfOk result (λ o. option_map kind_value o ≡ spec.known_entry (entry_value entry.now)) }
{
    match entry {
        Entry::Alias(alias) => Ok(alias_of(*alias)),
        Entry::Type_(ty) => type_definition_of(alloc, ty),
        Entry::Import(import) => Ok(import_of(*import)),
        Entry::Export(export) => Ok(export_of(*export)),
    }
}

fn known_of<'a>(
    alloc: Global,
    definition: &Definition<'a>,
) -> Result<Option<KnownKind<'a>>, AllocError>
    ensures { IfOk result (λ o. option_map kind_value o ≡ spec.known_of (whole.definition_value definition.now)) }
{
    match definition {
        Definition::CoreModule(bytes) => Ok(Some(KnownKind::CoreModule(bytes))),
        Definition::CoreInstance(instance) => core_instance_of(alloc, instance),
        Definition::Canonical(canonical) => Ok(canonical_of(canonical)),
        Definition::Entry(entry) => entry_of(alloc, entry),
        Definition::Component(_) | Definition::Instance(_) => Ok(None),
    }
}

/// The definitions of a component where they stand, if index meaning knows each.
pub fn known_definitions<'a>(
    alloc: Global,
    definitions: &[PlacedDefinition<'a>],
) -> Result<Option<Vec<KnownDefinition<'a>>>, AllocError>
    ensures known { IfOk result (λ o. option_map (λ v. definition_values v.items) o ≡ each_of spec.known_of (map whole.placed_value definitions.now)) }
    ensures offsets { IfOk result (λ o. IfSome o (λ v. map (λ d. d.offset) v.items ≡ map (λ p. p.offset) definitions.now)) }
    ensures within { (total : List ℕ) → All (whole.StandsIn total) definitions.now → IfOk result (λ o. IfSome o (λ v. AreWithin (length total) v.items)) }
{
    let mut found = Vec::new(alloc);
    for placed in definitions {
        let offset = placed.offset;
        let Some(kind) = known_of(alloc, &placed.definition)? else {
            return Ok(None);
        };
        found.push(KnownDefinition { offset, kind })?;
    }
    Ok(Some(found))
}
