//! From the definitions of a component to what their indices stand for.

ghost use Rattle.std.specs.Prelude.{◌≡◌, ◌≤◌, [], ◌∷◌, ◌++◌, map, length, slice_get, option_map, option_and_then, IfOk, IfErr, OnOk};
ghost use Rattle.wasm_types.specs.Entries.{import_value};
ghost use Rattle.wasm_format.specs.Module.{module_value, imported_type};
ghost use Rattle.known_definitions.specs.Definition.{function_type_value, argument_value, inline_export_value, definition_value};
ghost use Rattle.wit_component.specs.Linking.{core_import};
ghost use Rattle.wit_component.specs.Meaning as meant;
ghost use Rattle.component_audit.specs.SpacesView as view;
ghost use Rattle.component_audit.specs.SpacesView.{entry_item, argument_item};

use crate::spaces::{
    ComponentFunction, CoreFunction, CoreInstance, CoreOrigin, CoreType, Entries, ExportEntry,
    Given, ImportEntry, ModuleEntry, Origin, Spaces, TypeEntry, core_at, function_at, lowering,
    same_type,
};
use known_definitions::{Argument, FunctionType, InlineExport, KnownDefinition, KnownKind};
use name_places::FirstPlaces;
use std::alloc::{AllocError, Global};
use wasm_format::Import;
use wit_component::{Fault, Linking};

/// A walk over the definitions of a component.
#[derive(Drop)]
pub struct Walk<'c> {
    alloc: Global,
    pub linking: &'c Linking<'c, 'c>,
    /// The places of the main module's exports by their names.
    exports: FirstPlaces<'c>,
    ghost named: { exports ≡ map (λ e. e.name.now) linking.now.main.exports.items },
    /// How many bytes the component has.
    length: usize,
    pub spaces: Spaces<'c>,
    ghost within: { view.AreWithin length spaces },
}

impl<'c> Walk<'c> {
    ghost use Rattle.component_audit.specs.WalkView.{main_of_walk, spaces_of};

    /// A walk in front of the first definition.
    pub fn new(
        alloc: Global,
        linking: &'c Linking<'c, 'c>,
        length: usize,
    ) -> Result<Walk<'c>, Fault>
        ensures ok { IfOk result (λ w. spaces_of w ≡ meant.no_spaces) }
        ensures linking { IfOk result (λ w. w.linking.now ≡ linking.entry.now) }
        ensures length { IfOk result (λ w. w.length ≡ length) }
        ensures memory { IfErr result (λ e. e ≡ Fault.OutOfMemory) }
    {
        let exports = export_places(alloc, linking)?;
        Ok(Walk {
            alloc,
            linking,
            exports,
            length,
            spaces: Spaces::new(alloc),
        })
    }

    /// The main module's export at a place, of its instance with that index.
    fn export_at(&self, instance: usize, place: usize) -> Option<CoreFunction<'c>>
        ensures { option_map view.core_function result ≡ entry_item (meant.exports_of (main_of_walk self.now) instance) place }
    {
        let export = self.linking.main.exports.get(place)?;
        let ty = self.linking.export_type(export)?;
        Some(CoreFunction {
            origin: CoreOrigin::Export(instance, export.name),
            ty: CoreType::Own(ty),
        })
    }

    /// The main module's export of this name, of its instance with that index.
    fn main_export(&self, instance: usize, name: &str) -> Option<CoreFunction<'c>>
        ensures { option_map view.core_function result ≡ meant.entry_named name.now (meant.exports_of (main_of_walk self.now) instance) }
    {
        match self.exports.first(name) {
            Some(place) => self.export_at(instance, place),
            None => None,
        }
    }

    /// What an instance of the main module exports under a name: nothing, where it isn't whole.
    fn own_export(&self, given: &Given<'c>, name: &str) -> Option<CoreFunction<'c>>
        ensures { option_map view.core_function result ≡ meant.entry_named name.now (view.own_exports (main_of_walk self.now) given.now) }
    {
        if given.whole {
            self.main_export(given.index, name)
        } else {
            None
        }
    }

    /// What an instance exports under a name.
    fn entry(&self, instance: &CoreInstance<'c>, name: &str) -> Option<CoreFunction<'c>>
        ensures { option_map view.core_function result ≡ meant.entry_named name.now (view.exports (main_of_walk self.now) instance.now) }
    {
        match instance {
            CoreInstance::Unknown => None,
            CoreInstance::Main(given) => self.own_export(given, name),
            CoreInstance::Inline(entries) => entries.get(name),
        }
    }

    /// What the instance at an index exports under a name.
    fn exported(&self, instance: u32, name: &str) -> Option<CoreFunction<'c>>
        ensures { option_map view.core_function result ≡ meant.exported (spaces_of self.now).instances instance name.now }
    {
        match self.spaces.instances.get(instance as usize) {
            Some(found) => self.entry(found, name),
            None => None,
        }
    }

    /// What stands for an import among arguments, of whatever core type; the places are those of the arguments' names.
    fn found_for(
        &self,
        places: &FirstPlaces,
        args: &[Argument<'c>],
        import: &Import,
    ) -> Option<CoreFunction<'c>>
        requires { places.now ≡ map (λ a. a.name.now) args.now }
        ensures { option_map view.core_function result ≡ option_and_then (λ k. meant.exported (spaces_of self.now).instances k import.now.name.now) (meant.argument_named (map argument_value args.now) import.now.module.now) }
    {
        match argument(places, args, import.module) {
            Some(instance) => self.exported(instance, import.name),
            None => None,
        }
    }

    /// What an instance of the main module is given for an import; the places are those of the arguments' names.
    fn given_for(
        &self,
        places: &FirstPlaces,
        args: &[Argument<'c>],
        import: &Import,
    ) -> Option<CoreFunction<'c>>
        requires { places.now ≡ map (λ a. a.name.now) args.now }
        ensures { option_map view.core_function result ≡ meant.given_for (spaces_of self.now).instances (map argument_value args.now) (core_import (module_value self.now.linking.now.main) (import_value import.now)) }
    {
        let found = self.found_for(places, args, import);
        if is_of_type(self.linking, import, &found) {
            found
        } else {
            None
        }
    }

    /// What an instance of the main module is given for each of its imports.
    fn given(&self, args: &[Argument<'c>]) -> Result<Vec<Option<CoreFunction<'c>>>, Fault>
        ensures ok { IfOk result (λ v. map (option_map view.core_function) v.items ≡ map (meant.given_for (spaces_of self.now).instances (map argument_value args.now)) (main_of_walk self.now).imports) }
        ensures memory { IfErr result (λ e. e ≡ Fault.OutOfMemory) }
    {
        let places = argument_places(self.alloc, args)?;
        let mut given = Vec::new(self.alloc);
        for import in &self.linking.main.imports {
            given.push(self.given_for(&places, args, import))?;
        }
        Ok(given)
    }

    /// The type at an index.
    fn type_at(&self, index: u32) -> Option<&'c FunctionType<'c>>
        ensures { option_map (λ t. function_type_value t.now) result ≡ slice_get (spaces_of self.now).types index }
    {
        let entry = *self.spaces.types.get(index as usize)?;
        Some(entry.ty)
    }

    /// The function at an index, if it stands for something.
    fn function_at(&self, index: u32) -> Option<ComponentFunction<'c>>
        ensures { option_map view.component_function result ≡ meant.item_at (spaces_of self.now).functions index }
    {
        function_at(&self.spaces.functions, index as usize)
    }

    /// The core function at an index, if it stands for something.
    fn core_function_at(&self, index: u32) -> Option<CoreFunction<'c>>
        ensures { option_map view.core_function result ≡ meant.item_at (spaces_of self.now).core_functions index }
    {
        core_at(&self.spaces.core_functions, index as usize)
    }

    /// Whether the core module at an index is the main module.
    fn is_main(&self, index: u32) -> bool
        ensures { result ≡ meant.is_main (main_of_walk self.now) (slice_get (spaces_of self.now).modules index) }
    {
        match self.spaces.modules.get(index as usize) {
            Some(found) => found.bytes == self.linking.bytes,
            None => false,
        }
    }

    /// An instance of a core module that wasn't handed in.
    fn push_unknown(&mut self) -> Result<(), Fault>
        ensures ok { OnOk result (spaces_of self.new ≡ record (spaces_of self.old) { instances = (spaces_of self.old).instances ++ record { source = meant.of_unknown; exports = [] } ∷ [] }) }
        ensures linking { self.new.linking ≡ self.old.linking }
        ensures length { self.new.length ≡ self.old.length }
        ensures memory { IfErr result (λ e. e ≡ Fault.OutOfMemory) }
    {
        self.spaces.instances.push(CoreInstance::Unknown)?;
        Ok(())
    }

    /// An instance of the main module that is given these functions.
    fn push_main(
        &mut self,
        offset: usize,
        functions: Vec<Option<CoreFunction<'c>>>,
    ) -> Result<(), Fault>
        requires { offset ≤ self.old.length }
        ensures ok { OnOk result (spaces_of self.new ≡ record (spaces_of self.old) { instances = (spaces_of self.old).instances ++ meant.main_instance (main_of_walk self.old) (length (spaces_of self.old).instances) (map (option_map view.core_function) functions.entry.items) ∷ [] }) }
        ensures linking { self.new.linking ≡ self.old.linking }
        ensures length { self.new.length ≡ self.old.length }
        ensures memory { IfErr result (λ e. e ≡ Fault.OutOfMemory) }
    {
        let index = self.spaces.instances.len();
        let whole = all_there(&functions);
        self.spaces.instances.push(CoreInstance::Main(Given {
            offset,
            index,
            functions,
            whole,
        }))?;
        Ok(())
    }

    /// An instance of a core module; one of the main module that isn't given what it asks exports nothing.
    fn instantiate(
        &mut self,
        offset: usize,
        core_module: u32,
        args: &[Argument<'c>],
    ) -> Result<(), Fault>
        requires { offset ≤ self.old.length }
        ensures ok { OnOk result (spaces_of self.new ≡ record (spaces_of self.old) { instances = (spaces_of self.old).instances ++ meant.instantiated (main_of_walk self.old) (spaces_of self.old) (meant.is_main (main_of_walk self.old) (slice_get (spaces_of self.old).modules core_module)) (map argument_value args.now) ∷ [] }) }
        ensures linking { self.new.linking ≡ self.old.linking }
        ensures length { self.new.length ≡ self.old.length }
        ensures memory { IfErr result (λ e. e ≡ Fault.OutOfMemory) }
    {
        if !self.is_main(core_module) {
            return self.push_unknown();
        }
        let functions = self.given(args)?;
        self.push_main(offset, functions)
    }

    /// Core functions under names.
    fn entries(&self, exports: &[InlineExport<'c>]) -> Result<Entries<'c>, Fault>
        ensures ok { IfOk result (λ e. view.entries e ≡ meant.inline_entries (spaces_of self.now) (map inline_export_value exports.now)) }
        ensures memory { IfErr result (λ e. e ≡ Fault.OutOfMemory) }
    {
        let mut names = FirstPlaces::new(self.alloc);
        let mut items = Vec::new(self.alloc);
        for export in exports {
            names.push(export.name)?;
            items.push(self.core_function_at(export.func))?;
        }
        Ok(Entries { names, items })
    }

    /// A core instance that is made of core functions.
    fn inline(&mut self, exports: &[InlineExport<'c>]) -> Result<(), Fault>
        ensures ok { OnOk result (spaces_of self.new ≡ record (spaces_of self.old) { instances = (spaces_of self.old).instances ++ record { source = meant.of_items; exports = meant.inline_entries (spaces_of self.old) (map inline_export_value exports.now) } ∷ [] }) }
        ensures linking { self.new.linking ≡ self.old.linking }
        ensures length { self.new.length ≡ self.old.length }
        ensures memory { IfErr result (λ e. e ≡ Fault.OutOfMemory) }
    {
        let entries = self.entries(exports)?;
        self.spaces.instances.push(CoreInstance::Inline(entries))?;
        Ok(())
    }

    /// An imported function.
    fn import(&mut self, offset: usize, name: &'c str, ty: u32) -> Result<(), Fault>
        requires { offset ≤ self.old.length }
        ensures ok { OnOk result (spaces_of self.new ≡ record (spaces_of self.old) { functions = (spaces_of self.old).functions ++ option_map (meant.import_with name.entry.now) (slice_get (spaces_of self.old).types ty) ∷ []; imports = (spaces_of self.old).imports ++ record { name = name.entry.now; item = slice_get (spaces_of self.old).types ty } ∷ [] }) }
        ensures linking { self.new.linking ≡ self.old.linking }
        ensures length { self.new.length ≡ self.old.length }
        ensures memory { IfErr result (λ e. e ≡ Fault.OutOfMemory) }
    {
        let item = self.type_at(ty);
        self.spaces.functions.push(imported(name, item))?;
        self.spaces
            .imports
            .push(ImportEntry { offset, name, item })?;
        Ok(())
    }

    /// What an export stands for: a function, which has the type that is ascribed to it, if any.
    fn ascribed(&self, func: u32, ty: Option<u32>) -> Option<ComponentFunction<'c>>
        ensures { option_map view.component_function result ≡ meant.export_item (spaces_of self.now) func ty }
    {
        let function = self.function_at(func)?;
        let Some(ty) = ty else {
            return Some(function);
        };
        let asked = self.type_at(ty)?;
        if !same_type(asked, function.ty) {
            return None;
        }
        Some(function)
    }

    /// An exported function.
    fn export(
        &mut self,
        offset: usize,
        name: &'c str,
        func: u32,
        ty: Option<u32>,
    ) -> Result<(), Fault>
        requires { offset ≤ self.old.length }
        ensures ok { OnOk result (spaces_of self.new ≡ record (spaces_of self.old) { functions = (spaces_of self.old).functions ++ meant.export_item (spaces_of self.old) func ty ∷ []; exports = (spaces_of self.old).exports ++ record { name = name.entry.now; item = meant.export_item (spaces_of self.old) func ty } ∷ [] }) }
        ensures linking { self.new.linking ≡ self.old.linking }
        ensures length { self.new.length ≡ self.old.length }
        ensures memory { IfErr result (λ e. e ≡ Fault.OutOfMemory) }
    {
        let item = self.ascribed(func, ty);
        self.spaces.functions.push(item)?;
        self.spaces
            .exports
            .push(ExportEntry { offset, name, item })?;
        Ok(())
    }

    /// The function that a lift makes: of its type, whatever the core function is.
    fn lift(&self, core_func: u32, ty: u32) -> Option<ComponentFunction<'c>>
        ensures { option_map view.component_function result ≡ option_map (meant.lifting core_func) (slice_get (spaces_of self.now).types ty) }
    {
        let ty = self.type_at(ty)?;
        Some(ComponentFunction {
            origin: Origin::Lift(core_func),
            ty,
        })
    }

    /// The core function that a lowering makes.
    fn lower(&self, func: u32) -> Option<CoreFunction<'c>>
        ensures { option_map view.core_function result ≡ option_map (meant.lowering func) (meant.item_at (spaces_of self.now).functions func) }
    {
        Some(lowering(func, self.function_at(func)?))
    }

    /// One core function more, by its alias.
    fn alias(&mut self, instance: u32, name: &str) -> Result<(), Fault>
        ensures ok { OnOk result (spaces_of self.new ≡ record (spaces_of self.old) { core_functions = (spaces_of self.old).core_functions ++ meant.exported (spaces_of self.old).instances instance name.now ∷ [] }) }
        ensures linking { self.new.linking ≡ self.old.linking }
        ensures length { self.new.length ≡ self.old.length }
        ensures memory { IfErr result (λ e. e ≡ Fault.OutOfMemory) }
    {
        let function = self.exported(instance, name);
        self.spaces.core_functions.push(function)?;
        Ok(())
    }

    /// One function more, by a lift.
    fn push_lift(&mut self, core_func: u32, ty: u32) -> Result<(), Fault>
        ensures ok { OnOk result (spaces_of self.new ≡ record (spaces_of self.old) { functions = (spaces_of self.old).functions ++ option_map (meant.lifting core_func) (slice_get (spaces_of self.old).types ty) ∷ [] }) }
        ensures linking { self.new.linking ≡ self.old.linking }
        ensures length { self.new.length ≡ self.old.length }
        ensures memory { IfErr result (λ e. e ≡ Fault.OutOfMemory) }
    {
        let function = self.lift(core_func, ty);
        self.spaces.functions.push(function)?;
        Ok(())
    }

    /// One core function more, by a lowering.
    fn push_lower(&mut self, func: u32) -> Result<(), Fault>
        ensures ok { OnOk result (spaces_of self.new ≡ record (spaces_of self.old) { core_functions = (spaces_of self.old).core_functions ++ option_map (meant.lowering func) (meant.item_at (spaces_of self.old).functions func) ∷ [] }) }
        ensures linking { self.new.linking ≡ self.old.linking }
        ensures length { self.new.length ≡ self.old.length }
        ensures memory { IfErr result (λ e. e ≡ Fault.OutOfMemory) }
    {
        let function = self.lower(func);
        self.spaces.core_functions.push(function)?;
        Ok(())
    }

    /// One core module more.
    fn push_module(&mut self, offset: usize, bytes: &'c [u8]) -> Result<(), Fault>
        requires { offset ≤ self.old.length }
        ensures ok { OnOk result (spaces_of self.new ≡ record (spaces_of self.old) { modules = (spaces_of self.old).modules ++ bytes.entry.now ∷ [] }) }
        ensures linking { self.new.linking ≡ self.old.linking }
        ensures length { self.new.length ≡ self.old.length }
        ensures memory { IfErr result (λ e. e ≡ Fault.OutOfMemory) }
    {
        self.spaces.modules.push(ModuleEntry { offset, bytes })?;
        Ok(())
    }

    /// One type more.
    fn push_type(&mut self, ty: &'c FunctionType<'c>) -> Result<(), Fault>
        ensures ok { OnOk result (spaces_of self.new ≡ record (spaces_of self.old) { types = (spaces_of self.old).types ++ function_type_value ty.entry.now ∷ [] }) }
        ensures linking { self.new.linking ≡ self.old.linking }
        ensures length { self.new.length ≡ self.old.length }
        ensures memory { IfErr result (λ e. e ≡ Fault.OutOfMemory) }
    {
        self.spaces.types.push(TypeEntry { ty })?;
        Ok(())
    }

    /// Goes over one definition.
    pub fn step(&mut self, definition: &'c KnownDefinition<'c>) -> Result<(), Fault>
        requires { definition.now.offset ≤ self.old.length }
        ensures ok { OnOk result (spaces_of self.new ≡ meant.after (main_of_walk self.old) (spaces_of self.old) (definition_value definition.entry.now)) }
        ensures linking { self.new.linking ≡ self.old.linking }
        ensures length { self.new.length ≡ self.old.length }
        ensures memory { IfErr result (λ e. e ≡ Fault.OutOfMemory) }
    {
        let offset = definition.offset;
        match &definition.kind {
            KnownKind::CoreModule(bytes) => self.push_module(offset, bytes),
            KnownKind::CoreInstance { module: core, args } => {
                self.instantiate(offset, *core, args)
            }
            KnownKind::InlineInstance(exports) => self.inline(exports),
            KnownKind::CoreAlias { instance, name } => self.alias(*instance, name),
            KnownKind::FunctionType(ty) => self.push_type(ty),
            KnownKind::Lift { core_func, ty } => self.push_lift(*core_func, *ty),
            KnownKind::Lower { func } => self.push_lower(*func),
            KnownKind::Import { name, ty } => self.import(offset, name, *ty),
            KnownKind::Export { name, func, ty } => self.export(offset, name, *func, *ty),
        }
    }
}

/// Whether something is given for each.
pub fn all_there(given: &[Option<CoreFunction>]) -> bool
    ensures { result ≡ meant.all_there (map (option_map view.core_function) given.now) }
{
    for function in given {
        if function.is_none() {
            return false;
        }
    }
    true
}

/// The places of the main module's exports by their names.
fn export_places<'c>(
    alloc: Global,
    linking: &'c Linking<'c, 'c>,
) -> Result<FirstPlaces<'c>, AllocError>
    ensures { IfOk result (λ p. p ≡ map (λ e. e.name.now) linking.entry.now.main.exports.items) }
{
    let mut places = FirstPlaces::new(alloc);
    for export in &linking.main.exports {
        places.push(export.name)?;
    }
    Ok(places)
}

/// The places of arguments by their names.
fn argument_places<'c>(alloc: Global, args: &[Argument<'c>]) -> Result<FirstPlaces<'c>, AllocError>
    ensures { IfOk result (λ p. p ≡ map (λ a. a.name.now) args.now) }
{
    let mut places = FirstPlaces::new(alloc);
    for arg in args {
        places.push(arg.name)?;
    }
    Ok(places)
}

/// The instance that stands under a name.
fn argument(places: &FirstPlaces, args: &[Argument], name: &str) -> Option<u32>
    requires { places.now ≡ map (λ a. a.name.now) args.now }
    ensures { result ≡ meant.argument_named (map argument_value args.now) name.now }
{
    match places.first(name) {
        Some(place) => instance_at(args, place),
        None => None,
    }
}

/// The instance of the argument at a place.
fn instance_at(args: &[Argument], place: usize) -> Option<u32>
    ensures { result ≡ argument_item args.now place }
{
    let arg = args.get(place)?;
    Some(arg.instance)
}

/// The import of a function of a type.
fn imported<'c>(name: &'c str, ty: Option<&'c FunctionType<'c>>) -> Option<ComponentFunction<'c>>
    ensures { option_map view.component_function result ≡ option_map (meant.import_with name.entry.now) (option_map (λ t. function_type_value t.now) ty.entry) }
{
    let ty = ty?;
    Some(ComponentFunction {
        origin: Origin::Import(name),
        ty,
    })
}

/// Whether what an import is given is of its core type.
pub fn is_of_type(linking: &Linking, import: &Import, function: &Option<CoreFunction>) -> bool
    ensures { result ≡ meant.is_of_core_type (imported_type (module_value linking.now.main) import.now.ty) (option_map view.core_function function.now) }
{
    match (linking.import_type(import), function) {
        (Some(asked), Some(function)) => function.ty.is(asked),
        _ => false,
    }
}
