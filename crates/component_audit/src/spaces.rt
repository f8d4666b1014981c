//! What the indices of a component stand for.

ghost use Rattle.std.specs.Prelude.{◌≡◌, ℕ, [], map, option_map};
ghost use Rattle.std.specs.Cmp.Lexicographic.{pointwise};
ghost use Rattle.wasm_types.specs.Types.{func_type_value};
ghost use Rattle.known_definitions.specs.Definition.{parameter_value, function_type_value};
ghost use Rattle.wit_component.specs.Flat.{flat, flat_value, flat_params};
ghost use Rattle.wit_component.specs.Linking.{MainModule};
ghost use Rattle.wit_component.specs.Meaning as meant;
ghost use Rattle.component_audit.specs.SpacesView as view;

use known_definitions::{FunctionType, Parameter};
use name_places::FirstPlaces;
use plain_worlds::PrimitiveType;
use std::alloc::Global;
use wasm_format::{FuncType, ValType};
use wit_component::{flat_value, is_flat_result, is_one_place};

/// Whose a core function is.
#[derive(Clone, Copy)]
pub enum CoreOrigin<'c> {
    /// The core instance with that index exports it under this name.
    Export(usize, &'c str),
    /// It is the lowering of the function with that index.
    Lower(u32),
}

/// Whose a function is.
#[derive(Clone, Copy)]
pub enum Origin<'c> {
    /// It is the import of this name.
    Import(&'c str),
    /// It is the lift of the core function with that index.
    Lift(u32),
}

/// The type of a core function.
#[derive(Clone, Copy)]
pub enum CoreType<'c> {
    /// As a core module has it.
    Own(&'c FuncType),
    /// That of the lowering of a function of this type.
    Flat(&'c FunctionType<'c>),
}

#[derive(Clone, Copy)]
pub struct CoreFunction<'c> {
    pub origin: CoreOrigin<'c>,
    pub ty: CoreType<'c>,
}

#[derive(Clone, Copy)]
pub struct ComponentFunction<'c> {
    pub origin: Origin<'c>,
    pub ty: &'c FunctionType<'c>,
}

/// A core instance.
#[derive(Drop)]
pub enum CoreInstance<'c> {
    /// Of a core module that wasn't handed in; it exports nothing.
    Unknown,
    /// Of the main module.
    Main(Given<'c>),
    /// Made of core functions.
    Inline(Entries<'c>),
}

/// An instance of the main module: its index, what it is given for each of the module's imports, and whether that is something for
/// each; one that isn't whole exports nothing.
#[derive(Drop)]
pub struct Given<'c> {
    pub offset: usize,
    pub index: usize,
    pub functions: Vec<Option<CoreFunction<'c>>>,
    pub whole: bool,
}

/// Core functions by their names; an item may stand for nothing.
#[derive(Drop)]
pub struct Entries<'c> {
    pub names: FirstPlaces<'c>,
    pub items: Vec<Option<CoreFunction<'c>>>,
}

/// An import of the component.
#[derive(Clone, Copy)]
pub struct ImportEntry<'c> {
    pub offset: usize,
    pub name: &'c str,
    pub item: Option<&'c FunctionType<'c>>,
}

/// An export of the component.
#[derive(Clone, Copy)]
pub struct ExportEntry<'c> {
    pub offset: usize,
    pub name: &'c str,
    pub item: Option<ComponentFunction<'c>>,
}

/// A function type.
#[derive(Clone, Copy)]
pub struct TypeEntry<'c> {
    pub ty: &'c FunctionType<'c>,
}

/// An embedded core module.
#[derive(Clone, Copy)]
pub struct ModuleEntry<'c> {
    pub offset: usize,
    pub bytes: &'c [u8],
}

/// The index spaces, and what the outside sees.
#[derive(Drop)]
pub struct Spaces<'c> {
    pub modules: Vec<ModuleEntry<'c>>,
    pub instances: Vec<CoreInstance<'c>>,
    pub core_functions: Vec<Option<CoreFunction<'c>>>,
    pub types: Vec<TypeEntry<'c>>,
    pub functions: Vec<Option<ComponentFunction<'c>>>,
    pub imports: Vec<ImportEntry<'c>>,
    pub exports: Vec<ExportEntry<'c>>,
}

/// Whether two function types are equal, names of parameters too.
pub fn same_type(a: &FunctionType, b: &FunctionType) -> bool
    ensures { result ≡ meant.same_type (function_type_value a.now) (function_type_value b.now) }
{
    same_parameters(&a.params, &b.params) && same_result(a.result, b.result)
}

/// Whether parameters are equal, in the same order.
fn same_parameters(a: &[Parameter], b: &[Parameter]) -> bool
    ensures { result ≡ pointwise meant.same_parameter (map parameter_value a.now) (map parameter_value b.now) }
{
    if a.len() != b.len() {
        return false;
    }
    for (place, p) in a.iter().enumerate() {
        if !same_parameter(p, &b[place]) {
            return false;
        }
    }
    true
}

/// Whether two parameters are equal, names too.
fn same_parameter(a: &Parameter, b: &Parameter) -> bool
    ensures { result ≡ meant.same_parameter (parameter_value a.now) (parameter_value b.now) }
{
    a.name == b.name && a.ty == b.ty
}

/// Whether two results are of one type.
pub fn same_result(a: Option<PrimitiveType>, b: Option<PrimitiveType>) -> bool
    ensures { result ≡ meant.same_result a b }
{
    match (a, b) {
        (None, None) => true,
        (Some(p), Some(q)) => p == q,
        _ => false,
    }
}

/// Whether core values are equal, in the same order.
fn same_values(a: &[ValType], b: &[ValType]) -> bool
    ensures { result ≡ meant.same_values a.now b.now }
{
    if a.len() != b.len() {
        return false;
    }
    for (place, value) in a.iter().enumerate() {
        if *value != b[place] {
            return false;
        }
    }
    true
}

/// Whether a core type is that of the lowering of a function of this type.
fn is_flat_type(core: &FuncType, ty: &FunctionType) -> bool
    ensures { result ≡ meant.same_core_type (func_type_value core.now) (flat (function_type_value ty.now)) }
{
    are_flat(&core.params, &ty.params) && is_flat_result(&core.results, ty.result)
}

/// Whether core values are those of these parameters: one for each of at most 16, else a place in memory.
fn are_flat(values: &[ValType], params: &[Parameter]) -> bool
    ensures { result ≡ meant.same_values values.now (flat_params (map parameter_value params.now)) }
{
    if params.len() <= 16 {
        are_flat_values(values, params)
    } else {
        is_one_place(values)
    }
}

/// Whether core values are those of these parameters, one of each.
fn are_flat_values(values: &[ValType], params: &[Parameter]) -> bool
    ensures { result ≡ meant.same_values values.now (map (λ p. flat_value p.ty) (map parameter_value params.now)) }
{
    if values.len() != params.len() {
        return false;
    }
    for (place, value) in values.iter().enumerate() {
        if *value != flat_value(params[place].ty) {
            return false;
        }
    }
    true
}

impl<'c> CoreType<'c> {
    /// Whether it is this core type.
    pub fn is(self, asked: &FuncType) -> bool
        ensures { result ≡ meant.same_core_type (func_type_value asked.now) (view.core_type self.entry) }
    {
        match self {
            CoreType::Own(own) => {
                same_values(&asked.params, &own.params) && same_values(&asked.results, &own.results)
            }
            CoreType::Flat(ty) => is_flat_type(asked, ty),
        }
    }
}

/// The lowering of the function with that index.
pub fn lowering(index: u32, function: ComponentFunction<'_>) -> CoreFunction<'_>
    ensures { view.core_function result ≡ meant.lowering index (view.component_function function.entry) }
{
    CoreFunction {
        origin: CoreOrigin::Lower(index),
        ty: CoreType::Flat(function.ty),
    }
}

impl<'c> Entries<'c> {
    /// No entries.
    pub fn new(alloc: Global) -> Entries<'c>
        ensures { view.entries result ≡ [] }
    {
        Entries {
            names: FirstPlaces::new(alloc),
            items: Vec::new(alloc),
        }
    }

    /// What the first entry of a name stands for.
    pub fn get(&self, name: &str) -> Option<CoreFunction<'c>>
        ensures { option_map view.core_function result ≡ meant.entry_named name.now (view.entries self.now) }
    {
        match self.names.first(name) {
            Some(place) => core_at(&self.items, place),
            None => None,
        }
    }
}

/// The core function at a place, if it stands for something.
pub fn core_at<'c>(items: &[Option<CoreFunction<'c>>], place: usize) -> Option<CoreFunction<'c>>
    ensures { option_map view.core_function result ≡ meant.item_at (map (option_map view.core_function) items.now) place }
{
    *items.get(place)?
}

/// The function at a place, if it stands for something.
pub fn function_at<'c>(
    items: &[Option<ComponentFunction<'c>>],
    place: usize,
) -> Option<ComponentFunction<'c>>
    ensures { option_map view.component_function result ≡ meant.item_at (map (option_map view.component_function) items.now) place }
{
    *items.get(place)?
}

impl<'c> Spaces<'c> {
    /// No definitions.
    pub fn new(alloc: Global) -> Spaces<'c>
        ensures none { (main : MainModule) → view.spaces main result ≡ meant.no_spaces }
        ensures within { (n : ℕ) → view.AreWithin n result }
    {
        Spaces {
            modules: Vec::new(alloc),
            instances: Vec::new(alloc),
            core_functions: Vec::new(alloc),
            types: Vec::new(alloc),
            functions: Vec::new(alloc),
            imports: Vec::new(alloc),
            exports: Vec::new(alloc),
        }
    }
}
