//! What is linked: the chosen world and the main module.

ghost use Rattle.std.specs.Prelude.{◌≡◌, ◌∷◌, [], map, option_map, Some, true, false};
ghost use Rattle.wit_component.specs.Meaning.{same_values};
ghost use Rattle.wasm_types.specs.Types.{func_type_value};
ghost use Rattle.wit_component.specs.Linking.{reading};
ghost use Rattle.wasm_format.specs.Grammar.{IsModule};
ghost use Rattle.wasm_format.specs.Module.{module_value, imported_type, exported_type};
ghost use Rattle.wit_component.specs.Flat.{flat_value, flat_result, flat_params, flat};
ghost use Rattle.plain_worlds.specs.World.{param_item, function_item};

use plain_worlds::{Function, Param, PrimitiveType, World};
use wasm_format::{CoreModule, Export, FuncType, Import, ValType};

/// The chosen world, the main module, and whether legacy names stand for nothing.
#[derive(Drop)]
pub struct Linking<'s, 'a> {
    /// The world whose imports and exports are linked.
    pub world: &'s World,
    /// The bytes of the main module.
    pub bytes: &'a [u8],
    /// What they are read as (WebAssembly Core, Binary Format, Modules).
    pub main: CoreModule<'a>,
    /// Names of the legacy mangling stand for nothing.
    pub rejects_legacy: bool,
    ghost reads: { reading bytes.now ≡ Some (module_value main) },
}

impl<'s, 'a> Linking<'s, 'a> {
    /// What holds of each linking: the main module is what its bytes are.
    pub fn law_main_is_read(&self)
        ensures { IsModule self.now.bytes.now (module_value self.now.main) }
    {
        let _ = &self.main;
    }

    /// The core type of an import; none where it isn't a function.
    pub fn import_type(&self, import: &Import) -> Option<&FuncType>
        ensures { option_map (λ t. func_type_value t.now) result ≡ imported_type (module_value self.now.main) import.now.ty }
    {
        self.main.imported_type(import)
    }

    /// The core type of an export; none where it isn't a function.
    pub fn export_type(&self, export: &Export) -> Option<&FuncType>
        ensures { option_map (λ t. func_type_value t.now) result ≡ exported_type (module_value self.now.main) export.now.kind export.now.index }
    {
        self.main.exported_type(export)
    }
}

/// The core value of a primitive type (Canonical ABI, Flattening).
pub fn flat_value(ty: PrimitiveType) -> ValType
    ensures { result ≡ flat_value ty }
{
    match ty {
        PrimitiveType::S64 | PrimitiveType::U64 => ValType::I64,
        PrimitiveType::Bool
        | PrimitiveType::S8
        | PrimitiveType::U8
        | PrimitiveType::S16
        | PrimitiveType::U16
        | PrimitiveType::S32
        | PrimitiveType::U32 => ValType::I32,
    }
}

/// Whether this is the core value of a primitive type.
fn is_flat_value(value: ValType, ty: PrimitiveType) -> bool
    ensures is { result ≡ true → value ≡ flat_value ty }
    ensures is_not { result ≡ false → ¬ (value ≡ flat_value ty) }
    ensures same { result ≡ same_values (value ∷ []) (flat_value ty ∷ []) }
{
    value == flat_value(ty)
}

/// Whether these are the core values of a result.
pub fn is_flat_result(values: &[ValType], result_type: Option<PrimitiveType>) -> bool
    ensures is { result ≡ true → values.now ≡ flat_result result_type }
    ensures is_not { result ≡ false → ¬ (values.now ≡ flat_result result_type) }
    ensures same { result ≡ same_values values.now (flat_result result_type) }
{
    match result_type {
        None => values.is_empty(),
        Some(ty) => match values {
            [value] => is_flat_value(*value, ty),
            _ => false,
        },
    }
}

/// Whether these are the core values of parameters, one of each.
fn are_flat_values(values: &[ValType], params: &[Param]) -> bool
    ensures is { result ≡ true → values.now ≡ map (λ p. flat_value p.ty) (map param_item params.now) }
    ensures is_not { result ≡ false → ¬ (values.now ≡ map (λ p. flat_value p.ty) (map param_item params.now)) }
{
    if values.len() != params.len() {
        return false;
    }
    for (place, value) in values.iter().enumerate() {
        if !is_flat_value(*value, params[place].ty) {
            return false;
        }
    }
    true
}

/// Whether these core values are one place in memory, an `i32` (Canonical ABI, Flattening).
pub fn is_one_place(values: &[ValType]) -> bool
    ensures is { result ≡ true → values.now ≡ ValType.I32 ∷ [] }
    ensures is_not { result ≡ false → ¬ (values.now ≡ ValType.I32 ∷ []) }
    ensures same { result ≡ same_values values.now (ValType.I32 ∷ []) }
{
    match values {
        [value] => *value == ValType::I32,
        _ => false,
    }
}

/// Whether these are the core values of parameters: one for each of at most 16, else a place in memory (Canonical ABI, Flattening).
fn are_flat(values: &[ValType], params: &[Param]) -> bool
    ensures is { result ≡ true → values.now ≡ flat_params (map param_item params.now) }
    ensures is_not { result ≡ false → ¬ (values.now ≡ flat_params (map param_item params.now)) }
{
    if params.len() <= 16 {
        are_flat_values(values, params)
    } else {
        is_one_place(values)
    }
}

/// Whether a core type is that of a function.
pub fn is_flat(core: &FuncType, function: &Function) -> bool
    ensures is { result ≡ true → func_type_value core.now ≡ flat (function_item function.now).ty }
    ensures is_not { result ≡ false → ¬ (func_type_value core.now ≡ flat (function_item function.now).ty) }
{
    are_flat(&core.params, &function.params) && is_flat_result(&core.results, function.result)
}

/// Whether there is a core type, that of a function.
pub fn is_of_type(core: Option<&FuncType>, function: &Function) -> bool
    ensures is { result ≡ true → option_map (λ t. func_type_value t.now) core.entry ≡ Some (flat (function_item function.now).ty) }
    ensures is_not { result ≡ false → ¬ (option_map (λ t. func_type_value t.now) core.entry ≡ Some (flat (function_item function.now).ty)) }
{
    match core {
        Some(core) => is_flat(core, function),
        None => false,
    }
}
