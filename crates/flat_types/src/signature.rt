//! Core types of functions, and what functions ask for.

ghost use Rattle.std.specs.Prelude.{◌≡◌, List, [], ◌∷◌, true, length, nat_le, not, ◌||◌, IfOk};
ghost use Rattle.std.specs.List.{list_any};
ghost use Rattle.wasm_types.specs.declared.types.ValType.{ValType};
ghost use Rattle.wasm_types.specs.declared.types.ValType.TheVariants.{I32};
ghost use Rattle.flat_types.specs.Flats as spec;
ghost use Rattle.flat_types.specs.Signature as signature;
ghost use Rattle.flat_types.specs.View.{signature_value, required_value};

use crate::flat::FlatTypes;
use std::alloc::{AllocError, Global};
use wasm_types::ValType;
use wit_types::{AbiVariant, Function, Param, Type};

/// As many core types parameters may be; where they would be more, they lie in memory (Canonical ABI, Flattening).
const MOST_PARAMS: usize = 16;

/// As many core types a result may be; where it would be more, it lies in memory (Canonical ABI, Flattening).
const MOST_RESULTS: usize = 1;

/// The core type of a function (Canonical ABI, Flattening).
#[derive(Drop)]
pub struct WasmSignature {
    /// The core types of what it takes.
    pub params: Vec<ValType>,
    /// The core types of what it gives.
    pub results: Vec<ValType>,
    /// Whether the parameters lie in memory: more than 16 are one `i32`, where they lie.
    pub indirect_params: bool,
    /// Whether the result lies in memory: more than one are one more parameter of an import, where it's to be put, and one
    /// `i32` of an export, where it lies.
    pub retptr: bool,
}

/// What a function asks for, so that its values can be passed (Canonical ABI, canon lift and canon lower).
#[derive(Clone, Copy, Debug, PartialEq, Eq)]
pub struct Required {
    /// A memory: for strings and lists, and where parameters or results lie in memory.
    pub memory: bool,
    /// A function that makes room in the module, for what comes in.
    pub realloc: bool,
    /// How strings are encoded.
    pub encoding: bool,
}

/// One `i32`: a place in memory.
fn a_place(alloc: Global) -> Result<Vec<ValType>, AllocError>
    ensures { IfOk result (λ v. v.items ≡ I32 ∷ []) }
{
    Vec::from_slice(alloc, &[ValType::I32])
}

/// Parameters, or where they lie.
fn params_with(
    alloc: Global,
    indirect: bool,
    params: Vec<ValType>,
) -> Result<Vec<ValType>, AllocError>
    ensures { IfOk result (λ v. v.items ≡ signature.params_with indirect params.items) }
{
    if indirect { a_place(alloc) } else { Ok(params) }
}

/// Of a function whose result lies in memory.
fn with_result_in_memory(
    alloc: Global,
    variant: AbiVariant,
    indirect_params: bool,
    params: Vec<ValType>,
) -> Result<WasmSignature, AllocError>
    ensures { (rs : List ValType) → IfOk result (λ s. signature_value s ≡ signature.signature_with variant indirect_params true params.items rs) }
{
    let mut params = params_with(alloc, indirect_params, params)?;
    let results = match variant {
        AbiVariant::GuestImport => {
            params.push(ValType::I32)?;
            Vec::new(alloc)
        }
        AbiVariant::GuestExport => a_place(alloc)?,
    };
    Ok(WasmSignature {
        params,
        results,
        indirect_params,
        retptr: true,
    })
}

/// Of a function that takes and gives these.
fn signature_of(
    alloc: Global,
    variant: AbiVariant,
    params: Vec<ValType>,
    results: &[ValType],
) -> Result<WasmSignature, AllocError>
    ensures { IfOk result (λ s. signature_value s ≡ signature.signature_of variant params.items results.now) }
{
    let indirect_params = params.len() > MOST_PARAMS;
    if results.len() > MOST_RESULTS {
        return with_result_in_memory(alloc, variant, indirect_params, params);
    }
    Ok(WasmSignature {
        params: params_with(alloc, indirect_params, params)?,
        results: Vec::from_slice(alloc, results)?,
        indirect_params,
        retptr: false,
    })
}

/// What is in values.
#[derive(Clone, Copy)]
struct Held {
    /// A string.
    string: bool,
    /// A list whose length isn't known.
    list: bool,
}

impl Held {
    /// Whether one of them is.
    fn any(self) -> bool
        ensures { result ≡ (self.string || self.list) }
    {
        self.string || self.list
    }
}

/// Whether room has to be made in the module: for the result of an import, and for the parameters of an export.
fn is_incoming(
    variant: AbiVariant,
    params_held: bool,
    result_held: bool,
    indirect_params: bool,
) -> bool
    ensures { result ≡ signature.is_incoming variant params_held result_held indirect_params }
{
    match variant {
        AbiVariant::GuestImport => result_held,
        AbiVariant::GuestExport => params_held || indirect_params,
    }
}

/// What is asked for where this is in the parameters and in the result.
fn required_of(
    variant: AbiVariant,
    params: Held,
    result_part: Held,
    indirect_params: bool,
    retptr: bool,
) -> Required
    ensures { required_value result ≡ signature.required_of variant params.string params.list result_part.string result_part.list indirect_params retptr }
{
    let params_held = params.any();
    let result_held = result_part.any();
    Required {
        memory: params_held || result_held || indirect_params || retptr,
        realloc: is_incoming(variant, params_held, result_held, indirect_params),
        encoding: params.string || result_part.string,
    }
}

impl FlatTypes {
    /// The core type of a function over these types, which a module imports or exports (Canonical ABI, Flattening).
    pub fn signature(
        &self,
        alloc: Global,
        variant: AbiVariant,
        function: &Function,
    ) -> Result<WasmSignature, AllocError>
        ensures { IfOk result (λ s. signature_value s ≡ spec.known_signature self.now variant function.now.params.items function.now.result) }
    {
        let params = self.of_fields(alloc, function.params.as_slice())?;
        let result_part = self.of_part(function.result);
        signature_of(alloc, variant, params.values, result_part.values)
    }

    /// Whether parameters are more core types than parameters may be.
    fn are_many(&self, params: &[Param]) -> bool
        ensures { result ≡ not (nat_le (length (spec.in_order (spec.params_flat self.now params.now))) 16) }
    {
        let mut room = MOST_PARAMS;
        for param in params {
            let size = self.of_part(Some(param.ty)).values.len();
            if size > room {
                return true;
            }
            room -= size;
        }
        false
    }

    /// Whether a string is in a value of this type; in none where there is no type.
    pub fn holds_string(&self, part: Option<Type>) -> bool
        ensures { result ≡ (spec.part_flat self.now part).holds_string }
    {
        self.of_part(part).holds_string
    }

    /// Whether a list whose length isn't known is in a value of this type; in none where there is no type.
    pub fn holds_list(&self, part: Option<Type>) -> bool
        ensures { result ≡ (spec.part_flat self.now part).holds_list }
    {
        self.of_part(part).holds_list
    }

    /// Whether a string is in a parameter.
    pub fn params_hold_string(&self, params: &[Param]) -> bool
        ensures { result ≡ list_any (λ p. (spec.ref_flat self.now p.ty).holds_string) params.now }
    {
        params.iter().any(|param| self.holds_string(Some(param.ty)))
    }

    /// Whether a list whose length isn't known is in a parameter.
    pub fn params_hold_list(&self, params: &[Param]) -> bool
        ensures { result ≡ list_any (λ p. (spec.ref_flat self.now p.ty).holds_list) params.now }
    {
        params.iter().any(|param| self.holds_list(Some(param.ty)))
    }

    /// What a function over these types asks for, which a module imports or exports (Canonical ABI, canon lift and canon
    /// lower). Nothing is made.
    pub fn required(&self, variant: AbiVariant, function: &Function) -> Required
        ensures { required_value result ≡ spec.known_required self.now variant function.now.params.items function.now.result }
    {
        let params = function.params.as_slice();
        let result_part = self.of_part(function.result);
        let params_held = Held {
            string: self.params_hold_string(params),
            list: self.params_hold_list(params),
        };
        let result_held = Held {
            string: result_part.holds_string,
            list: result_part.holds_list,
        };
        let indirect_params = self.are_many(params);
        let retptr = result_part.values.len() > MOST_RESULTS;
        required_of(variant, params_held, result_held, indirect_params, retptr)
    }
}
