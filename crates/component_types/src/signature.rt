//! Core types of functions.

ghost use Rattle.std.specs.Prelude.{◌≡◌, IfOk};
ghost use Rattle.type_writing.specs.Functions.{FunctionUnfolds};
ghost use Rattle.type_writing.specs.Unfolding.{WitTree};
ghost use Rattle.flat_types.specs.Flats.{flats, known_signature};
ghost use Rattle.flat_types.specs.View.{signature_value};
ghost use Rattle.flat_trees.specs.Flat.{signature};

use flat_trees::law_unfolded_functions_are_flat;
use flat_types::{FlatTypes, WasmSignature};
use std::alloc::AllocError;
use wit_resolution::Resolve;
use wit_types::{AbiVariant, Function};

/// The core type of a function over the types of packages, which a module imports or exports, by the tree of the function's type
/// (Component Model, Canonical ABI, Flattening). It goes over all types of the packages; for many functions `FlatTypes` is made once, and
/// has the same by `signature`. Fails only for want of memory.
pub fn wasm_signature(
    resolve: &Resolve,
    variant: AbiVariant,
    function: &Function,
) -> Result<WasmSignature, AllocError>
    ensures known { IfOk result (λ s. signature_value s ≡ known_signature (flats resolve.now.graph.tables.types) variant function.now.params.items function.now.result) }
    ensures tree { (t : WitTree) → FunctionUnfolds resolve.now.graph.tables.types function.now.params.items function.now.result t → IfOk result (λ s. signature_value s ≡ signature variant t) }
{
    resolve.graph().law_is_graph();
    law_unfolded_functions_are_flat();
    let alloc = resolve.allocator();
    let types = FlatTypes::new(alloc, resolve.types())?;
    types.signature(alloc, variant, function)
}
