//! What interfaces hold.

ghost use Rattle.std.specs.Prelude.{◌≡◌, ◌<◌, true, String, Some, length, slice_get, OnOk, IfErr};
ghost use Rattle.std.specs.declared.alloc.Global.{Global};
ghost use Rattle.wit_features.specs.Passed.wit_words-declared-source_map-Span.{Span};
ghost use Rattle.wit_moves.specs.Moved.{is_placed, to, IsMovedFunction};
ghost use Rattle.wit_moves.specs.Interfaces as spec;

use crate::functions::{has_resource, has_signature, move_function};
use crate::places::TypePlaces;
use crate::plan::MoveFault;
use indexmap::IndexMap;
use wit_features::{Features, Function, Interface, PackageId, TypeId};

/// Puts an id where its type stands. Answers whether it does.
fn place_id(places: &TypePlaces, id: &mut TypeId) -> bool
    ensures stays { result ≡ is_placed places.now id.old }
    ensures moved { id.new ≡ to places.now id.old }
{
    match places.get(*id) {
        Some(place) => {
            *id = place;
            true
        }
        None => false,
    }
}

/// Moves names of types to where these stand; those of types that are left out go.
pub fn move_names(places: &TypePlaces, names: &mut IndexMap<String, TypeId>)
    ensures { spec.AreMovedNames places.now names.old.entries names.new.entries }
{
    names.retain(
        |_name: &String, id: &mut TypeId| -> bool
            ensures { (result ≡ is_placed places.entry.now id.old) × (id.new ≡ to places.entry.now id.old) }
        { place_id(places, id) },
    );
}

/// Whether a function stays: where its gates let it and the resource that it is of, if it is of one, does.
pub fn stays(features: &Features, places: &TypePlaces, function: &Function) -> bool
    ensures { result ≡ spec.function_stays features.now places.now function.now }
{
    features.keeps(&function.stability) && has_resource(places, &function.kind)
}

/// Moves a function to the types where they stand, if it stays. Answers whether it does.
fn place_function(features: &Features, places: &TypePlaces, function: &mut Function) -> bool
    ensures stays { result ≡ spec.function_stays features.now places.now function.old }
    ensures moved { result ≡ true → IsMovedFunction (to places.now) function.old function.new }
{
    let stays = stays(features, places, function);
    if stays {
        move_function(places, function);
    }
    stays
}

/// Moves functions by name to the types where they stand; those that don't stay go.
pub fn move_functions(
    features: &Features,
    places: &TypePlaces,
    functions: &mut IndexMap<String, Function>,
)
    ensures { spec.AreMovedFunctions features.now places.now functions.old.entries functions.new.entries }
{
    functions.retain(
        |_name: &String, function: &mut Function| -> bool
            ensures { (result ≡ spec.function_stays features.entry.now places.entry.now function.old) × (result ≡ true → IsMovedFunction (to places.entry.now) function.old function.new) }
        { place_function(features, places, function) },
    );
}

/// The function at a place.
fn function_at(functions: &IndexMap<String, Function>, place: usize) -> &Function
    requires { place < length functions.now.entries }
    ensures { (name : String Global) × (slice_get functions.now.entries place ≡ Some (name, result.now)) }
{
    match functions.get_index(place) {
        Some((_, function)) => function,
        None => unreachable!(),
    }
}

/// Refuses functions of which one stays that takes or gives a type that doesn't.
pub fn check_functions(
    features: &Features,
    places: &TypePlaces,
    functions: &IndexMap<String, Function>,
) -> Result<(), MoveFault>
    ensures ok { OnOk result ((at : Span) → spec.FunctionsBreak features.now places.now functions.now.entries at → ⊥) }
    ensures cause { IfErr result (spec.IsFunctionCause features.now places.now functions.now.entries) }
{
    for place in 0..functions.len() {
        let function = function_at(functions, place);
        if stays(features, places, function) && !has_signature(places, function) {
            return Err(MoveFault::ItemNotFound(function.span));
        }
    }
    Ok(())
}

/// Moves what an interface holds to where its types stand, and says which package it is of.
pub fn move_interface(
    features: &Features,
    places: &TypePlaces,
    owner: PackageId,
    interface: &mut Interface,
)
    ensures { spec.IsMovedInterface features.now places.now owner interface.old interface.new }
{
    move_names(places, &mut interface.types);
    move_functions(features, places, &mut interface.functions);
    interface.package = Some(owner);
}
