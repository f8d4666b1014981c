//! Types that turn out to be what they may not be where they stand.

ghost use Rattle.std.specs.Prelude.{◌≡◌, true, false, OnOk, IfErr};
ghost use Rattle.wit_moves.specs.Breaks.{AnyOf, IsKept};
ghost use Rattle.wit_shapes.specs.Shapes as spec;

use indexmap::IndexMap;
use wit_resources::Natures;
use wit_types::{Function, Handle, TypeDef, TypeDefKind, WorldItem, WorldKey};
use wit_words::Span;

/// Whether a handle is one of what is no resource.
fn is_bad_handle(natures: &Natures, kind: &TypeDefKind) -> bool
    ensures { result ≡ spec.is_bad_handle natures.now kind.now }
{
    match kind {
        TypeDefKind::Handle(Handle::Own(id)) | TypeDefKind::Handle(Handle::Borrow(id)) => {
            !natures.get(*id).is_resource
        }
        _ => false,
    }
}

/// Refuses a handle of what is no resource, at its place.
fn check_type(natures: &Natures, def: &TypeDef) -> Result<(), Span>
    ensures ok { OnOk result (IsKept (spec.TypeBreaks natures.now def.now)) }
    ensures cause { IfErr result (spec.TypeBreaks natures.now def.now) }
{
    if is_bad_handle(natures, &def.kind) {
        return Err(def.span);
    }
    Ok(())
}

/// Refuses types of which one is a handle of what is no resource, at that type. What is known of types is known of all that they
/// name (WIT, Types: `own`, `borrow`).
pub fn check_types(natures: &Natures, types: &[TypeDef]) -> Result<(), Span>
    ensures ok { OnOk result (IsKept (AnyOf (spec.TypeBreaks natures.now) types.now)) }
    ensures cause { IfErr result (AnyOf (spec.TypeBreaks natures.now) types.now) }
{
    for def in types.iter() {
        check_type(natures, def)?;
    }
    Ok(())
}

/// Refuses a function whose result holds what is lent, at its place.
fn check_function(natures: &Natures, function: &Function) -> Result<(), Span>
    ensures ok { OnOk result (IsKept (spec.FunctionBreaks natures.now function.now)) }
    ensures cause { IfErr result (spec.FunctionBreaks natures.now function.now) }
{
    if natures.holds_borrow(&function.result) {
        return Err(function.span);
    }
    Ok(())
}

/// Refuses functions of which one has a result that holds what is lent, at that function (WIT, Types: `borrow`).
pub fn check_functions(
    natures: &Natures,
    functions: &IndexMap<String, Function>,
) -> Result<(), Span>
    ensures ok { OnOk result (IsKept (spec.FunctionsBreak natures.now functions.now.entries)) }
    ensures cause { IfErr result (spec.FunctionsBreak natures.now functions.now.entries) }
{
    for function in functions.values() {
        check_function(natures, function)?;
    }
    Ok(())
}

/// The same of what a world imports or exports.
fn check_item(natures: &Natures, item: &WorldItem) -> Result<(), Span>
    ensures ok { OnOk result (IsKept (spec.ItemBreaks natures.now item.now)) }
    ensures cause { IfErr result (spec.ItemBreaks natures.now item.now) }
{
    match item {
        WorldItem::Function(function) => check_function(natures, function),
        WorldItem::Interface { .. } | WorldItem::TypeItem { .. } => Ok(()),
    }
}

/// Refuses what a world imports or exports where it is a function whose result holds what is lent, at that function.
pub fn check_side(natures: &Natures, side: &[(WorldKey, WorldItem)]) -> Result<(), Span>
    ensures ok { OnOk result (IsKept (spec.SideBreaks natures.now side.now)) }
    ensures cause { IfErr result (spec.SideBreaks natures.now side.now) }
{
    for entry in side {
        check_item(natures, &entry.1)?;
    }
    Ok(())
}
