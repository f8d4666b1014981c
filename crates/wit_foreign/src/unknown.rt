//! The types of other packages that are used.

ghost use Rattle.std.specs.Prelude.{◌≡◌, ℕ, ◌∷◌, ◌++◌, [], Some, length, IfOk, OnOk};
ghost use Rattle.wit_types.specs.declared.interface.TypeDef.{TypeDef};
ghost use Rattle.wit_types.specs.declared.«package».AstItem.TheVariants as ids;
ghost use Rattle.wit_words.specs.Slice.{Slice};
ghost use Rattle.wit_lookups.specs.Passed.wit_syntax-AstView as view;
ghost use Rattle.wit_package_types.specs.Passed.wit_arena-Meaning.{Has};
ghost use Rattle.wit_package_types.specs.Foreign.{owner_in, path_name};
ghost use Rattle.wit_foreign.specs.Needs.{AreUses};
ghost use Rattle.wit_foreign.specs.View as seen;
ghost use Rattle.wit_foreign.specs.Items.{AreItemsOf};
ghost use Rattle.wit_foreign.specs.Unknown as spec;

use crate::items::ForeignItems;
use crate::needs::Need;
use std::alloc::{AllocError, Global};
use wit_lookups::{Asked, Id, Span};
use wit_package_types::{ForeignTypes, TypePath, Types};
use wit_types::{AstItem, Docs, InterfaceId, Stability, TypeDef, TypeDefKind, TypeOwner};

/// Types of other packages of which nothing is known but their names.
#[derive(Drop)]
pub struct Unknown<'a> {
    /// The types by their names.
    pub types: ForeignTypes<'a>,
    /// Where each is first used, in the same order.
    pub spans: Vec<Span>,
}

/// The id of an interface.
fn interface_id(item: AstItem) -> InterfaceId
    requires { (k : ℕ) × (item ≡ ids.Interface k) }
    ensures { item ≡ ids.Interface result }
{
    match item {
        AstItem::Interface(id) => id,
        AstItem::World(_) => unreachable!(),
    }
}

/// The interface of a type that is used.
fn interface_of<'a>(items: &ForeignItems<'a>, need: &Need<'a>) -> InterfaceId
    requires { spec.HasInterface items.now (owner_in (seen.need need.now).«package» (seen.need need.now).item) }
    ensures { Has items.now (owner_in (seen.need need.now).«package» (seen.need need.now).item, ids.Interface result) }
{
    match items.get(&need.package, &need.item, Asked::Interface) {
        Some(item) => interface_id(item),
        None => unreachable!(),
    }
}

/// A type of an interface of which nothing is known but its name.
fn unknown_type(alloc: Global, interface: InterfaceId, name: &Id<'_>) -> Result<TypeDef, AllocError>
    ensures { IfOk result (spec.IsUnknown interface (view.id name.now)) }
{
    let text = String::from_str(alloc, name.name)?;
    Ok(TypeDef {
        name: Some(text),
        kind: TypeDefKind::Unknown,
        owner: TypeOwner::Interface(interface),
        docs: Docs { contents: None },
        stability: Stability::Unknown,
        span: name.span,
    })
}

/// Adds a type that is used and isn't there.
fn add_type<'a>(
    types: &mut Types,
    known: &mut ForeignTypes<'a>,
    spans: &mut Vec<Span>,
    path: TypePath<'a>,
    interface: InterfaceId,
    name: &Id<'a>,
) -> Result<(), AllocError>
    requires { (j : ℕ) → Has known.old (path_name path, j) → ⊥ }
    ensures { OnOk result ((d : TypeDef) × spec.IsUnknown interface (view.id name.now) d × (types.new ≡ types.old ++ d ∷ []) × (known.new ≡ known.old ++ (path_name path.entry, length types.old) ∷ []) × (spans.new.items ≡ spans.old.items ++ name.now.span ∷ [])) }
{
    let def = unknown_type(types.allocator(), interface, name)?;
    let id = types.define(def)?;
    known.add(path, id)?;
    spans.push(name.span)?;
    Ok(())
}

/// Adds the type that a need uses, where it isn't there.
fn add_named<'a>(
    types: &mut Types,
    items: &ForeignItems<'a>,
    known: &mut ForeignTypes<'a>,
    spans: &mut Vec<Span>,
    need: &Need<'a>,
    name: &Id<'a>,
) -> Result<(), AllocError>
    requires named { (seen.need need.now).name ≡ Some (view.id name.now) }
    requires interface { spec.HasInterface items.now (owner_in (seen.need need.now).«package» (seen.need need.now).item) }
    ensures { OnOk result (spec.AddsUsed items.now (seen.need need.now) types.old known.old spans.old.items types.new known.new spans.new.items) }
{
    let path = TypePath::new(&need.package, &need.item, name);
    match known.get(&path) {
        Some(_) => Ok(()),
        None => add_type(types, known, spans, path, interface_of(items, need), name),
    }
}

/// Adds the type that a need uses, if one, where it isn't there.
fn add_used<'a>(
    types: &mut Types,
    items: &ForeignItems<'a>,
    known: &mut ForeignTypes<'a>,
    spans: &mut Vec<Span>,
    need: &Need<'a>,
) -> Result<(), AllocError>
    requires { (y : Slice) → (seen.need need.now).name ≡ Some y → spec.HasInterface items.now (owner_in (seen.need need.now).«package» (seen.need need.now).item) }
    ensures { OnOk result (spec.AddsUsed items.now (seen.need need.now) types.old known.old spans.old.items types.new known.new spans.new.items) }
{
    match &need.name {
        None => Ok(()),
        Some(name) => add_named(types, items, known, spans, need, name),
    }
}

/// Adds an unknown type for each type of another package that is used (WIT, Use), as the first types: answers where each
/// stands by its name, and where it is first used. The items are those that are asked for, and types are used of interfaces.
pub fn add_unknown_types<'a>(
    types: &mut Types,
    items: &ForeignItems<'a>,
    needs: &[Need<'a>],
) -> Result<Unknown<'a>, AllocError>
    requires none { types.old ≡ [] }
    requires items { AreItemsOf (seen.needs needs.now) items.now }
    requires uses { AreUses (seen.needs needs.now) }
    ensures { IfOk result (λ u. spec.AreUnknown items.now (seen.needs needs.now) types.new u.types u.spans.items) }
{
    let mut known = ForeignTypes::new(types.allocator());
    let mut spans = Vec::new(types.allocator());
    for need in needs {
        add_used(types, items, &mut known, &mut spans, need)?;
    }
    Ok(Unknown {
        types: known,
        spans,
    })
}
