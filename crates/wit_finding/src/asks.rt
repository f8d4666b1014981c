//! What is asked of other packages, and what they have of it.

ghost use Rattle.std.specs.Prelude.{◌≡◌, ◌<◌, ℕ, ◌++◌, Some, None, length, map, slice_get, string_bytes, option_map, IfErr, OnOk, IfOk};
ghost use Rattle.std.specs.List.{list_any};
ghost use Rattle.wit_moves.specs.Passed.wit_order-Order.{Has};
ghost use Rattle.wit_words.specs.declared.source_map.Span.{Span};
ghost use Rattle.wit_moves.specs.Passed.wit_features-Features.{stays};
ghost use Rattle.wit_finding.specs.Asks as spec;

use crate::fault::FindFault;
use indexmap::IndexMap;
use std::alloc::{AllocError, Global};
use std::hash::Hash;
use wit_moves::{
    Arena, AstItem, Features, ForeignItems, Interface, Package, PackageId, Stability, World,
};
use wit_words::Span;

/// What asks: a package, as far as it says where it asks, where these features are active.
#[derive(Clone, Copy)]
pub struct Asker<'a> {
    /// The features that are active.
    pub features: &'a Features,
    /// Its interfaces, and those for which it asks.
    pub interfaces: &'a Arena<Interface>,
    /// Its worlds, and those for which it asks.
    pub worlds: &'a Arena<World>,
}

/// Whether a statement with one of these gates stays.
fn is_kept(features: &Features, gates: &[Stability]) -> bool
    ensures { result ≡ list_any (stays features.now) gates.now }
{
    gates.iter().any(|gate| features.keeps(gate))
}

/// The interface of that name.
fn interface_in(package: &Package, name: &str) -> Option<AstItem>
    ensures { result ≡ option_map AstItem.Interface (spec.interface_in «package».now name.now) }
{
    match package.interfaces.get(name) {
        Some(id) => Some(AstItem::Interface(*id)),
        None => None,
    }
}

/// The world of that name.
fn world_in(package: &Package, name: &str) -> Option<AstItem>
    ensures { result ≡ option_map AstItem.World (spec.world_in «package».now name.now) }
{
    match package.worlds.get(name) {
        Some(id) => Some(AstItem::World(*id)),
        None => None,
    }
}

/// What a package has of that name and of the sort that is asked for.
fn item_in(package: &Package, name: &str, item: &AstItem) -> Option<AstItem>
    ensures { result ≡ spec.item_in «package».now name.now item.now }
{
    match item {
        AstItem::Interface(_) => interface_in(package, name),
        AstItem::World(_) => world_in(package, name),
    }
}

/// What it has of that name and of the other sort.
fn other_in(package: &Package, name: &str, item: &AstItem) -> Option<AstItem>
    ensures { result ≡ spec.other_in «package».now name.now item.now }
{
    match item {
        AstItem::Interface(_) => world_in(package, name),
        AstItem::World(_) => interface_in(package, name),
    }
}

/// Where an asked item is said to stand.
fn span_of(asker: &Asker, item: &AstItem) -> Span
    requires { spec.IsItemThere asker.now.interfaces.now asker.now.worlds.now item.now }
    ensures { spec.IsSpanOf asker.now.interfaces.now asker.now.worlds.now item.now result }
{
    match item {
        AstItem::Interface(id) => asker.interfaces.get(*id).span,
        AstItem::World(id) => asker.worlds.get(*id).span,
    }
}

/// Adds what is there of one that is asked for, if it is.
fn push_found(
    found: &mut Vec<(AstItem, AstItem)>,
    item: &AstItem,
    there: &Option<AstItem>,
) -> Result<(), AllocError>
    ensures { OnOk result (found.new.items ≡ found.old.items ++ spec.pair_of item.now there.now) }
{
    if let Some(there) = there {
        found.push((*item, *there))?;
    }
    Ok(())
}

/// Adds what is found of one that is asked of a package.
fn add_ask(
    found: &mut Vec<(AstItem, AstItem)>,
    asker: &Asker,
    package: &Package,
    name: &str,
    item: AstItem,
    gates: &[Stability],
) -> Result<(), FindFault>
    requires { spec.IsItemThere asker.now.interfaces.now asker.now.worlds.now item }
    ensures found { OnOk result (found.new.items ≡ found.old.items ++ spec.pair_of item (spec.finds asker.now.features.now (spec.ask «package».now name.now item gates.now))) }
    ensures kept { OnOk result ((at : Span) → spec.IsMissingAt asker.now.features.now asker.now.interfaces.now asker.now.worlds.now (spec.ask «package».now name.now item gates.now) at → ⊥) }
    ensures cause { IfErr result (spec.IsMissing asker.now.features.now asker.now.interfaces.now asker.now.worlds.now (spec.ask «package».now name.now item gates.now)) }
{
    if !is_kept(asker.features, gates) {
        return Ok(());
    }
    let there = item_in(package, name, &item);
    if there.is_none() && other_in(package, name, &item).is_none() {
        return Err(FindFault::ItemNotFound(span_of(asker, &item)));
    }
    push_found(found, &item, &there)?;
    Ok(())
}

/// Adds what is found of all that is asked of a package.
fn add_asks(
    found: &mut Vec<(AstItem, AstItem)>,
    asker: &Asker,
    package: &Package,
    items: &ForeignItems,
) -> Result<(), FindFault>
    requires { spec.AreItemsThere asker.now.interfaces.now asker.now.worlds.now items.now.entries }
    ensures found { OnOk result (found.new.items ≡ found.old.items ++ spec.found_by asker.now.features.now (spec.asks_of «package».now items.now.entries)) }
    ensures kept { OnOk result ((at : Span) → spec.AskBreaks asker.now.features.now asker.now.interfaces.now asker.now.worlds.now (spec.asks_of «package».now items.now.entries) at → ⊥) }
    ensures cause { IfErr result (spec.IsAskCause asker.now.features.now asker.now.interfaces.now asker.now.worlds.now (spec.asks_of «package».now items.now.entries)) }
{
    for (name, asked) in items.iter() {
        add_ask(
            found,
            asker,
            package,
            name.as_str(),
            asked.0,
            asked.1.as_slice(),
        )?;
    }
    Ok(())
}

/// What is found of all that is asked of packages, by what is asked for: nothing for what no statement asks for that stays. Refuses
/// where a statement stays that asks for what its package has neither as an interface nor as a world, where it first asks.
pub fn found_items<K: Eq + Hash>(
    alloc: Global,
    asker: &Asker,
    packages: &Arena<Package>,
    ids: &[PackageId],
    deps: &IndexMap<K, ForeignItems>,
) -> Result<Vec<(AstItem, AstItem)>, FindFault>
    requires packages { (i : ℕ) → Has ids.now i → i < length packages.now }
    requires so_many { length ids.now ≡ length deps.now.entries }
    requires there { spec.AreDepsThere asker.now.interfaces.now asker.now.worlds.now (spec.items_of deps.now.entries) }
    ensures found { IfOk result (λ found. found.items ≡ spec.found_by asker.now.features.now (spec.asks_in packages.now ids.now (spec.items_of deps.now.entries))) }
    ensures kept { OnOk result ((at : Span) → spec.AskBreaks asker.now.features.now asker.now.interfaces.now asker.now.worlds.now (spec.asks_in packages.now ids.now (spec.items_of deps.now.entries)) at → ⊥) }
    ensures cause { IfErr result (spec.IsAskCause asker.now.features.now asker.now.interfaces.now asker.now.worlds.now (spec.asks_in packages.now ids.now (spec.items_of deps.now.entries))) }
{
    let mut found = Vec::new(alloc);
    for (place, items) in deps.values().enumerate() {
        add_asks(&mut found, asker, packages.get(ids[place]), items)?;
    }
    Ok(found)
}
