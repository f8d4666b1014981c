//! A world's imports with all that they and its exports depend on.

ghost use Rattle.std.specs.Prelude.{◌≡◌, ℕ, ◌<◌, [], length, map, IfOk, OnOk};
ghost use Rattle.indexmap.specs.IndexMap.{insert_all};
ghost use Rattle.wit_reach.specs.Passed.wit_order-Order.{Has};
ghost use Rattle.wit_reach.specs.Paths.{AreRising};
ghost use Rattle.wit_elaborated.specs.Elaborated as spec;

use indexmap::IndexMap;
use std::alloc::{AllocError, Global};
use std::hash::Hash;
use wit_reach::{Arena, Interface, InterfaceId, Stability, WorldItem, WorldKey};

/// Interfaces as a world has them where it doesn't list them.
fn implied(
    alloc: Global,
    interfaces: &Arena<Interface>,
    order: &[InterfaceId],
) -> Result<Vec<(WorldKey, WorldItem)>, AllocError>
    requires { (i : ℕ) → Has order.now i → i < length interfaces.now }
    ensures { IfOk result (λ entries. entries.items ≡ map (spec.implied_entry interfaces.now) order.now) }
{
    let mut entries = Vec::new(alloc);
    for id in order {
        let item = WorldItem::Interface {
            id: *id,
            stability: Stability::Unknown,
            span: interfaces.get(*id).span,
        };
        entries.push((WorldKey::Interface(*id), item))?;
    }
    Ok(entries)
}

/// Puts entries behind those that are there: one of which the key is there takes the place of that.
fn put_each<K: Eq + Hash + Drop, V: Drop>(
    found: &mut IndexMap<K, V>,
    entries: Vec<(K, V)>,
) -> Result<(), AllocError>
    ensures { OnOk result (found.new.entries ≡ insert_all K.eq found.old.entries entries.items) }
{
    for (key, value) in entries {
        found.insert(key, value)?;
    }
    Ok(())
}

/// Puts all of another map behind what is there.
fn put_all<K: Eq + Hash + Drop, V: Drop>(
    found: &mut IndexMap<K, V>,
    others: IndexMap<K, V>,
) -> Result<(), AllocError>
    ensures { OnOk result (found.new.entries ≡ insert_all K.eq found.old.entries others.entries) }
{
    let mut rest = others;
    found.append(&mut rest)
}

/// Puts entries behind those that are there, and then others.
fn put_both<K: Eq + Hash + Drop, V: Drop>(
    found: &mut IndexMap<K, V>,
    first: Vec<(K, V)>,
    others: IndexMap<K, V>,
) -> Result<(), AllocError>
    ensures { OnOk result (found.new.entries ≡ insert_all K.eq (insert_all K.eq found.old.entries first.items) others.entries) }
{
    put_each(found, first)?;
    put_all(found, others)
}

/// Entries, and then others: one of which the key is there takes the place of that.
fn put_behind<K: Eq + Hash + Drop, V: Drop>(
    alloc: Global,
    first: Vec<(K, V)>,
    others: IndexMap<K, V>,
) -> Result<IndexMap<K, V>, AllocError>
    ensures { IfOk result (λ found. found.entries ≡ insert_all K.eq (insert_all K.eq [] first.items) others.entries) }
{
    let mut found = IndexMap::new(alloc);
    put_both(&mut found, first, others).and(Ok(found))
}

/// What a world imports in the end, of what it lists as imports: the interfaces of that order, each as the world lists it, and then
/// what it imports under plain names, in its order. An interface that the world doesn't list stands where it is declared, and nothing
/// is said of how stable it is here (Component Model, WIT, Worlds). Fails for want of memory alone.
pub fn elaborated_imports(
    alloc: Global,
    interfaces: &Arena<Interface>,
    order: &[InterfaceId],
    imports: IndexMap<WorldKey, WorldItem>,
) -> Result<IndexMap<WorldKey, WorldItem>, AllocError>
    requires there { (i : ℕ) → Has order.now i → i < length interfaces.now }
    requires rising { AreRising order.now }
    requires listed { (i : ℕ) → Has (spec.interface_keys imports.entries) i → Has order.now i }
    ensures { IfOk result (λ found. found.entries ≡ spec.elaborated interfaces.now order.now imports.entries) }
{
    let first = implied(alloc, interfaces, order)?;
    put_behind(alloc, first, imports)
}
