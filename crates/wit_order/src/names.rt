//! The order of names that need one another.

ghost use Rattle.std.specs.Prelude.{◌≡◌, ℕ, ◌<◌, ◌≤◌, length, Some, IfOk, IfErr, slice_get};
ghost use Rattle.wit_order.specs.Order.{Has};
ghost use Rattle.wit_order.specs.Names.{ask, asks_of, asks, texts, table, AreFound, AreRows, AreKeysAt, IsLookCause, IsMissCause, IsToposort, IsOrderCause};

use crate::Span;
use crate::fault::OrderFault;
use crate::places::{PlaceFault, least_order};
use indexmap::IndexMap;
use std::alloc::{AllocError, Global};

/// A name that another needs, and where it stands.
#[derive(Clone, Copy, Debug, PartialEq, Eq)]
pub struct Need<'a> {
    /// The name.
    pub name: &'a str,
    /// Where it stands.
    pub span: Span,
}

/// The places of needed names among the keys.
fn places<'a>(
    alloc: Global,
    kind: &'a str,
    deps: &IndexMap<&'a str, Vec<Need<'a>>>,
    needs: &[Need<'a>],
) -> Result<Vec<usize>, OrderFault<'a>>
    ensures found { IfOk result (λ row. AreFound (table deps.now.entries) (asks_of needs.now) row.items) }
    ensures cause { IfErr result (IsLookCause kind.now (table deps.now.entries) (asks_of needs.now)) }
{
    let mut row = Vec::new(alloc);
    for need in needs {
        let name = need.name;
        match deps.get_index_of(name) {
            Some(place) => row.push(place)?,
            None => {
                let span = need.span;
                return Err(OrderFault::NameNotFound { kind, name, span });
            }
        }
    }
    Ok(row)
}

/// The places that each key needs.
fn rows<'a>(
    alloc: Global,
    kind: &'a str,
    deps: &IndexMap<&'a str, Vec<Need<'a>>>,
) -> Result<Vec<Vec<usize>>, OrderFault<'a>>
    ensures ok { IfOk result (λ g. AreRows (table deps.now.entries) g.items) }
    ensures cause { IfErr result (IsMissCause kind.now (table deps.now.entries)) }
{
    let mut rows = Vec::new(alloc);
    for place in 0..deps.len() {
        let needs = &deps[place];
        let row = places(alloc, kind, deps, needs.as_slice())?;
        rows.push(row)?;
    }
    Ok(rows)
}

/// The keys at these places.
fn keys_at<'a>(
    alloc: Global,
    deps: &IndexMap<&'a str, Vec<Need<'a>>>,
    order: &[usize],
) -> Result<Vec<&'a str>, AllocError>
    requires { (i : ℕ) → Has order.now i → i < length deps.now.entries }
    ensures { IfOk result (λ names. AreKeysAt (table deps.now.entries) order.now (texts names.items)) }
{
    let mut names = Vec::new(alloc);
    for place in order {
        let Some((name, _)) = deps.get_index(*place) else {
            unreachable!()
        };
        names.push(*name)?;
    }
    Ok(names)
}

/// What the key at a place needs, by its place in the row.
fn need_at<'a>(deps: &IndexMap<&'a str, Vec<Need<'a>>>, from: usize, need: usize) -> Need<'a>
    requires from { from < length deps.now.entries }
    requires need { need < length (asks (table deps.now.entries) from) }
    ensures { slice_get (asks (table deps.now.entries) from) need ≡ Some (ask result) }
{
    let needs = &deps[from];
    needs[need]
}

/// The keys of a table, each behind all that it needs; of all such orders the least by the keys' places in the table, so
/// that those which need nothing of one another stay as they stood. `kind` says what the names are names of, as
/// `interface` or `world`, for the fault alone.
///
/// Answers `NameNotFound` where a key needs a name that is no key, and `Cycle` where each needed name is a key and one
/// leads back to itself. So a missing name comes before a circle. In WIT texts the order of the interfaces of a package by
/// `use`, of its worlds by `include`, and of the types of a scope is this one.
pub fn toposort<'a>(
    alloc: Global,
    kind: &'a str,
    deps: &IndexMap<&'a str, Vec<Need<'a>>>,
) -> Result<Vec<&'a str>, OrderFault<'a>>
    ensures ok { IfOk result (λ names. IsToposort (table deps.now.entries) (texts names.items)) }
    ensures cause { IfErr result (IsOrderCause kind.now (table deps.now.entries)) }
{
    let needs = rows(alloc, kind, deps)?;
    match least_order(alloc, needs.as_slice()) {
        Ok(order) => {
            let names = keys_at(alloc, deps, order.as_slice())?;
            Ok(names)
        }
        Err(PlaceFault::OutOfMemory) => Err(OrderFault::OutOfMemory),
        Err(PlaceFault::Circle(circle)) => {
            let Need { name, span } = need_at(deps, circle.from, circle.need);
            Err(OrderFault::Cycle { kind, name, span })
        }
    }
}
