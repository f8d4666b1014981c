//! What is a package's own.

ghost use Rattle.std.specs.Prelude.{◌≡◌, take, drop, IfOk};
ghost use Rattle.wit_graph_parts.specs.Own as spec;

use std::alloc::{AllocError, Global};
use wit_types::{Docs, Interface, PackageName, TypeDef, UnresolvedPackage, World};

/// What a package holds, but for the interfaces and worlds that it asks of others.
#[derive(Drop)]
pub struct OwnParts {
    /// The types that it asks of others.
    pub unknown: Vec<TypeDef>,
    /// Its types.
    pub types: Vec<TypeDef>,
    /// Its interfaces.
    pub interfaces: Vec<Interface>,
    /// Its worlds.
    pub worlds: Vec<World>,
}

/// What is a package's own.
#[derive(Drop)]
pub struct Own {
    /// Its name.
    pub name: PackageName,
    /// Its docs.
    pub docs: Docs,
    /// What it holds.
    pub parts: OwnParts,
}

/// The first so many of a list, and the others.
#[derive(Drop)]
struct Halves<T> {
    first: Vec<T>,
    others: Vec<T>,
}

/// The first so many of a list, and the others.
fn split_at<T: Drop>(alloc: Global, items: Vec<T>, so_many: usize) -> Result<Halves<T>, AllocError>
    ensures { IfOk result (λ p. (p.first.items ≡ take so_many items.items) × (p.others.items ≡ drop so_many items.items)) }
{
    let mut first = Vec::new(alloc);
    let mut others = Vec::new(alloc);
    for item in items {
        if first.len() < so_many {
            first.push(item)?;
        } else {
            others.push(item)?;
        }
    }
    Ok(Halves { first, others })
}

/// What is a package's own, without the first so many interfaces and worlds, which it asks of others.
pub fn own_of(
    alloc: Global,
    package: UnresolvedPackage,
    asked_interfaces: usize,
    asked_worlds: usize,
) -> Result<Own, AllocError>
    ensures name { IfOk result (λ own. own.name ≡ «package».name) }
    ensures docs { IfOk result (λ own. own.docs ≡ «package».docs) }
    ensures parts { IfOk result (λ own. spec.parts own.parts ≡ spec.parts_behind asked_interfaces asked_worlds «package») }
{
    let so_many = package.unknown_type_spans.len();
    let UnresolvedPackage {
        name,
        docs,
        types,
        interfaces,
        worlds,
        ..
    } = package;
    let types = split_at(alloc, types.into_items(), so_many)?;
    let interfaces = split_at(alloc, interfaces.into_items(), asked_interfaces)?;
    let worlds = split_at(alloc, worlds.into_items(), asked_worlds)?;
    Ok(Own {
        name,
        docs,
        parts: OwnParts {
            unknown: types.first,
            types: types.others,
            interfaces: interfaces.others,
            worlds: worlds.others,
        },
    })
}
