//! Where all that a package holds stands in a graph.

ghost use Rattle.std.specs.Prelude.{◌≡◌, IfOk, IfErr};
ghost use Rattle.wit_finding.specs.Passed.wit_moves-Plan.{AreTypesPlaced, IsPlaceCause};
ghost use Rattle.wit_finding.specs.Passed.wit_moves-View.{owners};
ghost use Rattle.wit_finding.specs.Types.{AreWithin};
ghost use Rattle.wit_plans.specs.Plans as spec;
ghost use Rattle.wit_plans.specs.View as seen;

use crate::checks::{Standing, check_parts};
use std::alloc::{AllocError, Global};
use wit_finding::{
    Arena, Features, Interface, MoveFault, OwnerPlaces, TypeDef, TypePlaces, World, found_types,
    own_interfaces, own_worlds, type_places,
};

/// How many types, interfaces and worlds there are in a graph.
#[derive(Clone, Copy)]
pub struct Sizes {
    /// Types.
    pub types: usize,
    /// Interfaces.
    pub interfaces: usize,
    /// Worlds.
    pub worlds: usize,
}

/// What a package holds, but for the interfaces and worlds that it asks of others.
#[derive(Drop)]
pub struct Parts<'a> {
    /// The types that it asks of others.
    pub unknown: &'a [TypeDef],
    /// Its types.
    pub types: &'a [TypeDef],
    /// Its interfaces.
    pub interfaces: &'a [Interface],
    /// Its worlds.
    pub worlds: &'a [World],
}

/// Where all of it stands.
#[derive(Drop)]
pub struct Plan {
    /// Interfaces and worlds.
    pub owners: OwnerPlaces,
    /// Types.
    pub types: TypePlaces,
}

/// Where the interfaces and worlds of a package stand behind those that it asks of others.
fn owners_of(
    features: &Features,
    sizes: Sizes,
    foreign: OwnerPlaces,
    parts: &Parts,
) -> Result<OwnerPlaces, AllocError>
    ensures { IfOk result (λ found. owners found ≡ spec.owners_of features.now sizes (owners foreign) (seen.parts parts.now)) }
{
    let OwnerPlaces { interfaces, worlds } = foreign;
    Ok(OwnerPlaces {
        interfaces: own_interfaces(features, interfaces, sizes.interfaces, parts.interfaces)?,
        worlds: own_worlds(features, worlds, sizes.worlds, parts.worlds)?,
    })
}

/// Where its types stand behind those that it asks of others, which have these places.
fn types_of(
    features: &Features,
    owners_: &OwnerPlaces,
    found: TypePlaces,
    base: usize,
    types: &[TypeDef],
) -> Result<TypePlaces, MoveFault>
    ensures ok { IfOk result (AreTypesPlaced features.now (owners owners_.now) found base types.now) }
    ensures cause { IfErr result (IsPlaceCause features.now (owners owners_.now) found base types.now) }
{
    if types.len() >= usize::MAX - base {
        return Err(MoveFault::OutOfMemory);
    }
    type_places(features, owners_, found, base, types)
}

/// Where all that a package holds stands in a graph with those interfaces, which has so many types, interfaces and worlds: what stays
/// one behind the other, behind these; what it asks of others stands there already. Refuses where a type that stays is made of one
/// that doesn't, and else where something else that stays needs what doesn't.
pub fn plan_of(
    alloc: Global,
    features: &Features,
    graph: &Arena<Interface>,
    sizes: Sizes,
    foreign: OwnerPlaces,
    parts: &Parts,
) -> Result<Plan, MoveFault>
    requires { AreWithin graph.now foreign.interfaces }
    ensures ok { IfOk result (λ plan. spec.IsPlanned features.now graph.now sizes (owners foreign) (seen.parts parts.now) (owners plan.owners) plan.types) }
    ensures cause { IfErr result (spec.IsPlanCause features.now graph.now sizes (owners foreign) (seen.parts parts.now)) }
{
    let found = found_types(alloc, graph, &foreign.interfaces, parts.unknown)?;
    let owners_ = owners_of(features, sizes, foreign, parts)?;
    let types = types_of(features, &owners_, found, sizes.types, parts.types)?;
    let standing = Standing {
        types: &types,
        interfaces: &owners_.interfaces,
        worlds: &owners_.worlds,
    };
    check_parts(features, &standing, parts.interfaces, parts.worlds)?;
    Ok(Plan {
        owners: owners_,
        types,
    })
}
