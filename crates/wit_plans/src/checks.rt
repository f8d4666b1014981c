//! Whether what stays needs what doesn't.

ghost use Rattle.std.specs.Prelude.{◌≡◌, OnOk, IfErr};
ghost use Rattle.wit_finding.specs.Passed.wit_moves-Breaks.{AnyOf, IsKept};
ghost use Rattle.wit_plans.specs.Checks as spec;

use std::marker::Model;
use wit_finding::{
    Features, Interface, InterfacePlaces, MoveFault, TypePlaces, World, WorldInclude, WorldPlaces,
    check_functions, check_side,
};

/// Where types, interfaces and worlds stand.
#[derive(Drop)]
pub struct Standing<'a> {
    /// Types.
    pub types: &'a TypePlaces,
    /// Interfaces.
    pub interfaces: &'a InterfacePlaces,
    /// Worlds.
    pub worlds: &'a WorldPlaces,
}

impl<'a> Model for Standing<'a> {
    ghost use Rattle.wit_plans.specs.Checks.{Standing};

    ghost Value = { Standing };

    ghost view = { λ s. record { types = s.types.now; interfaces = s.interfaces.now; worlds = s.worlds.now } };
}

/// Refuses an interface that stays with a function that needs what doesn't, at that function.
fn check_interface(
    features: &Features,
    standing: &Standing,
    interface: &Interface,
) -> Result<(), MoveFault>
    ensures ok { OnOk result (IsKept (spec.InterfaceBreaks features.now standing.now interface.now)) }
    ensures cause { IfErr result (spec.IsCauseOf (spec.InterfaceBreaks features.now standing.now interface.now)) }
{
    if !features.keeps(&interface.stability) {
        return Ok(());
    }
    check_functions(features, standing.types, &interface.functions)
}

/// The same of interfaces.
fn check_interfaces(
    features: &Features,
    standing: &Standing,
    interfaces: &[Interface],
) -> Result<(), MoveFault>
    ensures ok { OnOk result (IsKept (AnyOf (spec.InterfaceBreaks features.now standing.now) interfaces.now)) }
    ensures cause { IfErr result (spec.IsCauseOf (AnyOf (spec.InterfaceBreaks features.now standing.now) interfaces.now)) }
{
    for interface in interfaces {
        check_interface(features, standing, interface)?;
    }
    Ok(())
}

/// Refuses an `include` that stays of a world that doesn't or isn't there, where it stands.
fn check_include(
    features: &Features,
    standing: &Standing,
    include: &WorldInclude,
) -> Result<(), MoveFault>
    ensures ok { OnOk result (IsKept (spec.IncludeBreaks features.now standing.now include.now)) }
    ensures cause { IfErr result (spec.IsCauseOf (spec.IncludeBreaks features.now standing.now include.now)) }
{
    if features.keeps(&include.stability) && !standing.worlds.has_id(include.id) {
        return Err(MoveFault::ItemNotFound(include.span));
    }
    Ok(())
}

/// The same of what a world includes.
fn check_includes(
    features: &Features,
    standing: &Standing,
    includes: &[WorldInclude],
) -> Result<(), MoveFault>
    ensures ok { OnOk result (IsKept (AnyOf (spec.IncludeBreaks features.now standing.now) includes.now)) }
    ensures cause { IfErr result (spec.IsCauseOf (AnyOf (spec.IncludeBreaks features.now standing.now) includes.now)) }
{
    for include in includes {
        check_include(features, standing, include)?;
    }
    Ok(())
}

/// Refuses a world with an item that stays and needs what doesn't, on either side, at that item.
fn check_sides(features: &Features, standing: &Standing, world: &World) -> Result<(), MoveFault>
    ensures ok { OnOk result (IsKept (spec.SidesBreak features.now standing.now world.now)) }
    ensures cause { IfErr result (spec.IsCauseOf (spec.SidesBreak features.now standing.now world.now)) }
{
    check_side(
        features,
        standing.types,
        standing.interfaces,
        &world.imports,
    )?;
    check_side(
        features,
        standing.types,
        standing.interfaces,
        &world.exports,
    )
}

/// The same of a world that stays, and of what it includes.
fn check_world(features: &Features, standing: &Standing, world: &World) -> Result<(), MoveFault>
    ensures ok { OnOk result (IsKept (spec.WorldBreaks features.now standing.now world.now)) }
    ensures cause { IfErr result (spec.IsCauseOf (spec.WorldBreaks features.now standing.now world.now)) }
{
    if !features.keeps(&world.stability) {
        return Ok(());
    }
    check_sides(features, standing, world)?;
    check_includes(features, standing, world.includes.as_slice())
}

/// The same of worlds.
fn check_worlds(features: &Features, standing: &Standing, worlds: &[World]) -> Result<(), MoveFault>
    ensures ok { OnOk result (IsKept (AnyOf (spec.WorldBreaks features.now standing.now) worlds.now)) }
    ensures cause { IfErr result (spec.IsCauseOf (AnyOf (spec.WorldBreaks features.now standing.now) worlds.now)) }
{
    for world in worlds {
        check_world(features, standing, world)?;
    }
    Ok(())
}

/// Refuses interfaces and worlds of which one stays and needs what doesn't.
pub fn check_parts(
    features: &Features,
    standing: &Standing,
    interfaces: &[Interface],
    worlds: &[World],
) -> Result<(), MoveFault>
    ensures ok { OnOk result (IsKept (spec.PartsBreak features.now standing.now interfaces.now worlds.now)) }
    ensures cause { IfErr result (spec.IsCauseOf (spec.PartsBreak features.now standing.now interfaces.now worlds.now)) }
{
    check_interfaces(features, standing, interfaces)?;
    check_worlds(features, standing, worlds)
}
