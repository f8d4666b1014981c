//! The gates of all that a package holds.

ghost use Rattle.std.specs.Prelude.{◌≡◌, true, false, OnOk, IfErr};
ghost use Rattle.wit_types.specs.Passed.wit_words-declared-source_map-Span.{Span};
ghost use Rattle.wit_features.specs.Features.{breaks_gate as is_late};
ghost use Rattle.wit_features.specs.Gates as spec;

use crate::features::breaks_gate;
use indexmap::IndexMap;
use wit_types::{
    Arena, Function, Interface, PackageName, Span, Stability, TypeDef, UnresolvedPackage, World,
    WorldInclude, WorldItem, WorldKey,
};

/// Refuses gates of a version that the package hasn't reached, at the place of their item.
fn check_gate(of: &PackageName, stability: &Stability, at: Span) -> Result<(), Span>
    ensures ok { OnOk result (is_late of.now.version stability.now ≡ false) }
    ensures cause { IfErr result (λ place. (place ≡ at) × (is_late of.now.version stability.now ≡ true)) }
{
    if breaks_gate(of, stability) {
        return Err(at);
    }
    Ok(())
}

/// The same of all types.
fn check_types(of: &PackageName, types: &Arena<TypeDef>) -> Result<(), Span>
    ensures ok { OnOk result (spec.AreOnTime of.now.version (spec.IsOf spec.of_type types.now)) }
    ensures cause { IfErr result (spec.IsLate of.now.version (spec.IsOf spec.of_type types.now)) }
{
    for def in types.iter() {
        check_gate(of, &def.stability, def.span)?;
    }
    Ok(())
}

/// The same of functions.
fn check_functions(of: &PackageName, functions: &IndexMap<String, Function>) -> Result<(), Span>
    ensures ok { OnOk result (spec.AreOnTime of.now.version (spec.are_of_functions functions.now.entries)) }
    ensures cause { IfErr result (spec.IsLate of.now.version (spec.are_of_functions functions.now.entries)) }
{
    for function in functions.values() {
        check_gate(of, &function.stability, function.span)?;
    }
    Ok(())
}

/// The same of interfaces and their functions.
fn check_interfaces(of: &PackageName, interfaces: &Arena<Interface>) -> Result<(), Span>
    ensures ok { OnOk result (spec.AreOnTime of.now.version (spec.IsOf spec.of_interface interfaces.now)) }
    ensures cause { IfErr result (spec.IsLate of.now.version (spec.IsOf spec.of_interface interfaces.now)) }
{
    for interface in interfaces.iter() {
        check_gate(of, &interface.stability, interface.span)?;
        check_functions(of, &interface.functions)?;
    }
    Ok(())
}

/// The same of what a world imports or exports.
fn check_item(of: &PackageName, item: &WorldItem) -> Result<(), Span>
    ensures ok { OnOk result (spec.AreOnTime of.now.version (spec.of_item item.now)) }
    ensures cause { IfErr result (spec.IsLate of.now.version (spec.of_item item.now)) }
{
    match item {
        WorldItem::Interface {
            stability,
            span,
            ..
        } => check_gate(of, stability, *span),
        WorldItem::Function(function) => check_gate(of, &function.stability, function.span),
        WorldItem::TypeItem { .. } => Ok(()),
    }
}

/// The same of one side of a world.
fn check_side(of: &PackageName, side: &IndexMap<WorldKey, WorldItem>) -> Result<(), Span>
    ensures ok { OnOk result (spec.AreOnTime of.now.version (spec.are_of_side side.now.entries)) }
    ensures cause { IfErr result (spec.IsLate of.now.version (spec.are_of_side side.now.entries)) }
{
    for item in side.values() {
        check_item(of, item)?;
    }
    Ok(())
}

/// The same of worlds that are included.
fn check_includes(of: &PackageName, includes: &[WorldInclude]) -> Result<(), Span>
    ensures ok { OnOk result (spec.AreOnTime of.now.version (spec.IsOf spec.of_include includes.now)) }
    ensures cause { IfErr result (spec.IsLate of.now.version (spec.IsOf spec.of_include includes.now)) }
{
    for include in includes.iter() {
        check_gate(of, &include.stability, include.span)?;
    }
    Ok(())
}

/// The same of a world and what stands in it.
fn check_world(of: &PackageName, world: &World) -> Result<(), Span>
    ensures ok { OnOk result (spec.AreOnTime of.now.version (spec.of_world world.now)) }
    ensures cause { IfErr result (spec.IsLate of.now.version (spec.of_world world.now)) }
{
    check_gate(of, &world.stability, world.span)?;
    check_side(of, &world.imports)?;
    check_side(of, &world.exports)?;
    check_includes(of, world.includes.as_slice())
}

/// The same of worlds.
fn check_worlds(of: &PackageName, worlds: &Arena<World>) -> Result<(), Span>
    ensures ok { OnOk result (spec.AreOnTime of.now.version (spec.IsOf spec.of_world worlds.now)) }
    ensures cause { IfErr result (spec.IsLate of.now.version (spec.IsOf spec.of_world worlds.now)) }
{
    for world in worlds.iter() {
        check_world(of, world)?;
    }
    Ok(())
}

/// Refuses a package in which an item is stable from a version on that is above the package's by the precedence of SemVer, or
/// from any where the package has no version; what its gates leave out counts too. The refusal is the item's place (WIT, Feature
/// Gates).
pub fn check_gates(package: &UnresolvedPackage) -> Result<(), Span>
    ensures ok { OnOk result (spec.AreOnTime «package».now.name.version (spec.of_package «package».now)) }
    ensures cause { IfErr result (spec.IsLate «package».now.name.version (spec.of_package «package».now)) }
{
    check_types(&package.name, &package.types)?;
    check_interfaces(&package.name, &package.interfaces)?;
    check_worlds(&package.name, &package.worlds)
}
