//! What stays of a package, where it stands.

ghost use Rattle.std.specs.Prelude.{◌≡◌, ◌∷◌, ◌++◌, true, Some, None, List, [], flat_map, if◌then◌else◌, IfOk, OnOk};
ghost use Rattle.wit_finding.specs.Passed.wit_types-declared-interface-Interface.{Interface};
ghost use Rattle.wit_finding.specs.Passed.wit_features-Features.{stays};
ghost use Rattle.wit_finding.specs.Passed.wit_moves-Interfaces.{IsMovedInterface};
ghost use Rattle.wit_finding.specs.Passed.wit_moves-Moved.{to};
ghost use Rattle.wit_finding.specs.Passed.wit_moves-Worlds.{IsMovedSide};
ghost use Rattle.wit_plans.specs.declared.moves.MovedWorld.{MovedWorld};
ghost use Rattle.wit_plans.specs.Moves as spec;

use crate::checks::Standing;
use indexmap::IndexMap;
use std::alloc::{AllocError, Global};
use wit_finding::{
    Docs, Features, Interface, PackageId, Stability, World, WorldInclude, WorldItem, WorldKey,
    WorldPlaces, move_interface, moved_side,
};
use wit_words::Span;

/// A world where it stands, without what it includes.
#[derive(Drop)]
pub struct MovedWorld {
    /// Its name.
    pub name: String,
    /// What it imports.
    pub imports: Vec<(WorldKey, WorldItem)>,
    /// What it exports.
    pub exports: Vec<(WorldKey, WorldItem)>,
    /// Its docs.
    pub docs: Docs,
    /// How stable it is.
    pub stability: Stability,
    /// The worlds that it includes.
    pub includes: Vec<WorldInclude>,
    /// Where it stands.
    pub span: Span,
}

/// Adds one more.
fn add<T: Drop>(found: &mut Vec<T>, more: T) -> Result<(), AllocError>
    ensures { OnOk result (found.new.items ≡ found.old.items ++ (more ∷ [])) }
{
    found.push(more)?;
    Ok(())
}

/// Adds one more, or lets it go.
fn add_if<T: Drop>(found: &mut Vec<T>, stays: bool, more: T) -> Result<(), AllocError>
    ensures { OnOk result (found.new.items ≡ found.old.items ++ (if stays then more ∷ [] else [])) }
{
    if stays {
        found.push(more)?;
    }
    Ok(())
}

/// Moves an interface to where it stands, if it stays. Answers whether it does.
fn place_interface(
    features: &Features,
    standing: &Standing,
    owner: PackageId,
    interface: &mut Interface,
) -> bool
    ensures stays { result ≡ stays features.now interface.old.stability }
    ensures moved { result ≡ true → IsMovedInterface features.now standing.now.types owner interface.old interface.new }
{
    let stays = features.keeps(&interface.stability);
    if stays {
        move_interface(features, standing.types, owner, interface);
    }
    stays
}

/// Adds an interface where it stands, if it stays.
fn add_interface(
    found: &mut Vec<Interface>,
    features: &Features,
    standing: &Standing,
    owner: PackageId,
    interface: Interface,
) -> Result<(), AllocError>
    ensures { OnOk result ((more : List Interface) × spec.AddsInterface features.now standing.now owner interface more × (found.new.items ≡ found.old.items ++ more)) }
{
    let mut moved = interface;
    let stays = place_interface(features, standing, owner, &mut moved);
    add_if(found, stays, moved)
}

/// The interfaces of a package that stay, where they stand, in their order.
pub fn moved_interfaces(
    alloc: Global,
    features: &Features,
    standing: &Standing,
    owner: PackageId,
    interfaces: Vec<Interface>,
) -> Result<Vec<Interface>, AllocError>
    ensures { IfOk result (λ found. spec.AreMovedInterfaces features.now standing.now owner interfaces.items found.items) }
{
    let mut found = Vec::new(alloc);
    for interface in interfaces {
        add_interface(&mut found, features, standing, owner, interface)?;
    }
    Ok(found)
}

/// An `include` of the world where that stands.
fn moved_include(worlds: &WorldPlaces, include: WorldInclude) -> WorldInclude
    ensures { result ≡ record include { id = to worlds.now include.id } }
{
    let mut moved = include;
    moved.id = worlds.to(moved.id);
    moved
}

/// Adds an `include` of the world where that stands, if it stays.
fn add_include(
    found: &mut Vec<WorldInclude>,
    features: &Features,
    worlds: &WorldPlaces,
    include: WorldInclude,
) -> Result<(), AllocError>
    ensures { OnOk result (found.new.items ≡ found.old.items ++ spec.moved_include features.now worlds.now include) }
{
    let stays = features.keeps(&include.stability);
    add_if(found, stays, moved_include(worlds, include))
}

/// What a world includes, as far as that stays, in its order.
fn moved_includes(
    alloc: Global,
    features: &Features,
    worlds: &WorldPlaces,
    includes: Vec<WorldInclude>,
) -> Result<Vec<WorldInclude>, AllocError>
    ensures { IfOk result (λ found. found.items ≡ flat_map (spec.moved_include features.now worlds.now) includes.items) }
{
    let mut found = Vec::new(alloc);
    for include in includes {
        add_include(&mut found, features, worlds, include)?;
    }
    Ok(found)
}

/// Puts what a world imports and exports where that stands.
fn put_sides(
    alloc: Global,
    features: &Features,
    standing: &Standing,
    moved: &mut MovedWorld,
    imports: IndexMap<WorldKey, WorldItem>,
    exports: IndexMap<WorldKey, WorldItem>,
) -> Result<(), AllocError>
    ensures { OnOk result (IsMovedSide features.now standing.now.types standing.now.interfaces imports.entries moved.new.imports.items × IsMovedSide features.now standing.now.types standing.now.interfaces exports.entries moved.new.exports.items × (moved.new ≡ record moved.old { imports = moved.new.imports; exports = moved.new.exports })) }
{
    moved.imports = moved_side(
        alloc,
        features,
        standing.types,
        standing.interfaces,
        imports,
    )?;
    moved.exports = moved_side(
        alloc,
        features,
        standing.types,
        standing.interfaces,
        exports,
    )?;
    Ok(())
}

/// Puts what a world imports, exports and includes where that stands.
fn put_lists(
    alloc: Global,
    features: &Features,
    standing: &Standing,
    moved: &mut MovedWorld,
    imports: IndexMap<WorldKey, WorldItem>,
    exports: IndexMap<WorldKey, WorldItem>,
    includes: Vec<WorldInclude>,
) -> Result<(), AllocError>
    ensures { OnOk result (IsMovedSide features.now standing.now.types standing.now.interfaces imports.entries moved.new.imports.items × IsMovedSide features.now standing.now.types standing.now.interfaces exports.entries moved.new.exports.items × (moved.new.includes.items ≡ flat_map (spec.moved_include features.now standing.now.worlds) includes.items) × (moved.new ≡ record moved.old { imports = moved.new.imports; exports = moved.new.exports; includes = moved.new.includes })) }
{
    put_sides(alloc, features, standing, moved, imports, exports)?;
    moved.includes = moved_includes(alloc, features, standing.worlds, includes)?;
    Ok(())
}

/// A world without what it imports, exports and includes, and these.
fn parted(
    alloc: Global,
    world: World,
) -> (
    MovedWorld,
    IndexMap<WorldKey, WorldItem>,
    IndexMap<WorldKey, WorldItem>,
    Vec<WorldInclude>,
)
    ensures { (result.0.name ≡ world.name) × (result.0.docs ≡ world.docs) × (result.0.stability ≡ world.stability) × (result.0.span ≡ world.span) × (result.1 ≡ world.imports) × (result.2 ≡ world.exports) × (result.3 ≡ world.includes) }
{
    let World {
        name,
        imports,
        exports,
        package: _,
        docs,
        stability,
        includes,
        span,
    } = world;
    let moved = MovedWorld {
        name,
        imports: Vec::new(alloc),
        exports: Vec::new(alloc),
        docs,
        stability,
        includes: Vec::new(alloc),
        span,
    };
    (moved, imports, exports, includes)
}

/// A world where it stands.
fn moved_world(
    alloc: Global,
    features: &Features,
    standing: &Standing,
    world: World,
) -> Result<MovedWorld, AllocError>
    ensures { IfOk result (spec.IsMovedWorld features.now standing.now world) }
{
    let (moved, imports, exports, includes) = parted(alloc, world);
    let mut moved = moved;
    put_lists(
        alloc, features, standing, &mut moved, imports, exports, includes,
    )
    .and(Ok(moved))
}

/// Adds a world where it stands.
fn add_moved(
    alloc: Global,
    found: &mut Vec<MovedWorld>,
    features: &Features,
    standing: &Standing,
    world: World,
) -> Result<(), AllocError>
    ensures { OnOk result ((moved : MovedWorld) × spec.IsMovedWorld features.now standing.now world moved × (found.new.items ≡ found.old.items ++ (moved ∷ []))) }
{
    let moved = moved_world(alloc, features, standing, world)?;
    add(found, moved)
}

/// What stays, or else nothing.
fn kept<T: Drop>(stays: bool, item: T) -> Option<T>
    ensures { result ≡ (if stays then Some item else None) }
{
    if stays { Some(item) } else { None }
}

/// Adds a world where it stands, if it stays.
fn add_world(
    alloc: Global,
    found: &mut Vec<MovedWorld>,
    features: &Features,
    standing: &Standing,
    world: World,
) -> Result<(), AllocError>
    ensures { OnOk result ((more : List MovedWorld) × spec.AddsWorld features.now standing.now world more × (found.new.items ≡ found.old.items ++ more)) }
{
    let stays = features.keeps(&world.stability);
    match kept(stays, world) {
        Some(world) => add_moved(alloc, found, features, standing, world),
        None => Ok(()),
    }
}

/// The worlds of a package that stay, where they stand, in their order, without what they include.
pub fn moved_worlds(
    alloc: Global,
    features: &Features,
    standing: &Standing,
    worlds: Vec<World>,
) -> Result<Vec<MovedWorld>, AllocError>
    ensures { IfOk result (λ found. spec.AreMovedWorlds features.now standing.now worlds.items found.items) }
{
    let mut found = Vec::new(alloc);
    for world in worlds {
        add_world(alloc, &mut found, features, standing, world)?;
    }
    Ok(found)
}
