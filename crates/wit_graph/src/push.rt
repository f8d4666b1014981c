//! Packages that come to a graph.

ghost use Rattle.std.specs.Prelude.{◌≡◌, ◌⊎◌, ◌++◌, ◌∷◌, [], List, ℕ, ◌≤◌, Ok, Err, length, IfOk, IfErr, OnErr, OnOk};
ghost use Rattle.wit_closures.specs.Closures.{AreReached};
ghost use Rattle.wit_order.specs.Places.{Needs};
ghost use Rattle.wit_reach.specs.Paths.{AreBackward};
ghost use Rattle.wit_types.specs.declared.«package».Package.{Package};
ghost use Rattle.wit_graph.specs.declared.push.Names.{Names};
ghost use Rattle.wit_types.specs.declared.interface.TypeDef.{TypeDef};
ghost use Rattle.wit_types.specs.declared.world.World.{World};
ghost use Rattle.wit_moves.specs.Plan.{OwnerPlaces};
ghost use Rattle.wit_moves.specs.View.{owners};
ghost use Rattle.wit_graph_parts.specs.Passed.wit_resources-declared-natures-Nature.{Nature};
ghost use Rattle.wit_graph_parts.specs.Own.{parts};
ghost use Rattle.wit_graph_parts.specs.Interfaces.{HasGrown};
ghost use Rattle.wit_graph.specs.Graph.{AreItemsWhole, AreWhole, items, items_of};
ghost use Rattle.wit_graph_parts.specs.declared.fault.PushFault.TheVariants.{OutOfMemory};
ghost use Rattle.wit_graph.specs.Push as spec;

use crate::tables::{Tables, cut, sizes};
use indexmap::IndexMap;
use std::alloc::Global;
use wit_closures::{Closures, law_reached_stay};
use wit_elaborated::{law_elaborated_worlds_are_there, law_elaborated_worlds_stay};
use wit_graph_parts::{
    Interfaces, Move, Natures, Own, OwnParts, PushFault, Worlds, add_interfaces, add_own_worlds,
    add_types, law_found_types_are_there, law_interfaces_take_places,
    law_moved_interfaces_are_there, law_moved_interfaces_have_names_apart,
    law_moved_interfaces_hold_their_types, law_moved_nameless_are_free,
    law_moved_types_are_backward, law_moved_types_are_listed, law_moved_types_belong,
};
use wit_types::{Arena, Docs, InterfaceId, Package, PackageName, TypeDef, WorldId};

/// What a package names.
#[derive(Drop)]
struct Names {
    interfaces: IndexMap<String, InterfaceId>,
    worlds: IndexMap<String, WorldId>,
}

/// Adds what a package holds that stays behind what is there. Answers what it names. Where that is refused some of it may be there.
fn add_parts(
    alloc: Global,
    types: &mut Arena<TypeDef>,
    natures: &mut Natures,
    interfaces: &mut Interfaces,
    worlds: &mut Worlds,
    by: &Move,
    own: OwnParts,
) -> Result<Names, PushFault>
    requires ready { (foreign : OwnerPlaces) × spec.IsReady by.now.features.now (items types.old natures.old interfaces.old worlds.old) foreign (parts own) (owners by.now.plan.now.owners) by.now.plan.now.types }
    ensures ok { IfOk result (λ names. spec.ArePartsAdded by.now.features.now by.now.owner (owners by.now.plan.now.owners) by.now.plan.now.types (parts own) (items types.old natures.old interfaces.old worlds.old) (items types.new natures.new interfaces.new worlds.new) names.interfaces.entries names.worlds.entries) }
    ensures whole { OnOk result (AreItemsWhole (items types.new natures.new interfaces.new worlds.new)) }
    ensures cause { IfErr result (spec.IsPartsCause by.now.features.now by.now.owner (owners by.now.plan.now.owners) by.now.plan.now.types (parts own) (items types.old natures.old interfaces.old worlds.old)) }
    ensures types_grown { (more : List TypeDef) × (types.new ≡ types.old ++ more) }
    ensures natures_grown { (more : List Nature) × (natures.new ≡ natures.old ++ more) }
    ensures interfaces_grown { HasGrown interfaces.old interfaces.new }
    ensures listed_grown { (more : List World) × (worlds.new.listed ≡ worlds.old.listed ++ more) }
    ensures elaborated_grown { (more : List World) × (worlds.new.elaborated ≡ worlds.old.elaborated ++ more) }
{
    law_found_types_are_there();
    law_moved_types_are_backward();
    law_interfaces_take_places();
    law_moved_types_belong();
    law_moved_interfaces_hold_their_types();
    law_moved_types_are_listed();
    law_moved_interfaces_are_there();
    law_moved_interfaces_have_names_apart();
    law_moved_nameless_are_free();
    law_elaborated_worlds_stay();
    let first = own.unknown.len();
    add_types(alloc, types, natures, by.plan, first, own.types)?;
    let interface_names = add_interfaces(alloc, types, natures, interfaces, by, own.interfaces)?;
    let world_names = add_own_worlds(alloc, types, natures, worlds, interfaces, by, own.worlds)?;
    natures.follow(types)?;
    Ok(Names {
        interfaces: interface_names,
        worlds: world_names,
    })
}

/// A package of that name with what it names.
fn package_of(name: PackageName, docs: Docs, names: Names) -> Package
    ensures { spec.IsPackage name docs names.interfaces.entries names.worlds.entries result }
{
    Package {
        name,
        docs,
        interfaces: names.interfaces,
        worlds: names.worlds,
    }
}

/// A push into tables, and what they are then.
#[derive(Drop)]
pub struct Outcome {
    /// What there is.
    pub tables: Tables,
    /// Whether the package is there.
    pub done: Result<(), PushFault>,
}

/// Puts a package behind the others.
fn put_package(packages: &mut Arena<Package>, package: Package) -> Result<(), PushFault>
    ensures ok { OnOk result (packages.new ≡ packages.old ++ «package» ∷ []) }
    ensures cause { IfErr result (λ fault. fault ≡ OutOfMemory) }
    ensures err { OnErr result (packages.new ≡ packages.old) }
{
    packages.alloc(package)?;
    Ok(())
}

/// Puts a package behind the others that names these, where they are there.
fn put_named(
    packages: &mut Arena<Package>,
    name: PackageName,
    docs: Docs,
    names: Result<Names, PushFault>,
) -> Result<(), PushFault>
    ensures ok { OnOk result ((n : Names) × (names ≡ Ok n) × ((q : Package) × spec.IsPackage name docs n.interfaces.entries n.worlds.entries q × (packages.new ≡ packages.old ++ q ∷ []))) }
    ensures cause { IfErr result (λ fault. (names ≡ Err fault) ⊎ (fault ≡ OutOfMemory)) }
    ensures err { OnErr result (packages.new ≡ packages.old) }
{
    let names = names?;
    put_package(packages, package_of(name, docs, names))
}

/// Keeps what the interfaces of a package depend on too, where they are there.
fn reach(
    alloc: Global,
    closures: &mut Closures,
    uses: &[Vec<InterfaceId>],
    names: Result<Names, PushFault>,
) -> Result<Names, PushFault>
    requires fewer { OnOk names (length closures.old ≤ length uses.now) }
    requires backward { OnOk names (AreBackward (Needs uses.now)) }
    requires reached { OnOk names (AreReached uses.now closures.old) }
    ensures ok { IfOk result (λ n. names ≡ Ok n) }
    ensures all { OnOk result (length closures.new ≡ length uses.now) }
    ensures reached { OnOk result (AreReached uses.now closures.new) }
    ensures cause { IfErr result (λ fault. (names ≡ Err fault) ⊎ (fault ≡ OutOfMemory)) }
    ensures grown { (more : List (List ℕ)) × (closures.new ≡ closures.old ++ more) }
{
    let names = names?;
    closures.extend(alloc, uses)?;
    Ok(names)
}

/// Tables with a package behind what they hold, where it isn't refused; else some of it may be there.
fn added(alloc: Global, tables: Tables, by: &Move, own: Own) -> Outcome
    requires ready { (foreign : OwnerPlaces) × spec.IsReady by.now.features.now (items_of tables) foreign (parts own.parts) (owners by.now.plan.now.owners) by.now.plan.now.types }
    requires owner { by.now.owner ≡ length tables.packages }
    requires whole { AreWhole tables }
    ensures ok { OnOk result.done (spec.IsAdded by.now.features.now own.name own.docs (owners by.now.plan.now.owners) by.now.plan.now.types (parts own.parts) tables result.tables) }
    ensures whole { OnOk result.done (AreWhole result.tables) }
    ensures more { OnOk result.done (spec.HasMore tables result.tables) }
    ensures cause { IfErr result.done (spec.IsPartsCause by.now.features.now by.now.owner (owners by.now.plan.now.owners) by.now.plan.now.types (parts own.parts) (items_of tables)) }
    ensures err { OnErr result.done (spec.HaveGrown tables result.tables) }
{
    law_reached_stay();
    law_elaborated_worlds_are_there();
    let Tables {
        mut types,
        mut natures,
        mut interfaces,
        mut closures,
        mut worlds,
        mut packages,
    } = tables;
    let Own { name, docs, parts } = own;
    let names = add_parts(
        alloc,
        &mut types,
        &mut natures,
        &mut interfaces,
        &mut worlds,
        by,
        parts,
    );
    let names = reach(alloc, &mut closures, interfaces.uses(), names);
    let done = put_named(&mut packages, name, docs, names);
    let tables = Tables {
        types,
        natures,
        interfaces,
        closures,
        worlds,
        packages,
    };
    Outcome { tables, done }
}

/// Tables with a package behind what they hold, or as they were, where it is refused.
pub fn pushed(alloc: Global, tables: Tables, by: &Move, own: Own) -> Outcome
    requires ready { (foreign : OwnerPlaces) × spec.IsReady by.now.features.now (items_of tables) foreign (parts own.parts) (owners by.now.plan.now.owners) by.now.plan.now.types }
    requires owner { by.now.owner ≡ length tables.packages }
    requires whole { AreWhole tables }
    ensures ok { OnOk result.done (spec.IsAdded by.now.features.now own.name own.docs (owners by.now.plan.now.owners) by.now.plan.now.types (parts own.parts) tables result.tables) }
    ensures whole { OnOk result.done (AreWhole result.tables) }
    ensures more { OnOk result.done (spec.HasMore tables result.tables) }
    ensures cause { IfErr result.done (spec.IsPartsCause by.now.features.now by.now.owner (owners by.now.plan.now.owners) by.now.plan.now.types (parts own.parts) (items_of tables)) }
    ensures err { OnErr result.done (result.tables ≡ tables) }
{
    let before = sizes(&tables);
    let Outcome { tables, done } = added(alloc, tables, by, own);
    match done {
        Ok(()) => Outcome {
            tables,
            done: Ok(()),
        },
        Err(fault) => {
            let mut tables = tables;
            cut(&mut tables, before);
            Outcome {
                tables,
                done: Err(fault),
            }
        }
    }
}
