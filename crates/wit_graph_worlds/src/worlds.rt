//! Worlds that come to a graph.

ghost use Rattle.std.specs.Prelude.{◌≡◌, ◌++◌, ◌∷◌, [], List, length, take, IfErr, OnOk};
ghost use Rattle.wit_types.specs.Passed.wit_order-Order.{Has};
ghost use Rattle.wit_types.specs.declared.interface.TypeDef.{TypeDef};
ghost use Rattle.wit_types.specs.declared.world.World.{World};
ghost use Rattle.wit_uses.specs.Passed.wit_plans-declared-moves-MovedWorld.{MovedWorld};
ghost use Rattle.wit_uses.specs.Passed.wit_placed-There.{IsOwnThere};
ghost use Rattle.wit_reach.specs.Paths.{AreBackward};
ghost use Rattle.wit_reach.specs.Reach.{Uses};
ghost use Rattle.wit_reach.specs.Lists.{AreOwnersThere};
ghost use Rattle.wit_reach.specs.Types.{AreTypesBackward};
ghost use Rattle.wit_graph_worlds.specs.Sound.{AreElaborated, AreSound, IsWorldThere};
ghost use Rattle.wit_graph_worlds.specs.Worlds.{state};
ghost use Rattle.wit_graph_worlds.specs.Added as spec;

use crate::copies::copied_world;
use std::alloc::{AllocError, Global};
use std::marker::Model;
use wit_elaborated::{elaborated_world, law_elaborated_worlds_stay};
use wit_reach::ElaborateFault;
use wit_types::{Arena, Interface, InterfaceId, PackageId, TypeDef, World, WorldId};
use wit_uses::{JoinFault, MovedWorld, joined_world};
use wit_words::Span;

/// The interfaces of a graph, and of which of them each uses types.
#[derive(Clone, Copy)]
pub struct Interfaces<'a> {
    /// The interfaces.
    pub interfaces: &'a Arena<Interface>,
    /// For each, those of which it uses types, all with lower ids.
    pub uses: &'a [Vec<InterfaceId>],
}

/// Why a world can't be added.
#[derive(Debug, Drop)]
pub enum WorldFault {
    /// A world that is included isn't there, or a name that is changed isn't a plain name of it.
    ItemNotFound(Span),
    /// A plain name has the name key of one before it.
    IncludeClash(Span),
    /// This interface is exported, and needed by one that an export of the world, which stands there, needs from outside.
    ExportConflict(InterfaceId, Span),
    /// Memory is wanting.
    OutOfMemory,
}

impl From<JoinFault> for WorldFault {
    ghost use Rattle.wit_graph_worlds.specs.Added.{fault_of};

    ghost from_gives = { λ cause e. e ≡ fault_of cause };

    fn from(cause: JoinFault) -> WorldFault {
        match cause {
            JoinFault::ItemNotFound(span) => WorldFault::ItemNotFound(span),
            JoinFault::IncludeClash(span) => WorldFault::IncludeClash(span),
            JoinFault::OutOfMemory => WorldFault::OutOfMemory,
        }
    }
}

impl From<AllocError> for WorldFault {
    ghost use Rattle.wit_graph_worlds.specs.declared.worlds.WorldFault.TheVariants.{OutOfMemory};

    ghost from_gives = { λ _ e. e ≡ OutOfMemory };

    fn from(_cause: AllocError) -> WorldFault {
        WorldFault::OutOfMemory
    }
}

/// The worlds of a graph, by their ids: what each lists, with all that it includes, and each with all that it imports in the end.
#[derive(Drop)]
pub struct Worlds {
    listed: Arena<World>,
    elaborated: Arena<World>,
}

impl Model for Worlds {
    ghost use Rattle.std.specs.Coded.{codes};
    ghost use Rattle.wit_graph_worlds.specs.Worlds.{Worlds};
    ghost use Rattle.wit_types.specs.contracts.world.World as one;

    ghost Value = { Worlds };

    ghost coded = { Prim.hlevel (codes, one.the_row.coded) };

    ghost view = { λ w. record { listed = w.listed; elaborated = w.elaborated } };
}

impl Worlds {
    /// No worlds.
    pub fn new(alloc: Global) -> Worlds
        ensures { result ≡ record { listed = []; elaborated = [] } }
    {
        Worlds {
            listed: Arena::new(alloc),
            elaborated: Arena::new(alloc),
        }
    }

    /// What each world lists.
    pub fn listed(&self) -> &Arena<World>
        ensures { result.now ≡ self.now.listed }
    {
        &self.listed
    }

    /// Each world with all that it imports in the end.
    pub fn elaborated(&self) -> &Arena<World>
        ensures { result.now ≡ self.now.elaborated }
    {
        &self.elaborated
    }

    /// Takes back the last worlds, so that this many are left at most.
    pub fn truncate(&mut self, len: usize)
        ensures { self.new ≡ record { listed = take len self.old.listed; elaborated = take len self.old.elaborated } }
    {
        self.listed.truncate(len);
        self.elaborated.truncate(len);
    }

    /// Puts a world behind the others. Where memory is wanting, it may be there in one way alone.
    fn push(&mut self, listed: World, elaborated: World) -> Result<(), AllocError>
        ensures ok { OnOk result (self.new ≡ record { listed = self.old.listed ++ listed ∷ []; elaborated = self.old.elaborated ++ elaborated ∷ [] }) }
        ensures listed_grown { (more : List World) × (self.new.listed ≡ self.old.listed ++ more) }
        ensures elaborated_grown { (more : List World) × (self.new.elaborated ≡ self.old.elaborated ++ more) }
    {
        self.listed.alloc(listed)?;
        self.elaborated.alloc(elaborated)?;
        Ok(())
    }
}

/// The fault of a world that stands there.
fn fault_at(fault: ElaborateFault, span: Span) -> WorldFault
    ensures { result ≡ spec.fault_at fault span }
{
    match fault {
        ElaborateFault::ExportConflict(id) => WorldFault::ExportConflict(id, span),
        ElaborateFault::OutOfMemory => WorldFault::OutOfMemory,
    }
}

/// Puts a world behind the others as it is, and as it is with all that it imports in the end. Where it is refused, it may be there in one
/// way alone.
fn add_joined(
    alloc: Global,
    types: &Arena<TypeDef>,
    worlds: &mut Worlds,
    interfaces: &Interfaces,
    joined: World,
) -> Result<(), WorldFault>
    requires rows { length interfaces.now.uses.now ≡ length interfaces.now.interfaces.now }
    requires uses { AreBackward (Uses interfaces.now.uses.now) }
    requires backward { AreTypesBackward types.now }
    requires owners { AreOwnersThere (length interfaces.now.uses.now) types.now }
    requires world { IsWorldThere (length interfaces.now.uses.now) types.now joined }
    ensures ok { OnOk result (spec.IsPut interfaces.now.interfaces.now interfaces.now.uses.now types.now joined worlds.old worlds.new) }
    ensures cause { IfErr result (spec.IsPutCause interfaces.now.uses.now types.now joined) }
    ensures listed_grown { (more : List World) × (worlds.new.listed ≡ worlds.old.listed ++ more) }
    ensures elaborated_grown { (more : List World) × (worlds.new.elaborated ≡ worlds.old.elaborated ++ more) }
{
    let listed = copied_world(alloc, &joined)?;
    let span = joined.span;
    match elaborated_world(alloc, types, interfaces.interfaces, interfaces.uses, joined) {
        Ok(elaborated) => Ok(worlds.push(listed, elaborated)?),
        Err(fault) => Err(fault_at(fault, span)),
    }
}

/// Adds a world with all that it includes, and with all that it imports in the end. Where it is refused, some types and worlds more may
/// be there.
fn add_world(
    alloc: Global,
    types: &mut Arena<TypeDef>,
    worlds: &mut Worlds,
    interfaces: &Interfaces,
    owner: PackageId,
    moved: MovedWorld,
) -> Result<(), WorldFault>
    requires rows { length interfaces.now.uses.now ≡ length interfaces.now.interfaces.now }
    requires uses { AreBackward (Uses interfaces.now.uses.now) }
    requires sound { AreSound (length interfaces.now.uses.now) types.old worlds.old }
    requires elaborated { AreElaborated types.old interfaces.now.interfaces.now interfaces.now.uses.now worlds.old }
    requires there { IsOwnThere types.old (length interfaces.now.uses.now) moved }
    ensures ok { OnOk result (spec.IsAdded interfaces.now.interfaces.now interfaces.now.uses.now owner moved (state types.old worlds.old) (state types.new worlds.new)) }
    ensures sound { OnOk result (AreSound (length interfaces.now.uses.now) types.new worlds.new) }
    ensures elaborated { OnOk result (AreElaborated types.new interfaces.now.interfaces.now interfaces.now.uses.now worlds.new) }
    ensures cause { IfErr result (spec.IsAddCause interfaces.now.interfaces.now interfaces.now.uses.now owner moved (state types.old worlds.old)) }
    ensures types_grown { (more : List TypeDef) × (types.new ≡ types.old ++ more) }
    ensures listed_grown { (more : List World) × (worlds.new.listed ≡ worlds.old.listed ++ more) }
    ensures elaborated_grown { (more : List World) × (worlds.new.elaborated ≡ worlds.old.elaborated ++ more) }
{
    law_elaborated_worlds_stay();
    let id = WorldId::from_index(worlds.listed().len());
    let joined = joined_world(alloc, types, worlds.listed(), id, owner, moved)?;
    add_joined(alloc, types, worlds, interfaces, joined)
}

/// Adds worlds of a package in their order, each with all that it includes, earlier ones among that, and with all that it imports in the
/// end. Refuses the first of which a world that it includes isn't there, or a name that is changed isn't a plain name of it, at that
/// `include`; or of which two plain names on one side are too alike, at the second; or of which an export needs an interface from outside
/// that depends on an export, where the world stands. Some types and worlds more may be there then.
pub fn add_worlds(
    alloc: Global,
    types: &mut Arena<TypeDef>,
    worlds: &mut Worlds,
    interfaces: &Interfaces,
    owner: PackageId,
    moved: Vec<MovedWorld>,
) -> Result<(), WorldFault>
    requires rows { length interfaces.now.uses.now ≡ length interfaces.now.interfaces.now }
    requires uses { AreBackward (Uses interfaces.now.uses.now) }
    requires sound { AreSound (length interfaces.now.uses.now) types.old worlds.old }
    requires elaborated { AreElaborated types.old interfaces.now.interfaces.now interfaces.now.uses.now worlds.old }
    requires there { (m : MovedWorld) → Has moved.items m → IsOwnThere types.old (length interfaces.now.uses.now) m }
    ensures ok { OnOk result (spec.AreAdded interfaces.now.interfaces.now interfaces.now.uses.now owner moved.items (state types.old worlds.old) (state types.new worlds.new)) }
    ensures sound { OnOk result (AreSound (length interfaces.now.uses.now) types.new worlds.new) }
    ensures elaborated { OnOk result (AreElaborated types.new interfaces.now.interfaces.now interfaces.now.uses.now worlds.new) }
    ensures cause { IfErr result (spec.AreAddCause interfaces.now.interfaces.now interfaces.now.uses.now owner moved.items (state types.old worlds.old)) }
    ensures types_grown { (more : List TypeDef) × (types.new ≡ types.old ++ more) }
    ensures listed_grown { (more : List World) × (worlds.new.listed ≡ worlds.old.listed ++ more) }
    ensures elaborated_grown { (more : List World) × (worlds.new.elaborated ≡ worlds.old.elaborated ++ more) }
{
    for world in moved {
        add_world(alloc, types, worlds, interfaces, owner, world)?;
    }
    Ok(())
}
