//! What is reached from where.

ghost use Rattle.std.specs.Prelude.{◌≡◌, ℕ, ◌<◌, ◌⊎◌, ◌↔◌, List, [], length, reverse, IfOk, IfErr, OnOk, IfSome, IfNone, IsTrue};
ghost use Rattle.wit_types.specs.Passed.wit_order-Order.{Has};
ghost use Rattle.wit_reach.specs.Paths.{AreBackward, AreEnds};
ghost use Rattle.wit_reach.specs.Reach.{Uses, IsNeededOutside, IsElaboration, IsElaborateCause, AreThere, lists_of, ElaboratingAgainIsTheSame, ElaboratedAreThere};

use std::alloc::{AllocError, AllocFailed, Global};
use std::collections::BTreeSet;
use wit_types::{Id, InterfaceId};

/// The interfaces that a world lists as imports, those whose types its own items use, and those that it exports.
#[derive(Debug, Drop)]
pub struct WorldLists {
    /// Those that it imports.
    pub imports: Vec<InterfaceId>,
    /// Those whose types are used by its own functions and types.
    pub used: Vec<InterfaceId>,
    /// Those that it exports.
    pub exports: Vec<InterfaceId>,
}

/// Why a world isn't elaborated.
#[derive(Debug, Drop)]
pub enum ElaborateFault {
    /// An interface that is exported, and on which something depends that the exports need from outside.
    ExportConflict(InterfaceId),
    /// Memory is wanting.
    OutOfMemory,
}

impl From<AllocError> for ElaborateFault {
    ghost use Rattle.wit_reach.specs.declared.reach.ElaborateFault.TheVariants.{OutOfMemory};

    ghost from_gives = { λ _ e. e ≡ OutOfMemory };

    fn from(_cause: AllocError) -> ElaborateFault {
        ElaborateFault::OutOfMemory
    }
}

impl<T: Drop> From<AllocFailed<T>> for ElaborateFault {
    ghost use Rattle.wit_reach.specs.declared.reach.ElaborateFault.TheVariants.{OutOfMemory};

    ghost from_gives = { λ _ e. e ≡ OutOfMemory };

    fn from(_cause: AllocFailed<T>) -> ElaborateFault {
        ElaborateFault::OutOfMemory
    }
}

/// Whether the set has the interface.
fn has(set: &BTreeSet<usize>, interface: InterfaceId) -> bool
    ensures { IsTrue result ↔ Has set.now.keys interface }
{
    set.contains(&interface.index())
}

/// Adds the ids to the set.
pub fn add_all<T>(set: &mut BTreeSet<usize>, ids: &[Id<T>]) -> Result<(), AllocError>
    ensures was { OnOk result ((i : ℕ) → Has set.old.keys i → Has set.new.keys i) }
    ensures new { OnOk result ((i : ℕ) → Has ids.now i → Has set.new.keys i) }
    ensures only { OnOk result ((i : ℕ) → Has set.new.keys i → Has set.old.keys i ⊎ Has ids.now i) }
{
    for id in ids.iter().copied() {
        set.insert(id.index())?;
    }
    Ok(())
}

/// The list from its end on.
pub(crate) fn turned<T>(alloc: Global, falling: &[Id<T>]) -> Result<Vec<Id<T>>, AllocError>
    ensures { IfOk result (λ rising. rising.items ≡ reverse falling.now) }
{
    falling.iter().rev().copied().collect(alloc)
}

/// All that paths from the starts reach, by rising ids: from the last on, each time with what it depends on, which comes before it.
fn reached(
    alloc: Global,
    uses: &[Vec<InterfaceId>],
    starts: &[InterfaceId],
) -> Result<Vec<InterfaceId>, AllocError>
    requires backward { AreBackward (Uses uses.now) }
    requires there { (i : ℕ) → Has starts.now i → i < length uses.now }
    ensures { IfOk result (λ order. AreEnds (Uses uses.now) (Has starts.now) order.items) }
{
    let mut left = BTreeSet::new(alloc);
    add_all(&mut left, starts)?;
    let mut falling = Vec::new(alloc);
    while let Some(interface) = left.pop_last() {
        add_all(&mut left, uses[interface].as_slice())?;
        falling.push(InterfaceId::from_index(interface))?;
    }
    let rising = turned(alloc, falling.as_slice())?;
    Ok(rising)
}

/// All interfaces that an interface depends on over any number of steps, and itself: dependencies first, and so itself last. For
/// each interface there stands on which it depends, all with lower ids.
pub fn closure(
    alloc: Global,
    uses: &[Vec<InterfaceId>],
    interface: InterfaceId,
) -> Result<Vec<InterfaceId>, AllocError>
    requires backward { AreBackward (Uses uses.now) }
    requires there { interface < length uses.now }
    ensures { IfOk result (λ order. AreEnds (Uses uses.now) (λ s. s ≡ interface) order.items) }
{
    let mut starts = Vec::new(alloc);
    starts.push(interface)?;
    reached(alloc, uses, starts.as_slice())
}

/// Adds those interfaces that aren't in the set.
fn add_others(
    found: &mut Vec<InterfaceId>,
    interfaces: &[InterfaceId],
    set: &BTreeSet<usize>,
) -> Result<(), AllocError>
    ensures was { OnOk result ((i : ℕ) → Has found.old.items i → Has found.new.items i) }
    ensures new { OnOk result ((i : ℕ) → Has interfaces.now i → (Has set.now.keys i → ⊥) → Has found.new.items i) }
    ensures only { OnOk result ((i : ℕ) → Has found.new.items i → Has found.old.items i ⊎ (Has interfaces.now i × (Has set.now.keys i → ⊥))) }
{
    for interface in interfaces {
        if !has(set, *interface) {
            found.push(*interface)?;
        }
    }
    Ok(())
}

/// What the exports need from outside.
fn needed_outside(
    alloc: Global,
    uses: &[Vec<InterfaceId>],
    exports: &[InterfaceId],
    keys: &BTreeSet<usize>,
) -> Result<Vec<InterfaceId>, AllocError>
    requires there { (i : ℕ) → Has exports.now i → i < length uses.now }
    requires keys { (i : ℕ) → Has keys.now.keys i ↔ Has exports.now i }
    ensures { IfOk result (λ found. (i : ℕ) → Has found.items i ↔ IsNeededOutside uses.now exports.now i) }
{
    let mut found = Vec::new(alloc);
    for export in exports {
        add_others(&mut found, uses[export.index()].as_slice(), keys)?;
    }
    Ok(found)
}

/// The first of the interfaces that is in the set.
fn first_in(interfaces: &[InterfaceId], set: &BTreeSet<usize>) -> Option<InterfaceId>
    ensures none { IfNone result ((i : ℕ) → Has interfaces.now i → Has set.now.keys i → ⊥) }
    ensures some { IfSome result (λ i. Has interfaces.now i × Has set.now.keys i) }
{
    for interface in interfaces {
        if has(set, *interface) {
            return Some(*interface);
        }
    }
    None
}

/// The imported interfaces of a world with all that they, the types that it uses and its exports depend on: the least such set that
/// is closed, dependencies first, where what an export depends on comes from the exports if it is one of them. Refuses exactly where
/// an export depends on an interface that isn't exported and that depends on one that is.
pub fn elaborate(
    alloc: Global,
    uses: &[Vec<InterfaceId>],
    world: &WorldLists,
) -> Result<Vec<InterfaceId>, ElaborateFault>
    requires backward { AreBackward (Uses uses.now) }
    requires there { AreThere uses.now (lists_of world.now) }
    ensures ok { IfOk result (λ order. IsElaboration uses.now (lists_of world.now) order.items) }
    ensures cause { IfErr result (IsElaborateCause uses.now (lists_of world.now)) }
{
    let mut keys = BTreeSet::new(alloc);
    add_all(&mut keys, world.exports.as_slice())?;
    let mut starts = needed_outside(alloc, uses, world.exports.as_slice(), &keys)?;
    let outside = reached(alloc, uses, starts.as_slice())?;
    if let Some(export) = first_in(outside.as_slice(), &keys) {
        return Err(ElaborateFault::ExportConflict(export));
    }
    starts.extend_from_slice(world.imports.as_slice())?;
    starts.extend_from_slice(world.used.as_slice())?;
    let order = reached(alloc, uses, starts.as_slice())?;
    Ok(order)
}

/// Elaborating an elaborated world changes nothing.
pub fn law_elaborated_stays()
    ensures { ElaboratingAgainIsTheSame }
{}

/// All that a world imports in the end is there, where all that it lists is.
pub fn law_elaborated_are_there()
    ensures { ElaboratedAreThere }
{}
