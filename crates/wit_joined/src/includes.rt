//! What a world includes.

ghost use Rattle.std.specs.Prelude.{◌≡◌, ◌++◌, List, IfOk, IfErr, OnOk, OnErr};
ghost use Rattle.wit_types.specs.declared.interface.TypeDef.{TypeDef};
ghost use Rattle.wit_copied_trees.specs.Passed.wit_reach-Types.{AreTypesBackward, AreSidesThere};
ghost use Rattle.wit_joined.specs.Joined as spec;

use std::alloc::{AllocError, Global};
use wit_copied_trees::{
    Include, IncludeFault, Included, SideFault, included_world, law_included_types_are_backward,
};
use wit_types::{Arena, TypeDef, World, WorldId, WorldInclude, WorldItem, WorldKey};
use wit_words::Span;

/// What a world imports and exports.
#[derive(Drop)]
pub struct Sides {
    /// What it imports.
    pub imports: Vec<(WorldKey, WorldItem)>,
    /// What it exports.
    pub exports: Vec<(WorldKey, WorldItem)>,
}

/// Why a world can't include others.
#[derive(Debug, Drop)]
pub enum JoinFault {
    /// A world isn't there, or a name that is changed isn't a plain name of it.
    ItemNotFound(Span),
    /// A plain name has the name key of one before it.
    IncludeClash(Span),
    /// Memory is wanting.
    OutOfMemory,
}

impl From<SideFault> for JoinFault {
    ghost use Rattle.wit_joined.specs.Joined.{clash_of};

    ghost from_gives = { λ cause e. e ≡ clash_of cause };

    fn from(cause: SideFault) -> JoinFault {
        match cause {
            SideFault::IncludeClash(span) => JoinFault::IncludeClash(span),
            SideFault::OutOfMemory => JoinFault::OutOfMemory,
        }
    }
}

impl From<IncludeFault> for JoinFault {
    ghost use Rattle.wit_joined.specs.Joined.{fault_of};

    ghost from_gives = { λ cause e. e ≡ fault_of cause };

    fn from(cause: IncludeFault) -> JoinFault {
        match cause {
            IncludeFault::ItemNotFound(span) => JoinFault::ItemNotFound(span),
            IncludeFault::OutOfMemory => JoinFault::OutOfMemory,
        }
    }
}

impl From<AllocError> for JoinFault {
    ghost use Rattle.wit_joined.specs.declared.includes.JoinFault.TheVariants.{OutOfMemory};

    ghost from_gives = { λ _ e. e ≡ OutOfMemory };

    fn from(_cause: AllocError) -> JoinFault {
        JoinFault::OutOfMemory
    }
}

/// Puts types behind those that are there. Where memory is wanting, some of them may be.
fn add_types(types: &mut Arena<TypeDef>, defs: Vec<TypeDef>) -> Result<(), AllocError>
    ensures ok { OnOk result (types.new ≡ types.old ++ defs.items) }
    ensures err { OnErr result ((more : List TypeDef) × (types.new ≡ types.old ++ more)) }
{
    for def in defs {
        types.alloc(def)?;
    }
    Ok(())
}

/// What a side has with what an included world brings to it.
fn joined(
    side: Vec<(WorldKey, WorldItem)>,
    brought: Vec<(WorldKey, WorldItem)>,
) -> Result<Vec<(WorldKey, WorldItem)>, AllocError>
    ensures { IfOk result (λ found. found.items ≡ side.items ++ brought.items) }
{
    let mut side = side;
    let mut brought = brought;
    side.append(&mut brought)?;
    Ok(side)
}

/// What a world imports and exports, with what another brings that it includes; its types go behind those that are there. Where it
/// is refused, some of them may be.
fn include_one(
    alloc: Global,
    types: &mut Arena<TypeDef>,
    include: &Include,
    sides: Sides,
) -> Result<Sides, JoinFault>
    requires backward { AreTypesBackward types.old }
    requires there { AreSidesThere types.old include.now.world.now }
    ensures ok { IfOk result (spec.IsIncludedOne include.now types.old sides types.new) }
    ensures cause { IfErr result (spec.IsOneCause include.now) }
    ensures err { OnErr result ((more : List TypeDef) × (types.new ≡ types.old ++ more)) }
{
    let brought = included_world(alloc, types, include)?;
    let Included {
        types: defs,
        imports,
        exports,
    } = brought;
    add_types(types, defs)?;
    Ok(Sides {
        imports: joined(sides.imports, imports)?,
        exports: joined(sides.exports, exports)?,
    })
}

/// The same of a world where it stands among others. Refuses one that doesn't.
fn include_at(
    alloc: Global,
    types: &mut Arena<TypeDef>,
    worlds: &Arena<World>,
    id: WorldId,
    sides: Sides,
    include: &WorldInclude,
) -> Result<Sides, JoinFault>
    requires backward { AreTypesBackward types.old }
    requires there { spec.AreWorldsThere types.old worlds.now }
    ensures ok { IfOk result (λ found. spec.IsIncludedAt worlds.now id include.now (spec.state types.old sides) (spec.state types.new found)) }
    ensures backward { OnOk result (AreTypesBackward types.new) }
    ensures cause { IfErr result (spec.IsAtCause worlds.now include.now) }
    ensures grown { (more : List TypeDef) × (types.new ≡ types.old ++ more) }
{
    if include.id.index() >= worlds.len() {
        return Err(JoinFault::ItemNotFound(include.span));
    }
    law_included_types_are_backward();
    let one = Include {
        from: include.id,
        world: worlds.get(include.id),
        into: id,
        names: include.names.as_slice(),
        span: include.span,
    };
    include_one(alloc, types, &one, sides)
}

/// What a world imports and exports with all that it includes, in order; types that come with that go behind those that are there.
/// Refuses where a world that it includes isn't there, or a name that is changed isn't a plain name of it, at that `include`; some of
/// those types may be there then.
pub fn include_all(
    alloc: Global,
    types: &mut Arena<TypeDef>,
    worlds: &Arena<World>,
    id: WorldId,
    sides: Sides,
    includes: &[WorldInclude],
) -> Result<Sides, JoinFault>
    requires backward { AreTypesBackward types.old }
    requires there { spec.AreWorldsThere types.old worlds.now }
    ensures ok { IfOk result (λ found. spec.Includes worlds.now id includes.now (spec.state types.old sides) (spec.state types.new found)) }
    ensures backward { OnOk result (AreTypesBackward types.new) }
    ensures cause { IfErr result (spec.IsIncludesCause worlds.now includes.now) }
    ensures grown { (more : List TypeDef) × (types.new ≡ types.old ++ more) }
{
    let mut sides = sides;
    for include in includes {
        sides = include_at(alloc, types, worlds, id, sides, include)?;
    }
    Ok(sides)
}
