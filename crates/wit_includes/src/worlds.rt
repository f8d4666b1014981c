//! A world that is included.

ghost use Rattle.std.specs.Prelude.{◌≡◌, IfOk, IfErr, length};
ghost use Rattle.wit_copies.specs.Passed.wit_reach-Paths.{AreRising};
ghost use Rattle.wit_copies.specs.Passed.wit_reach-Types.{AreTypesBackward, AreTypesThere, AreSidesThere};
ghost use Rattle.wit_includes.specs.Included as spec;

use crate::names::renamed_defs;
use indexmap::IndexMap;
use std::alloc::{AllocError, Global};
use wit_copies::{Copies, copied_defs, copied_side, world_types};
use wit_sides::{Renames, are_there};
use wit_types::{Arena, IncludeName, TypeDef, TypeId, World, WorldId, WorldItem, WorldKey};
use wit_words::Span;

/// A world that is included in another, with what is changed.
#[derive(Clone, Copy)]
pub struct Include<'a> {
    /// The included world.
    pub from: WorldId,
    /// What it has.
    pub world: &'a World,
    /// The world that includes it.
    pub into: WorldId,
    /// The names that are changed.
    pub names: &'a [IncludeName],
    /// Where that stands.
    pub span: Span,
}

/// What a world brings to one that includes it.
#[derive(Drop)]
pub struct Included {
    /// Its types, which go behind those that are there.
    pub types: Vec<TypeDef>,
    /// What it imports.
    pub imports: Vec<(WorldKey, WorldItem)>,
    /// What it exports.
    pub exports: Vec<(WorldKey, WorldItem)>,
}

/// Why a world can't be included.
#[derive(Debug, Drop)]
pub enum IncludeFault {
    /// A name that is changed isn't a plain name of it.
    ItemNotFound(Span),
    /// Memory is wanting.
    OutOfMemory,
}

impl From<AllocError> for IncludeFault {
    ghost use Rattle.wit_includes.specs.declared.worlds.IncludeFault.TheVariants.{OutOfMemory};

    ghost from_gives = { λ _ e. e ≡ OutOfMemory };

    fn from(_cause: AllocError) -> IncludeFault {
        IncludeFault::OutOfMemory
    }
}

/// Where copies of types stand behind those that are there.
fn copies_behind(
    alloc: Global,
    types: &Arena<TypeDef>,
    own: &[TypeId],
) -> Result<Copies, AllocError>
    requires { AreRising own.now }
    ensures { IfOk result (λ c. c ≡ spec.copies_behind types.now own.now) }
{
    let base = types.len();
    if own.len() >= usize::MAX - base {
        return Err(AllocError);
    }
    Copies::new(alloc, own, base)
}

/// What a side of an included world brings, under its changed names and made of copies of its types.
fn included_side(
    alloc: Global,
    copies: &Copies,
    renames: &Renames,
    side: &IndexMap<WorldKey, WorldItem>,
) -> Result<Vec<(WorldKey, WorldItem)>, AllocError>
    ensures { IfOk result (λ found. spec.AreIncludedEntries renames.now copies.now side.now.entries found.items) }
{
    let copied = copied_side(alloc, copies, side)?;
    renames.renamed_side(alloc, copied)
}

/// Copies of types as the including world has them.
fn included_types(
    alloc: Global,
    types: &Arena<TypeDef>,
    include: &Include,
    renames: &Renames,
    copies: &Copies,
    own: &[TypeId],
) -> Result<Vec<TypeDef>, AllocError>
    requires there { AreTypesThere types.now own.now }
    requires copies { copies.now ≡ spec.copies_behind types.now own.now }
    ensures { IfOk result (λ found. spec.AreIncludedTypes renames.now include.now.from include.now.into types.now own.now found.items) }
{
    let copied = copied_defs(alloc, copies, include.from, include.into, types, own)?;
    renamed_defs(alloc, renames, include.into, copied)
}

/// What a world brings of which these are the types.
fn brought(
    alloc: Global,
    types: &Arena<TypeDef>,
    include: &Include,
    own: &[TypeId],
) -> Result<Included, AllocError>
    requires there { AreTypesThere types.now own.now }
    requires rising { AreRising own.now }
    ensures { IfOk result (spec.Brings include.now.names.now include.now.from include.now.into types.now include.now.world.now own.now) }
{
    let copies = copies_behind(alloc, types, own)?;
    let renames = Renames::new(alloc, include.names)?;
    let types = included_types(alloc, types, include, &renames, &copies, own)?;
    let imports = included_side(alloc, &copies, &renames, &include.world.imports)?;
    let exports = included_side(alloc, &copies, &renames, &include.world.exports)?;
    Ok(Included {
        types,
        imports,
        exports,
    })
}

/// What a world brings to one that includes it: copies of its types, which belong to that world and go behind those that are there,
/// and what it imports and exports, made of them; all under the names that are changed, functions of a resource following it. Refuses
/// where a name that is changed isn't a plain name of the included world.
pub fn included_world(
    alloc: Global,
    types: &Arena<TypeDef>,
    include: &Include,
) -> Result<Included, IncludeFault>
    requires backward { AreTypesBackward types.now }
    requires there { AreSidesThere types.now include.now.world.now }
    ensures ok { IfOk result (spec.IsIncluded include.now.names.now include.now.from include.now.into types.now include.now.world.now) }
    ensures cause { IfErr result (spec.IsIncludeCause include.now.names.now include.now.world.now include.now.span) }
{
    if !are_there(alloc, include.names, include.world)? {
        return Err(IncludeFault::ItemNotFound(include.span));
    }
    let own = world_types(alloc, types, include.from, include.world)?;
    Ok(brought(alloc, types, include, own.as_slice())?)
}
