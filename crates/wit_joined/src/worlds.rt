//! Worlds with all that they include.

ghost use Rattle.std.specs.Prelude.{◌≡◌, ◌++◌, List, IfOk, IfErr, OnOk};
ghost use Rattle.wit_types.specs.declared.interface.TypeDef.{TypeDef};
ghost use Rattle.wit_copied_trees.specs.Passed.wit_reach-Ids.{side_ids};
ghost use Rattle.wit_copied_trees.specs.Passed.wit_reach-Types.{AreTypesBackward, AreTypesThere, AreSidesThere};
ghost use Rattle.wit_joined.specs.Joined as spec;

use crate::includes::{JoinFault, Sides, include_all};
use indexmap::IndexMap;
use std::alloc::Global;
use wit_copied_trees::{
    joined_side, law_included_sides_are_there, law_included_types_are_backward,
};
use wit_plans::MovedWorld;
use wit_types::{Arena, PackageId, TypeDef, World, WorldId, WorldInclude, WorldItem, WorldKey};

/// What a world imports and exports in its order, each interface once.
#[derive(Drop)]
struct JoinedSides {
    imports: IndexMap<WorldKey, WorldItem>,
    exports: IndexMap<WorldKey, WorldItem>,
}

/// Both sides of a world with all that it includes.
fn joined_sides(
    alloc: Global,
    types: &mut Arena<TypeDef>,
    worlds: &Arena<World>,
    id: WorldId,
    own: Sides,
    includes: &[WorldInclude],
) -> Result<JoinedSides, JoinFault>
    requires backward { AreTypesBackward types.old }
    requires there { spec.AreWorldsThere types.old worlds.now }
    requires imports { AreTypesThere types.old (side_ids own.imports.items) }
    requires exports { AreTypesThere types.old (side_ids own.exports.items) }
    ensures ok { IfOk result (λ found. spec.AreJoined worlds.now id includes.now (spec.state types.old own) types.new found.imports.entries found.exports.entries) }
    ensures there { IfOk result (λ found. AreTypesThere types.new (side_ids found.imports.entries) × AreTypesThere types.new (side_ids found.exports.entries)) }
    ensures backward { OnOk result (AreTypesBackward types.new) }
    ensures cause { IfErr result (spec.IsSidesCause worlds.now id includes.now (spec.state types.old own)) }
    ensures grown { (more : List TypeDef) × (types.new ≡ types.old ++ more) }
{
    law_included_types_are_backward();
    law_included_sides_are_there();
    let sides = include_all(alloc, types, worlds, id, own, includes)?;
    let imports = joined_side(alloc, sides.imports)?;
    let exports = joined_side(alloc, sides.exports)?;
    Ok(JoinedSides { imports, exports })
}

/// A world of a package with all that it includes: types that come with that go behind those that are there, an interface that comes
/// again is one with the first. Refuses where a world that it includes isn't there, or a name that is changed isn't a plain name of it,
/// at that `include`; and else where a plain name has the name key of one before it on its side, at such a name. Some of those types may
/// be there then.
pub fn joined_world(
    alloc: Global,
    types: &mut Arena<TypeDef>,
    worlds: &Arena<World>,
    id: WorldId,
    owner: PackageId,
    moved: MovedWorld,
) -> Result<World, JoinFault>
    requires backward { AreTypesBackward types.old }
    requires there { spec.AreWorldsThere types.old worlds.now }
    requires imports { AreTypesThere types.old (side_ids moved.imports.items) }
    requires exports { AreTypesThere types.old (side_ids moved.exports.items) }
    ensures ok { IfOk result (spec.IsJoinedWorld worlds.now id owner moved types.old types.new) }
    ensures there { IfOk result (AreSidesThere types.new) }
    ensures backward { OnOk result (AreTypesBackward types.new) }
    ensures cause { IfErr result (spec.IsWorldCause worlds.now id moved types.old) }
    ensures grown { (more : List TypeDef) × (types.new ≡ types.old ++ more) }
{
    let MovedWorld {
        name,
        imports,
        exports,
        docs,
        stability,
        includes,
        span,
    } = moved;
    let own = Sides { imports, exports };
    let sides = joined_sides(alloc, types, worlds, id, own, includes.as_slice())?;
    Ok(World {
        name,
        imports: sides.imports,
        exports: sides.exports,
        package: Some(owner),
        docs,
        stability,
        includes: Vec::new(alloc),
        span,
    })
}
