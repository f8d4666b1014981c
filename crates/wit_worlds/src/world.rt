//! A world.

ghost use Rattle.std.specs.Prelude.{◌≡◌, ℕ, ◌<◌, ◌++◌, List, Some, true, length, map, slice_get, IfOk};
ghost use Rattle.wit_syntax.specs.AstView as view;
ghost use Rattle.wit_scopes.specs.View as scope_view;
ghost use Rattle.wit_types.specs.WorldKey.{key_eq};
ghost use Rattle.wit_arena.specs.Tree.{Name};
ghost use Rattle.wit_arena.specs.Meaning.{Has};
ghost use Rattle.wit_foreign.specs.Passed.wit_package_types-Stability.{AreGates};
ghost use Rattle.wit_resolved_scopes.specs.Each.{Each};
ghost use Rattle.wit_worlds.specs.Making as spec;
ghost use Rattle.wit_worlds.specs.Listing.{AreListsMade};
ghost use Rattle.wit_worlds.specs.Worlds.{Entry, IsTypeEntry};
ghost use Rattle.wit_worlds.specs.PathView as seen;

use crate::lists::{Left, Lists, lists_of};
use crate::paths::Paths;
use indexmap::IndexMap;
use std::alloc::{AllocError, Global};
use wit_arena::{Table, Types, docs_of};
use wit_foreign::stability_in;
use wit_resolved_scopes::keyed;
use wit_scopes::{WorldMember, WorldScope};
use wit_types::{World, WorldInclude, WorldItem, WorldKey};

/// The types of a world as imports, each under its name.
fn type_entries(
    alloc: Global,
    types: &Types,
    table: &Table<'_>,
) -> Result<Vec<(WorldKey, WorldItem)>, AllocError>
    requires { (e : Name × ℕ) → Has table.now e → e.1 < length types.now }
    ensures { IfOk result (λ v. Each (IsTypeEntry types.now) table.now v.items) }
{
    let mut entries = Vec::new(alloc);
    for place in 0..table.len() {
        let (name, id) = table.entry(place);
        let name = String::from_str(alloc, name)?;
        let span = types.get(id).span;
        entries.push((WorldKey::Name(name), WorldItem::TypeItem { id, span }))?;
    }
    Ok(entries)
}

/// A world with these imports, exports and included worlds.
fn world_with(
    alloc: Global,
    world: &WorldScope<'_>,
    imports: IndexMap<WorldKey, WorldItem>,
    exports: IndexMap<WorldKey, WorldItem>,
    includes: Vec<WorldInclude>,
) -> Result<World, AllocError>
    requires { AreGates (map view.attribute world.now.front.attributes.items) }
    ensures { IfOk result (spec.IsWorldOf (scope_view.world_scope world.now) imports.entries exports.entries includes.items) }
{
    let name = String::from_str(alloc, world.name.name)?;
    let docs = docs_of(alloc, &world.front.docs)?;
    let stability = stability_in(alloc, &world.front)?;
    Ok(World {
        name,
        imports,
        exports,
        package: None,
        docs,
        stability,
        includes,
        span: world.name.span,
    })
}

/// A world with what is listed, of which no two imports and no two exports have one key.
fn world_from(alloc: Global, world: &WorldScope<'_>, lists: Lists) -> Result<World, AllocError>
    requires gates { AreGates (map view.attribute world.now.front.attributes.items) }
    requires imports { (i j : ℕ) (e f : Entry) → slice_get lists.imports.items i ≡ Some e → slice_get lists.imports.items j ≡ Some f → key_eq e.0 f.0 ≡ true → i ≡ j }
    requires exports { (i j : ℕ) (e f : Entry) → slice_get lists.exports.items i ≡ Some e → slice_get lists.exports.items j ≡ Some f → key_eq e.0 f.0 ≡ true → i ≡ j }
    ensures { IfOk result (spec.IsWorldOf (scope_view.world_scope world.now) lists.imports.items lists.exports.items lists.includes.items) }
{
    let Lists {
        imports,
        exports,
        includes,
    } = lists;
    let imports = keyed(alloc, imports)?;
    let exports = keyed(alloc, exports)?;
    world_with(alloc, world, imports, exports, includes)
}

/// What is listed in a world.
fn lists_in<'a>(
    alloc: Global,
    world: &WorldScope<'a>,
    paths: &Paths<'_, 'a>,
    left: Left,
    imports: Vec<(WorldKey, WorldItem)>,
) -> Result<Lists, AllocError>
    requires { spec.MayList (seen.paths paths.now) (scope_view.world_scope world.now) left.functions.items left.labelled.items }
    ensures { (w : Name) → IfOk result (λ lists. (others : List Entry) × (lists.imports.items ≡ imports.items ++ others) × AreListsMade (seen.paths paths.now) w (scope_view.world_scope world.now).members left.functions.items left.labelled.items others lists.exports.items lists.includes.items) }
{
    let members = &world.members;
    lists_of(alloc, paths, left, imports, members.as_slice())
}

/// A world of its types, of its functions and of the interfaces that stand in it: its types come first among its imports, and
/// all else stands in the order of the text.
pub fn world_of<'a>(
    alloc: Global,
    types: &Types,
    paths: &Paths<'_, 'a>,
    world: &WorldScope<'a>,
    table: &Table<'_>,
    left: Left,
) -> Result<World, AllocError>
    requires { spec.MayMake (seen.paths paths.now) (scope_view.world_scope world.now) types.now table.now left.functions.items left.labelled.items }
    ensures { IfOk result (spec.MakesWorld (seen.paths paths.now) (scope_view.world_scope world.now) types.now table.now left.functions.items left.labelled.items) }
{
    let imports = type_entries(alloc, types, table)?;
    let lists = lists_in(alloc, world, paths, left, imports)?;
    world_from(alloc, world, lists)
}
