//! The imports and exports of a world, and what it includes.

ghost use Rattle.std.specs.Prelude.{◌≡◌, ℕ, ◌<◌, ◌^◌, ◌+◌, ◌∷◌, ◌++◌, List, [], length, map, flat_map, slice_get, Some, string_bytes, IsTrue, IsFalse, IfOk, OnOk};
ghost use Rattle.wit_syntax.specs.AstView as view;
ghost use Rattle.wit_scopes.specs.View as scope_view;
ghost use Rattle.wit_scopes.specs.Scopes as scope;
ghost use Rattle.wit_scopes.specs.Scopes.{WorldMemberTree};
ghost use Rattle.wit_scopes.specs.declared.worlds.Side.TheVariants.{Import, Export};
ghost use Rattle.wit_arena.specs.Tree.{Name};
ghost use Rattle.wit_arena.specs.Meaning.{Has};
ghost use Rattle.wit_arena.specs.Standing.{IsOfType};
ghost use Rattle.wit_resolved_scopes.specs.Passed.wit_functions-Signature.{IsFunction};
ghost use Rattle.wit_resolved_scopes.specs.Scope.{functions_among};
ghost use Rattle.wit_resolved_scopes.specs.Texts.{member_texts, own_members};
ghost use Rattle.wit_types.specs.WorldKey.{spelled, known};
ghost use Rattle.wit_foreign.specs.Passed.wit_package_types-Stability.{AreGates};
ghost use Rattle.wit_worlds.specs.Listing as spec;
ghost use Rattle.wit_worlds.specs.Worlds as world;
ghost use Rattle.wit_worlds.specs.Paths as path_spec;
ghost use Rattle.wit_worlds.specs.PathView as seen;

use crate::paths::Paths;
use std::alloc::{AllocError, Global};
use std::collections::VecDeque;
use wit_foreign::stability_in;
use wit_scopes::{ExternKind, Included, Listed, MemberKind, Side, WorldMember};
use wit_syntax::IncludeName as WrittenName;
use wit_types::{Function, IncludeName, InterfaceId, WorldInclude, WorldItem, WorldKey};

/// What is left to be listed, each in the order of the text.
#[derive(Drop)]
pub struct Left {
    /// The functions of the world.
    pub functions: VecDeque<Function>,
    /// The interfaces that stand in it.
    pub labelled: VecDeque<InterfaceId>,
}

/// The imports and exports of a world, and what it includes, each in order.
#[derive(Drop)]
pub struct Lists {
    /// What it imports.
    pub imports: Vec<(WorldKey, WorldItem)>,
    /// What it exports.
    pub exports: Vec<(WorldKey, WorldItem)>,
    /// The worlds that it includes.
    pub includes: Vec<WorldInclude>,
}

/// Takes the first; there is one.
fn take_first<T>(left: &mut VecDeque<T>) -> T
    requires { 0 < length left.old.items }
    ensures { left.old.items ≡ result ∷ left.new.items }
{
    match left.pop_front() {
        Some(first) => first,
        None => unreachable!(),
    }
}

/// A function under its name.
fn function_entry(alloc: Global, function: Function) -> Result<(WorldKey, WorldItem), AllocError>
    ensures { IfOk result (spec.MakesFunctionEntry function) }
{
    let name = String::from_str(alloc, function.name.as_str())?;
    Ok((WorldKey::Name(name), WorldItem::Function(function)))
}

/// An interface under a key.
fn interface_entry(
    alloc: Global,
    key: WorldKey,
    id: InterfaceId,
    listed: &Listed<'_>,
) -> Result<(WorldKey, WorldItem), AllocError>
    requires { AreGates (map view.attribute listed.now.front.value.attributes.items) }
    ensures { IfOk result (spec.MakesInterfaceEntry (scope_view.listed listed.now) (known key) id) }
{
    let stability = stability_in(alloc, &listed.front)?;
    let item = WorldItem::Interface {
        id,
        stability,
        span: listed.name.span,
    };
    Ok((key, item))
}

/// An interface that stands in the world, under its label.
fn labelled_entry(
    alloc: Global,
    id: InterfaceId,
    listed: &Listed<'_>,
) -> Result<(WorldKey, WorldItem), AllocError>
    requires { AreGates (map view.attribute listed.now.front.value.attributes.items) }
    ensures { IfOk result (spec.MakesInterfaceEntry (scope_view.listed listed.now) (spelled listed.now.name.name.now) id) }
{
    let name = String::from_str(alloc, listed.name.name)?;
    interface_entry(alloc, WorldKey::Name(name), id, listed)
}

/// The names that change where a world is included.
fn include_names(alloc: Global, written: &[WrittenName<'_>]) -> Result<Vec<IncludeName>, AllocError>
    ensures { IfOk result (λ v. map world.include_name v.items ≡ map world.written_name (map view.include_name written.now)) }
{
    let mut names = Vec::new(alloc);
    for one in written {
        let name = String::from_str(alloc, one.name.name)?;
        let as_ = String::from_str(alloc, one.as_.name)?;
        names.push(IncludeName { name, as_ })?;
    }
    Ok(names)
}

/// What stands for a world that another includes.
fn include_of<'a>(
    alloc: Global,
    paths: &Paths<'_, 'a>,
    included: &Included<'a>,
) -> Result<WorldInclude, AllocError>
    requires there { path_spec.IsWorldThere (seen.paths paths.now) (scope_view.target included.now.world) }
    requires sorts { path_spec.AreSorts (seen.paths paths.now).items }
    requires room { (seen.paths paths.now).first_world + length (seen.paths paths.now).worlds < 2 ^ 64 }
    requires gates { AreGates (map view.attribute included.now.front.value.attributes.items) }
    ensures { IfOk result (spec.MakesInclude (seen.paths paths.now) (scope_view.included included.now)) }
{
    let id = paths.world(&included.world);
    let stability = stability_in(alloc, &included.front)?;
    let names = include_names(alloc, included.names.as_slice())?;
    Ok(WorldInclude {
        stability,
        id,
        names,
        span: included.span,
    })
}

/// Puts an import or export behind the others of its side.
fn add_entry(lists: &mut Lists, side: Side, entry: (WorldKey, WorldItem)) -> Result<(), AllocError>
    ensures import { side ≡ Import → OnOk result (lists.new.imports.items ≡ lists.old.imports.items ++ entry ∷ []) × (lists.new.exports.items ≡ lists.old.exports.items) }
    ensures export { side ≡ Export → OnOk result (lists.new.exports.items ≡ lists.old.exports.items ++ entry ∷ []) × (lists.new.imports.items ≡ lists.old.imports.items) }
    ensures includes { lists.new.includes.items ≡ lists.old.includes.items }
{
    match side {
        Side::Import => lists.imports.push(entry)?,
        Side::Export => lists.exports.push(entry)?,
    }
    Ok(())
}

/// What stands for an import or export.
fn listed_entry<'a>(
    alloc: Global,
    paths: &Paths<'_, 'a>,
    left: &mut Left,
    listed: &Listed<'a>,
) -> Result<(WorldKey, WorldItem), AllocError>
    requires listable { spec.IsListable (seen.paths paths.now) left.old.functions.items left.old.labelled.items (scope.listed (scope_view.listed listed.now)) }
    requires sorts { path_spec.AreSorts (seen.paths paths.now).items }
    requires room { (seen.paths paths.now).first_interface + length (seen.paths paths.now).interfaces < 2 ^ 64 }
    ensures { IfOk result (λ e. spec.MakesListed (seen.paths paths.now) (scope_view.listed listed.now) (scope_view.extern_kind listed.now.kind) left.old.functions.items left.old.labelled.items e left.new.functions.items left.new.labelled.items) }
{
    match &listed.kind {
        ExternKind::Function(_) => function_entry(alloc, take_first(&mut left.functions)),
        ExternKind::Interface(_) => labelled_entry(alloc, take_first(&mut left.labelled), listed),
        ExternKind::Item(path) => {
            let id = paths.interface(path);
            interface_entry(alloc, WorldKey::Interface(id), id, listed)
        }
    }
}

/// Adds what stands for a member of a world.
fn add_member<'a>(
    lists: &mut Lists,
    alloc: Global,
    paths: &Paths<'_, 'a>,
    left: &mut Left,
    member: &WorldMember<'a>,
) -> Result<(), AllocError>
    requires listable { spec.IsListable (seen.paths paths.now) left.old.functions.items left.old.labelled.items (scope_view.world_member member.now) }
    requires sorts { path_spec.AreSorts (seen.paths paths.now).items }
    requires interfaces { (seen.paths paths.now).first_interface + length (seen.paths paths.now).interfaces < 2 ^ 64 }
    requires worlds { (seen.paths paths.now).first_world + length (seen.paths paths.now).worlds < 2 ^ 64 }
    ensures { OnOk result (spec.AddsMember (seen.paths paths.now) left.old.functions.items left.old.labelled.items lists.old.imports.items lists.old.exports.items lists.old.includes.items (scope_view.world_member member.now) left.new.functions.items left.new.labelled.items lists.new.imports.items lists.new.exports.items lists.new.includes.items) }
{
    match member {
        WorldMember::Member(member) => {
            if is_function(&member.kind) {
                let entry = function_entry(alloc, take_first(&mut left.functions))?;
                lists.imports.push(entry)?;
            }
            Ok(())
        }
        WorldMember::Listed(listed) => {
            let entry = listed_entry(alloc, paths, left, listed)?;
            add_entry(lists, listed.side, entry)
        }
        WorldMember::Included(included) => {
            let include = include_of(alloc, paths, included)?;
            lists.includes.push(include)?;
            Ok(())
        }
    }
}

/// Whether a member is a function.
fn is_function(kind: &MemberKind<'_>) -> bool
    ensures yes { IsTrue result → IsFunction (scope_view.member_kind kind.now) }
    ensures no_function { IsFalse result → IsOfType (scope_view.member_kind kind.now) }
{
    !matches!(kind, MemberKind::Used { .. } | MemberKind::Defined(_))
}

/// What stands for the members of a world, in the order of the text: of its functions and of the interfaces that stand in it
/// each is taken once. These imports stand in front of all others.
pub fn lists_of<'a>(
    alloc: Global,
    paths: &Paths<'_, 'a>,
    left: Left,
    imports: Vec<(WorldKey, WorldItem)>,
    members: &[WorldMember<'a>],
) -> Result<Lists, AllocError>
    requires functions { length left.functions.items ≡ length (functions_among (own_members (map scope_view.world_member members.now))) }
    requires labelled { length left.labelled.items ≡ length (flat_map (member_texts []) (map scope_view.world_member members.now)) }
    requires listable { (m : WorldMemberTree) → Has (map scope_view.world_member members.now) m → spec.IsThere (seen.paths paths.now) m }
    requires sorts { path_spec.AreSorts (seen.paths paths.now).items }
    requires interfaces { (seen.paths paths.now).first_interface + length (seen.paths paths.now).interfaces < 2 ^ 64 }
    requires worlds { (seen.paths paths.now).first_world + length (seen.paths paths.now).worlds < 2 ^ 64 }
    ensures { (w : Name) → IfOk result (λ lists. (others : List world.Entry) × (lists.imports.items ≡ imports.items ++ others) × spec.AreListsMade (seen.paths paths.now) w (map scope_view.world_member members.now) left.functions.items left.labelled.items others lists.exports.items lists.includes.items) }
{
    let mut left = left;
    let mut lists = Lists {
        imports,
        exports: Vec::new(alloc),
        includes: Vec::new(alloc),
    };
    for member in members {
        add_member(&mut lists, alloc, paths, &mut left, member)?;
    }
    Ok(lists)
}
