//! The names of scopes.

ghost use Rattle.std.specs.Prelude.{◌≡◌, ◌++◌, map, bytes_eq, IfOk, OnOk};
ghost use Rattle.std.specs.List.{list_any};
ghost use Rattle.wit_syntax.specs.AstView as view;
ghost use Rattle.wit_scopes.specs.View as scope_view;
ghost use Rattle.wit_lookups.specs.Names as spec;
ghost use Rattle.wit_checked_lookups.specs.View as seen;

use name_places::FirstPlaces;
use std::alloc::{AllocError, Global};
use wit_scopes::{ExternKind, ItemScope, Listed, Member, MemberKind, WorldMember, known_name};
use wit_syntax::ToplevelUse;

/// Adds a member's name where it is one of a type.
fn add_type_name<'a>(found: &mut FirstPlaces<'a>, member: &Member<'a>) -> Result<(), AllocError>
    ensures { OnOk result (found.new ≡ found.old ++ spec.member_type_name (scope_view.member member.now)) }
{
    match member.kind {
        MemberKind::Used { .. } | MemberKind::Defined(_) => found.push(member.name.name),
        _ => Ok(()),
    }
}

/// The names of the types of an interface.
pub fn type_names<'a>(alloc: Global, members: &[Member<'a>]) -> Result<FirstPlaces<'a>, AllocError>
    ensures { IfOk result (λ n. n ≡ spec.type_names (scope_view.members members.now)) }
{
    let mut found = FirstPlaces::new(alloc);
    for member in members {
        add_type_name(&mut found, member)?;
    }
    Ok(found)
}

/// Adds a member's name where it is one of a type.
fn add_world_type_name<'a>(
    found: &mut FirstPlaces<'a>,
    member: &WorldMember<'a>,
) -> Result<(), AllocError>
    ensures { OnOk result (found.new ≡ found.old ++ spec.world_type_name (scope_view.world_member member.now)) }
{
    match member {
        WorldMember::Member(member) => add_type_name(found, member),
        WorldMember::Listed(_) | WorldMember::Included(_) => Ok(()),
    }
}

/// The names of the own types of a world.
fn world_type_names<'a>(
    alloc: Global,
    members: &[WorldMember<'a>],
) -> Result<FirstPlaces<'a>, AllocError>
    ensures { IfOk result (λ n. n ≡ spec.world_type_names (map scope_view.world_member members.now)) }
{
    let mut found = FirstPlaces::new(alloc);
    for member in members {
        add_world_type_name(&mut found, member)?;
    }
    Ok(found)
}

/// The names of the types of an interface or a world.
fn item_type_names<'a>(alloc: Global, item: &ItemScope<'a>) -> Result<FirstPlaces<'a>, AllocError>
    ensures { IfOk result (λ n. n ≡ spec.item_type_names (scope_view.item_scope item.now)) }
{
    match item {
        ItemScope::Interface(interface) => type_names(alloc, interface.members.as_slice()),
        ItemScope::World(world) => world_type_names(alloc, world.members.as_slice()),
    }
}

/// The name of an interface or a world.
fn item_name<'a>(item: &ItemScope<'a>) -> &'a str
    ensures { result.now ≡ spec.item_name (scope_view.item_scope item.now) }
{
    match item {
        ItemScope::Interface(interface) => interface.name.name,
        ItemScope::World(world) => world.name.name,
    }
}

/// Adds a member's name where it is one of a function that belongs to no resource.
fn add_other_name<'a>(found: &mut Vec<&'a str>, member: &Member<'a>) -> Result<(), AllocError>
    ensures { OnOk result (seen.texts found.new.items ≡ seen.texts found.old.items ++ spec.member_other_name (scope_view.member member.now)) }
{
    if let MemberKind::Function(_) = member.kind {
        found.push(member.name.name)?;
    }
    Ok(())
}

/// The names in an interface of what is no type.
pub fn other_names<'a>(alloc: Global, members: &[Member<'a>]) -> Result<Vec<&'a str>, AllocError>
    ensures { IfOk result (λ v. seen.texts v.items ≡ spec.other_names (scope_view.members members.now)) }
{
    let mut found = Vec::new(alloc);
    for member in members {
        add_other_name(&mut found, member)?;
    }
    Ok(found)
}

/// Whether a name is one of these.
pub fn is_one_of(names: &[&str], name: &str) -> bool
    ensures { result ≡ list_any (λ n. bytes_eq name.now n.now) names.now }
{
    names.iter().any(|one| name == *one)
}

/// Whether these names have that one.
pub fn has_name(names: &FirstPlaces<'_>, name: &str) -> bool
    ensures { result ≡ spec.has names.now name.now }
{
    names.first(name).is_some()
}

/// Adds the label of an import or export.
fn add_label<'a>(found: &mut Vec<&'a str>, listed: &Listed<'a>) -> Result<(), AllocError>
    ensures { OnOk result (seen.texts found.new.items ≡ seen.texts found.old.items ++ spec.listed_names (scope_view.listed listed.now)) }
{
    match &listed.kind {
        ExternKind::Function(_) | ExternKind::Interface(_) => {
            found.push(listed.name.name)?;
            Ok(())
        }
        ExternKind::Item(_) => Ok(()),
    }
}

/// Adds a member's name where it is none of a type.
fn add_world_other_name<'a>(
    found: &mut Vec<&'a str>,
    member: &WorldMember<'a>,
) -> Result<(), AllocError>
    ensures { OnOk result (seen.texts found.new.items ≡ seen.texts found.old.items ++ spec.world_other_name (scope_view.world_member member.now)) }
{
    match member {
        WorldMember::Member(member) => add_other_name(found, member),
        WorldMember::Listed(listed) => add_label(found, listed),
        WorldMember::Included(_) => Ok(()),
    }
}

/// The names in a world of what is no type.
pub fn world_other_names<'a>(
    alloc: Global,
    members: &[WorldMember<'a>],
) -> Result<Vec<&'a str>, AllocError>
    ensures { IfOk result (λ v. seen.texts v.items ≡ spec.world_other_names (map scope_view.world_member members.now)) }
{
    let mut found = Vec::new(alloc);
    for member in members {
        add_world_other_name(&mut found, member)?;
    }
    Ok(found)
}

/// The names that `use` statements at the top of a file make known in it.
fn file_known_names<'a>(
    alloc: Global,
    uses: &[ToplevelUse<'a>],
) -> Result<FirstPlaces<'a>, AllocError>
    ensures { IfOk result (λ n. n ≡ spec.known_names (map view.toplevel_use uses.now)) }
{
    let mut found = FirstPlaces::new(alloc);
    for item in uses {
        found.push(known_name(item).name)?;
    }
    Ok(found)
}

/// The names that `use` statements make known in each file.
pub fn known_names<'a>(
    alloc: Global,
    files: &[Vec<ToplevelUse<'a>>],
) -> Result<Vec<FirstPlaces<'a>>, AllocError>
    ensures { IfOk result (λ v. v.items ≡ map spec.known_names (scope_view.uses files.now)) }
{
    let mut found = Vec::new(alloc);
    for uses in files {
        let names = file_known_names(alloc, uses.as_slice())?;
        found.push(names)?;
    }
    Ok(found)
}

/// The names of the interfaces and worlds of a package, and of the types of each.
#[derive(Drop)]
pub struct PackageNames<'a> {
    /// The names of the interfaces and worlds, in their order.
    pub items: FirstPlaces<'a>,
    /// The names of the types of each of them.
    pub types: Vec<FirstPlaces<'a>>,
}

/// The names of these interfaces and worlds, and of their types.
pub fn package_names<'a>(
    alloc: Global,
    scopes: &[ItemScope<'a>],
) -> Result<PackageNames<'a>, AllocError>
    ensures { IfOk result (seen.AreNames (map scope_view.item_scope scopes.now)) }
{
    let mut items = FirstPlaces::with_capacity(alloc, scopes.len())?;
    let mut types = Vec::with_capacity(alloc, scopes.len())?;
    for scope in scopes {
        items.push(item_name(scope))?;
        types.push(item_type_names(alloc, scope)?)?;
    }
    Ok(PackageNames { items, types })
}
