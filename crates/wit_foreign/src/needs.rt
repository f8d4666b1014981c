//! What is asked for of other packages.

ghost use Rattle.std.specs.Prelude.{◌≡◌, ◌++◌, map, flat_map, option_map, IfOk, OnOk};
ghost use Rattle.wit_lookups.specs.Passed.wit_syntax-AstView as view;
ghost use Rattle.wit_lookups.specs.Passed.wit_scopes-View as scope_view;
ghost use Rattle.wit_foreign.specs.Needs as spec;
ghost use Rattle.wit_foreign.specs.View as seen;

use std::alloc::{AllocError, Global};
use std::rc::Rc;
use wit_lookups::{
    Asked, ExternKind, Front, Id, ItemScope, Listed, Member, MemberKind, PackageName, Target,
    WorldMember,
};

/// An interface or a world of another package that is asked for.
#[derive(Drop)]
pub struct Need<'a> {
    /// The package.
    pub package: PackageName<'a>,
    /// The name in it.
    pub item: Id<'a>,
    /// As what it is asked for.
    pub asked: Asked,
    /// The type that is used from it, by its name there.
    pub name: Option<Id<'a>>,
    /// What stands in front of the `use`, `import`, `export` or `include`.
    pub front: Rc<Front<'a>>,
}

impl<'a> Clone for Need<'a> {
    ghost use Rattle.wit_foreign.specs.View.{need};

    ghost is_clone = { λ of copy. need copy ≡ need of };

    fn clone(&self) -> Result<Need<'a>, AllocError> {
        let front = self.front.clone()?;
        Ok(Need {
            package: self.package,
            item: self.item,
            asked: self.asked,
            name: self.name,
            front,
        })
    }
}

/// Adds what a path asks for of another package.
fn add_path<'a>(
    found: &mut Vec<Need<'a>>,
    asked: Asked,
    path: &Target<'a>,
    name: Option<Id<'a>>,
    front: &Rc<Front<'a>>,
) -> Result<(), AllocError>
    ensures { OnOk result (seen.needs found.new.items ≡ seen.needs found.old.items ++ spec.path_needs asked (option_map view.id name.entry) (map view.attribute front.now.value.attributes.items) (scope_view.target path.now)) }
{
    if let Target::Foreign {
        package,
        name: item,
    } = path
    {
        let front = front.clone()?;
        found.push(Need {
            package: *package,
            item: *item,
            asked,
            name,
            front,
        })?;
    }
    Ok(())
}

/// Adds what a member asks for of another package.
fn add_member<'a>(found: &mut Vec<Need<'a>>, member: &Member<'a>) -> Result<(), AllocError>
    ensures { OnOk result (seen.needs found.new.items ≡ seen.needs found.old.items ++ spec.member_needs (scope_view.member member.now)) }
{
    match &member.kind {
        MemberKind::Used { from, name } => add_path(
            found,
            Asked::Interface,
            from,
            Some(*name),
            &member.front,
        ),
        _ => Ok(()),
    }
}

/// Adds what the members of an interface ask for of other packages.
fn add_members<'a>(found: &mut Vec<Need<'a>>, members: &[Member<'a>]) -> Result<(), AllocError>
    ensures { OnOk result (seen.needs found.new.items ≡ seen.needs found.old.items ++ flat_map spec.member_needs (scope_view.members members.now)) }
{
    for member in members {
        add_member(found, member)?;
    }
    Ok(())
}

/// Adds what an import or export asks for of other packages.
fn add_listed<'a>(found: &mut Vec<Need<'a>>, listed: &Listed<'a>) -> Result<(), AllocError>
    ensures { OnOk result (seen.needs found.new.items ≡ seen.needs found.old.items ++ spec.extern_needs (map view.attribute listed.now.front.value.attributes.items) (scope_view.extern_kind listed.now.kind)) }
{
    match &listed.kind {
        ExternKind::Function(_) => Ok(()),
        ExternKind::Interface(members) => add_members(found, members.as_slice()),
        ExternKind::Item(path) => add_path(found, Asked::Interface, path, None, &listed.front),
    }
}

/// Adds what a member of a world asks for of other packages.
fn add_world_member<'a>(
    found: &mut Vec<Need<'a>>,
    member: &WorldMember<'a>,
) -> Result<(), AllocError>
    ensures { OnOk result (seen.needs found.new.items ≡ seen.needs found.old.items ++ spec.world_member_needs (scope_view.world_member member.now)) }
{
    match member {
        WorldMember::Member(member) => add_member(found, member),
        WorldMember::Listed(listed) => add_listed(found, listed),
        WorldMember::Included(included) => add_path(
            found,
            Asked::World,
            &included.world,
            None,
            &included.front,
        ),
    }
}

/// Adds what the members of a world ask for of other packages.
fn add_world_members<'a>(
    found: &mut Vec<Need<'a>>,
    members: &[WorldMember<'a>],
) -> Result<(), AllocError>
    ensures { OnOk result (seen.needs found.new.items ≡ seen.needs found.old.items ++ flat_map spec.world_member_needs (map scope_view.world_member members.now)) }
{
    for member in members {
        add_world_member(found, member)?;
    }
    Ok(())
}

/// Adds what an interface or a world asks for of other packages.
fn add_item<'a>(found: &mut Vec<Need<'a>>, item: &ItemScope<'a>) -> Result<(), AllocError>
    ensures { OnOk result (seen.needs found.new.items ≡ seen.needs found.old.items ++ spec.item_needs (scope_view.item_scope item.now)) }
{
    match item {
        ItemScope::Interface(interface) => add_members(found, interface.members.as_slice()),
        ItemScope::World(world) => add_world_members(found, world.members.as_slice()),
    }
}

/// What the interfaces and worlds of a package ask for of other packages, in the order of the text: an interface where a
/// world imports or exports it and, for each type that is used from it, once more with the type; a world where another
/// includes it.
pub fn foreign_needs<'a>(
    alloc: Global,
    scopes: &[ItemScope<'a>],
) -> Result<Vec<Need<'a>>, AllocError>
    ensures needs { IfOk result (λ v. seen.needs v.items ≡ spec.needs_in (map scope_view.item_scope scopes.now)) }
    ensures uses { IfOk result (λ v. spec.AreUses (seen.needs v.items)) }
{
    let mut found = Vec::new(alloc);
    for scope in scopes {
        add_item(&mut found, scope)?;
    }
    Ok(found)
}
