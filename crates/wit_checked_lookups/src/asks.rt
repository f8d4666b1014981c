//! What is asked for of other packages.

ghost use Rattle.std.specs.Prelude.{◌≡◌, ◌++◌, map, flat_map, unwrap_or, bytes_eq, IfOk, OnOk, IfErr};
ghost use Rattle.wit_scopes.specs.View as scope_view;
ghost use Rattle.wit_rules.specs.Breaks.{IsKept, IsFaultOf};
ghost use Rattle.wit_lookups.specs.Lookups as spec;
ghost use Rattle.wit_checked_lookups.specs.AskView as seen;
ghost use Rattle.std.specs.HashMap.{get_by};
ghost use Rattle.wit_lookups.specs.Asking.{or_asked, asked_under};
ghost use Rattle.wit_lookups.specs.Names.{Name};

use indexmap::IndexMap;
use std::alloc::{AllocError, Global};
use std::borrow::CowStr;
use wit_lookups::Asked;
use wit_rules::{PackageFault, PackageRule, target_text};
use wit_scopes::{ExternKind, ItemScope, Member, MemberKind, Target, WorldMember};
use wit_syntax::Span;

/// Something of another package that is asked for.
#[derive(Drop)]
pub struct Ask<'a> {
    /// Its path in full: `namespace:package/name@version`.
    pub text: CowStr<'a>,
    /// As what it is asked for.
    pub asked: Asked,
    /// Where its name stands.
    pub span: Span,
}

/// Adds what a path asks for of another package.
fn add_path<'a>(
    alloc: Global,
    found: &mut Vec<Ask<'a>>,
    asked: Asked,
    path: &Target<'a>,
) -> Result<(), AllocError>
    ensures { OnOk result (map seen.ask found.new.items ≡ map seen.ask found.old.items ++ spec.path_asks asked (scope_view.target path.now)) }
{
    if let Target::Foreign { name, .. } = path {
        let text = target_text(alloc, path)?;
        found.push(Ask {
            text,
            asked,
            span: name.span,
        })?;
    }
    Ok(())
}

/// Adds what a member asks for of another package.
fn add_member<'a>(
    alloc: Global,
    found: &mut Vec<Ask<'a>>,
    member: &Member<'a>,
) -> Result<(), AllocError>
    ensures { OnOk result (map seen.ask found.new.items ≡ map seen.ask found.old.items ++ spec.member_asks (scope_view.member member.now)) }
{
    match &member.kind {
        MemberKind::Used { from, .. } => add_path(alloc, found, Asked::Interface, from),
        _ => Ok(()),
    }
}

/// Adds what the members of an interface ask for of other packages.
fn add_members<'a>(
    alloc: Global,
    found: &mut Vec<Ask<'a>>,
    members: &[Member<'a>],
) -> Result<(), AllocError>
    ensures { OnOk result (map seen.ask found.new.items ≡ map seen.ask found.old.items ++ flat_map spec.member_asks (scope_view.members members.now)) }
{
    for member in members {
        add_member(alloc, found, member)?;
    }
    Ok(())
}

/// Adds what stands behind `import` or `export` asks for of other packages.
fn add_extern<'a>(
    alloc: Global,
    found: &mut Vec<Ask<'a>>,
    kind: &ExternKind<'a>,
) -> Result<(), AllocError>
    ensures { OnOk result (map seen.ask found.new.items ≡ map seen.ask found.old.items ++ spec.extern_asks (scope_view.extern_kind kind.now)) }
{
    match kind {
        ExternKind::Function(_) => Ok(()),
        ExternKind::Interface(members) => add_members(alloc, found, members.as_slice()),
        ExternKind::Item(path) => add_path(alloc, found, Asked::Interface, path),
    }
}

/// Adds what a member of a world asks for of other packages.
fn add_world_member<'a>(
    alloc: Global,
    found: &mut Vec<Ask<'a>>,
    member: &WorldMember<'a>,
) -> Result<(), AllocError>
    ensures { OnOk result (map seen.ask found.new.items ≡ map seen.ask found.old.items ++ spec.world_member_asks (scope_view.world_member member.now)) }
{
    match member {
        WorldMember::Member(member) => add_member(alloc, found, member),
        WorldMember::Listed(listed) => add_extern(alloc, found, &listed.kind),
        WorldMember::Included(included) => add_path(alloc, found, Asked::World, &included.world),
    }
}

/// Adds what the members of a world ask for of other packages.
fn add_world_members<'a>(
    alloc: Global,
    found: &mut Vec<Ask<'a>>,
    members: &[WorldMember<'a>],
) -> Result<(), AllocError>
    ensures { OnOk result (map seen.ask found.new.items ≡ map seen.ask found.old.items ++ flat_map spec.world_member_asks (map scope_view.world_member members.now)) }
{
    for member in members {
        add_world_member(alloc, found, member)?;
    }
    Ok(())
}

/// Adds what an interface or a world asks for of other packages.
fn add_item<'a>(
    alloc: Global,
    found: &mut Vec<Ask<'a>>,
    item: &ItemScope<'a>,
) -> Result<(), AllocError>
    ensures { OnOk result (map seen.ask found.new.items ≡ map seen.ask found.old.items ++ spec.item_asks (scope_view.item_scope item.now)) }
{
    match item {
        ItemScope::Interface(interface) => add_members(alloc, found, interface.members.as_slice()),
        ItemScope::World(world) => add_world_members(alloc, found, world.members.as_slice()),
    }
}

/// What the interfaces and worlds of a package ask for of other packages, in their order: an interface where something is
/// used from it or a world imports or exports it, a world where another includes it.
pub fn foreign_asks<'a>(alloc: Global, scopes: &[ItemScope<'a>]) -> Result<Vec<Ask<'a>>, AllocError>
    ensures { IfOk result (λ v. map seen.ask v.items ≡ spec.asks_in (map scope_view.item_scope scopes.now)) }
{
    let mut found = Vec::new(alloc);
    for scope in scopes {
        add_item(alloc, &mut found, scope)?;
    }
    Ok(found)
}

/// As what something is asked for first, of what is known; where nothing is known of it, it is from now on.
fn first_asked<'t>(
    known: &mut IndexMap<&'t str, Asked>,
    text: &'t str,
    asked: Asked,
) -> Result<Asked, AllocError>
    ensures first { IfOk result (λ a. a ≡ unwrap_or (get_by (λ k. bytes_eq text.entry.now k.now) known.old) asked) }
    ensures known { OnOk result ((t : Name) → get_by (λ k. bytes_eq t k.now) known.new ≡ or_asked (get_by (λ k. bytes_eq t k.now) known.old) (asked_under text.entry.now asked t)) }
{
    let first = known.get(text).copied();
    match first {
        Some(first) => Ok(first),
        None => {
            known.insert(text, asked)?;
            Ok(asked)
        }
    }
}

/// Refuses where something is asked for as an interface and as a world.
pub fn check_asks(alloc: Global, asks: &[Ask<'_>]) -> Result<(), PackageFault>
    ensures ok { OnOk result (IsKept (spec.AsksBreak (map seen.ask asks.now))) }
    ensures cause { IfErr result (IsFaultOf (spec.AsksBreak (map seen.ask asks.now))) }
{
    let mut known: IndexMap<&str, Asked> = IndexMap::new(alloc);
    for ask in asks {
        let first = first_asked(&mut known, ask.text.as_str(), ask.asked)?;
        if first != ask.asked {
            return Err(PackageFault::Broken {
                rule: PackageRule::WrongKind,
                span: ask.span,
            });
        }
    }
    Ok(())
}
