//! The types of a scope.

ghost use Rattle.std.specs.Prelude.{◌≡◌, [], map, IfOk};
ghost use Rattle.wit_rules.specs.Passed.wit_scopes-View as scope_view;
ghost use Rattle.wit_package_types.specs.Stability.{AreGates};
ghost use Rattle.wit_package_types.specs.Fill as spec;

use crate::known::Known;
use crate::stability::stability_in;
use std::alloc::AllocError;
use wit_arena::{Table, Types, docs_of, lower_kind};
use wit_rules::{Member, MemberKind};
use wit_types::{Type, TypeDef, TypeDefKind, TypeId, TypeOwner};

/// What a type of a scope is in the arena, behind the types that stand in it.
fn kind_in<'a>(
    types: &mut Types,
    known: &Known<'a>,
    table: &Table<'a>,
    kind: &MemberKind<'a>,
) -> Result<TypeDefKind, AllocError>
    requires { spec.IsFound known.now (spec.names_of table.now) (scope_view.member_kind kind.now) }
    ensures { IfOk result (λ k. spec.GivesKind known.now table.now types.old (scope_view.member_kind kind.now) types.new k) }
{
    match kind {
        MemberKind::Defined(kind) => Ok(lower_kind(types, table, kind)?),
        MemberKind::Used { from, name } => match known.get(from, name) {
            Some(id) => Ok(TypeDefKind::Alias(Type::Id(id))),
            None => unreachable!(),
        },
        _ => unreachable!(),
    }
}

/// Adds a type of a scope, behind the types that stand in it.
fn define_type<'a>(
    types: &mut Types,
    known: &Known<'a>,
    table: &Table<'a>,
    owner: &TypeOwner,
    member: &Member<'a>,
) -> Result<TypeId, AllocError>
    requires found { spec.IsFound known.now (spec.names_of table.now) (scope_view.member_kind member.now.kind) }
    requires gates { AreGates (scope_view.member member.now).attributes }
    ensures { IfOk result (λ i. spec.Defines known.now table.now owner.now types.old (scope_view.member member.now) types.new i) }
{
    let kind = kind_in(types, known, table, &member.kind)?;
    let name = String::from_str(types.allocator(), member.name.name)?;
    let docs = docs_of(types.allocator(), &member.front.docs)?;
    let stability = stability_in(types.allocator(), &member.front)?;
    types.define(TypeDef {
        name: Some(name),
        kind,
        owner: *owner,
        docs,
        stability,
        span: member.name.span,
    })
}

/// A table in which nothing stands; in it and among the types is room for so many more.
fn table_with_room<'a>(types: &mut Types, count: usize) -> Result<Table<'a>, AllocError>
    ensures none { IfOk result (λ t. t ≡ []) }
    ensures kept { types.new ≡ types.old }
{
    types.reserve(count)?;
    Table::with_capacity(types.allocator(), count)
}

/// The types of a scope, of which each stands behind those that it names: adds them to the arena, and answers where each
/// stands by its name. What `use` takes is known, and no name stands twice.
pub fn fill_types<'a>(
    types: &mut Types,
    known: &Known<'a>,
    owner: TypeOwner,
    members: &[Member<'a>],
) -> Result<Table<'a>, AllocError>
    requires { spec.AreFillable known.now (scope_view.members members.now) }
    ensures { IfOk result (spec.Fills known.now owner types.old (scope_view.members members.now) types.new) }
{
    let mut table = table_with_room(types, members.len())?;
    for member in members {
        let id = define_type(types, known, &table, &owner, member)?;
        table.add(member.name.name, id)?;
    }
    Ok(table)
}
