//! What worlds declare.

ghost use Rattle.std.specs.Prelude.{◌≡◌, List, ◌++◌, ◌∷◌, [], map, IfOk, OnOk};
ghost use Rattle.wit_syntax.specs.Ast.{ToplevelUseTree};
ghost use Rattle.wit_syntax.specs.AstView as view;
ghost use Rattle.wit_scopes.specs.Members.{type_members, uses_members};
ghost use Rattle.wit_scopes.specs.Scopes as spec;
ghost use Rattle.wit_scopes.specs.View as seen;

use crate::members::{add_members, add_type, add_uses};
use std::alloc::{AllocError, Global};
use std::rc::Rc;
use wit_scopes::{
    ExternKind, FileUses, Front, Included, Listed, Member, Side, WorldMember, last_name, push_to,
};
use wit_syntax::{
    Attribute, ExternKind as ExternSyntax, Func, Gated, Id, Include, Interface, NamedFunc, Span,
    TypeDef, Use, WorldItem,
};

/// What stands behind `import` or `export`, by its label or the last name of its path.
fn extern_of<'a>(
    alloc: Global,
    uses: &FileUses<'a>,
    item: ExternSyntax<'a>,
) -> Result<(Id<'a>, ExternKind<'a>), AllocError>
    ensures name { IfOk result (λ r. view.id r.0 ≡ spec.extern_name (view.extern_kind item.entry)) }
    ensures kind { (us : List ToplevelUseTree) → seen.AreUses (view.package_name uses.now.me) us uses.now → IfOk result (λ r. seen.extern_kind r.1 ≡ spec.extern_kind (view.package_name uses.now.me) us (view.extern_kind item.entry)) }
{
    match item {
        ExternSyntax::Func(NamedFunc { name, func }) => {
            let func = Rc::new(alloc, func)?;
            Ok((name, ExternKind::Function(func)))
        }
        ExternSyntax::Interface(Interface { name, items }) => {
            let mut members = Vec::new(alloc);
            add_members(alloc, &mut members, uses, items)?;
            Ok((name, ExternKind::Interface(members)))
        }
        ExternSyntax::Path(path) => {
            let name = last_name(&path);
            Ok((name, ExternKind::Item(uses.target(&path))))
        }
    }
}

/// Adds members of a scope to those of a world.
fn add_plain<'a>(
    found: &mut Vec<WorldMember<'a>>,
    members: Vec<Member<'a>>,
) -> Result<(), AllocError>
    ensures { OnOk result (map seen.world_member found.new.items ≡ map seen.world_member found.old.items ++ map spec.member (seen.members members.entry.items)) }
{
    for member in members {
        push_to(found, WorldMember::Member(member))?;
    }
    Ok(())
}

/// Adds an import or export.
fn add_listed<'a>(
    alloc: Global,
    found: &mut Vec<WorldMember<'a>>,
    uses: &FileUses<'a>,
    front: Front<'a>,
    at: (Side, Span),
    item: ExternSyntax<'a>,
) -> Result<(), AllocError>
    ensures { (us : List ToplevelUseTree) → seen.AreUses (view.package_name uses.now.me) us uses.now → OnOk result (map seen.world_member found.new.items ≡ map seen.world_member found.old.items ++ spec.listed (spec.listed_of (view.package_name uses.now.me) us (seen.front front.entry at.1) at.0 (view.extern_kind item.entry)) ∷ []) }
{
    let (side, span) = at;
    let (name, kind) = extern_of(alloc, uses, item)?;
    let front = Rc::new(alloc, front)?;
    push_to(
        found,
        WorldMember::Listed(Listed {
            side,
            name,
            kind,
            front,
            span,
        }),
    )
}

/// Adds the names that a `use` takes.
fn add_used<'a>(
    alloc: Global,
    found: &mut Vec<WorldMember<'a>>,
    uses: &FileUses<'a>,
    attributes: Vec<Attribute<'a>>,
    item: &Use<'a>,
) -> Result<(), AllocError>
    ensures { (us : List ToplevelUseTree) → seen.AreUses (view.package_name uses.now.me) us uses.now → OnOk result (map seen.world_member found.new.items ≡ map seen.world_member found.old.items ++ map spec.member (uses_members (view.package_name uses.now.me) us (map view.attribute attributes.entry.items) (view.uses item.now))) }
{
    let mut members = Vec::new(alloc);
    add_uses(alloc, &mut members, uses, attributes, item)?;
    add_plain(found, members)
}

/// Adds a definition of a type and, of a resource, its functions.
fn add_defined<'a>(
    alloc: Global,
    found: &mut Vec<WorldMember<'a>>,
    front: Front<'a>,
    span: Span,
    def: TypeDef<'a>,
) -> Result<(), AllocError>
    ensures { OnOk result (map seen.world_member found.new.items ≡ map seen.world_member found.old.items ++ map spec.member (type_members (seen.front front.entry span) (view.type_def def.entry))) }
{
    let mut members = Vec::new(alloc);
    add_type(alloc, &mut members, front, span, def)?;
    add_plain(found, members)
}

/// Adds a world that is included.
fn add_included<'a>(
    alloc: Global,
    found: &mut Vec<WorldMember<'a>>,
    uses: &FileUses<'a>,
    front: Front<'a>,
    span: Span,
    include: Include<'a>,
) -> Result<(), AllocError>
    ensures { (us : List ToplevelUseTree) → seen.AreUses (view.package_name uses.now.me) us uses.now → OnOk result (map seen.world_member found.new.items ≡ map seen.world_member found.old.items ++ spec.included (spec.included_of (view.package_name uses.now.me) us (seen.front front.entry span) (view.include include.entry)) ∷ []) }
{
    let Include { from, names } = include;
    let front = Rc::new(alloc, front)?;
    push_to(
        found,
        WorldMember::Included(Included {
            world: uses.target(&from),
            names,
            front,
            span,
        }),
    )
}

/// Adds what an item of a world declares.
fn add_item<'a>(
    alloc: Global,
    found: &mut Vec<WorldMember<'a>>,
    uses: &FileUses<'a>,
    gated: Gated<'a, WorldItem<'a>>,
) -> Result<(), AllocError>
    ensures { (us : List ToplevelUseTree) → seen.AreUses (view.package_name uses.now.me) us uses.now → OnOk result (map seen.world_member found.new.items ≡ map seen.world_member found.old.items ++ spec.world_item_members (view.package_name uses.now.me) us (view.gated view.world_item gated.entry) (view.world_item gated.entry.item)) }
{
    let Gated {
        docs,
        attributes,
        item,
        span,
    } = gated;
    let front = Front { docs, attributes };
    match item {
        WorldItem::Import(item) => {
            add_listed(alloc, found, uses, front, (Side::Import, span), item)
        }
        WorldItem::Export(item) => {
            add_listed(alloc, found, uses, front, (Side::Export, span), item)
        }
        WorldItem::Include(include) => { add_included(alloc, found, uses, front, span, include) }
        WorldItem::Use(item) => add_used(alloc, found, uses, front.attributes, &item),
        WorldItem::TypeDef(def) => add_defined(alloc, found, front, span, def),
    }
}

/// All that the items of a world declare, in their order.
pub fn world_members<'a>(
    alloc: Global,
    uses: &FileUses<'a>,
    items: Vec<Gated<'a, WorldItem<'a>>>,
) -> Result<Vec<WorldMember<'a>>, AllocError>
    ensures { (us : List ToplevelUseTree) → seen.AreUses (view.package_name uses.now.me) us uses.now → IfOk result (λ v. map seen.world_member v.items ≡ spec.world_members (view.package_name uses.now.me) us (map (view.gated view.world_item) items.entry.items)) }
{
    let mut found = Vec::new(alloc);
    for gated in items {
        add_item(alloc, &mut found, uses, gated)?;
    }
    Ok(found)
}
