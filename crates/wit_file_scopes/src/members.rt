//! What interfaces declare.

ghost use Rattle.std.specs.Prelude.{◌≡◌, List, ◌++◌, ◌∷◌, [], map, IfOk, OnOk};
ghost use Rattle.wit_syntax.specs.Ast.{ToplevelUseTree};
ghost use Rattle.wit_syntax.specs.AstView as view;
ghost use Rattle.wit_scopes.specs.Members as spec;
ghost use Rattle.wit_scopes.specs.View as seen;

use std::alloc::{AllocError, Global};
use std::rc::Rc;
use wit_scopes::{FileUses, Front, Member, MemberKind, Target, push_to};
use wit_syntax::{
    Attribute, Docs, Func, Gated, Id, InterfaceItem, NamedFunc, ResourceFunc, Span, TypeDef,
    TypeDefKind, Use, UseName,
};

/// Adds a name that a `use` takes.
fn add_name<'a>(
    found: &mut Vec<Member<'a>>,
    from: Target<'a>,
    front: &Rc<Front<'a>>,
    taken: &UseName<'a>,
) -> Result<(), AllocError>
    requires { view.docs front.now.value.docs ≡ [] }
    ensures { OnOk result (seen.members found.new.items ≡ seen.members found.old.items ++ spec.used_member (seen.target from.entry) (map view.attribute front.now.value.attributes.items) (view.use_name taken.now) ∷ []) }
{
    let name = taken.as_.unwrap_or(taken.name);
    let front = front.clone()?;
    push_to(
        found,
        Member {
            name,
            kind: MemberKind::Used {
                from,
                name: taken.name,
            },
            front,
            span: name.span,
        },
    )
}

/// Adds the names that a `use` takes.
fn add_names<'a>(
    found: &mut Vec<Member<'a>>,
    from: Target<'a>,
    front: &Rc<Front<'a>>,
    names: &[UseName<'a>],
) -> Result<(), AllocError>
    requires { view.docs front.now.value.docs ≡ [] }
    ensures { OnOk result (seen.members found.new.items ≡ seen.members found.old.items ++ map (spec.used_member (seen.target from.entry) (map view.attribute front.now.value.attributes.items)) (map view.use_name names.now)) }
{
    for taken in names {
        add_name(found, from, front, taken)?;
    }
    Ok(())
}

/// Adds the names that a `use` takes, with the attributes in front of it.
pub fn add_uses<'a>(
    alloc: Global,
    found: &mut Vec<Member<'a>>,
    uses: &FileUses<'a>,
    attributes: Vec<Attribute<'a>>,
    item: &Use<'a>,
) -> Result<(), AllocError>
    ensures { (us : List ToplevelUseTree) → seen.AreUses (view.package_name uses.now.me) us uses.now → OnOk result (seen.members found.new.items ≡ seen.members found.old.items ++ spec.uses_members (view.package_name uses.now.me) us (map view.attribute attributes.entry.items) (view.uses item.now)) }
{
    let docs = Docs {
        comments: Vec::new(alloc),
    };
    let front = Rc::new(alloc, Front { docs, attributes })?;
    add_names(
        found,
        uses.target(&item.from),
        &front,
        item.names.as_slice(),
    )
}

/// What a function of a resource is, by the name that it has: a constructor's is that of its resource.
fn resource_kind<'a>(
    alloc: Global,
    resource: Id<'a>,
    func: ResourceFunc<'a>,
) -> Result<(Id<'a>, MemberKind<'a>), AllocError>
    ensures name { IfOk result (λ r. view.id r.0 ≡ spec.resource_member_name (view.id resource.entry) (view.resource_func func.entry)) }
    ensures kind { IfOk result (λ r. seen.member_kind r.1 ≡ spec.resource_member_kind (view.id resource.entry) (view.resource_func func.entry)) }
{
    match func {
        ResourceFunc::Constructor { params, result } => {
            let func = Func {
                async_: false,
                params,
                result,
            };
            let func = Rc::new(alloc, func)?;
            Ok((resource, MemberKind::Constructor { resource, func }))
        }
        ResourceFunc::Method(NamedFunc { name, func }) => {
            let func = Rc::new(alloc, func)?;
            Ok((name, MemberKind::Method { resource, func }))
        }
        ResourceFunc::Static(NamedFunc { name, func }) => {
            let func = Rc::new(alloc, func)?;
            Ok((name, MemberKind::Static { resource, func }))
        }
    }
}

/// A function of a resource, as a member of its scope.
fn resource_member<'a>(
    alloc: Global,
    resource: Id<'a>,
    gated: Gated<'a, ResourceFunc<'a>>,
) -> Result<Member<'a>, AllocError>
    ensures { IfOk result (λ m. seen.member m ≡ spec.resource_member (view.id resource.entry) (view.gated view.resource_func gated.entry)) }
{
    let Gated {
        docs,
        attributes,
        item,
        span,
    } = gated;
    let front = Rc::new(alloc, Front { docs, attributes })?;
    let (name, kind) = resource_kind(alloc, resource, item)?;
    Ok(Member {
        name,
        kind,
        front,
        span,
    })
}

/// Adds the functions of a resource.
fn add_functions<'a>(
    alloc: Global,
    found: &mut Vec<Member<'a>>,
    resource: Id<'a>,
    funcs: Vec<Gated<'a, ResourceFunc<'a>>>,
) -> Result<(), AllocError>
    ensures { OnOk result (seen.members found.new.items ≡ seen.members found.old.items ++ map (spec.resource_member (view.id resource.entry)) (map (view.gated view.resource_func) funcs.entry.items)) }
{
    for gated in funcs {
        let member = resource_member(alloc, resource, gated)?;
        push_to(found, member)?;
    }
    Ok(())
}

/// A definition without the functions of a resource, and these.
fn parted<'a>(
    alloc: Global,
    kind: TypeDefKind<'a>,
) -> (TypeDefKind<'a>, Vec<Gated<'a, ResourceFunc<'a>>>)
    ensures kind { view.type_def_kind result.0 ≡ spec.without_functions (view.type_def_kind kind.entry) }
    ensures functions { map (view.gated view.resource_func) result.1.items ≡ spec.resource_funcs (view.type_def_kind kind.entry) }
{
    match kind {
        TypeDefKind::Resource(funcs) => (TypeDefKind::Resource(Vec::new(alloc)), funcs),
        TypeDefKind::Alias(ty) => (TypeDefKind::Alias(ty), Vec::new(alloc)),
        TypeDefKind::Record(fields) => (TypeDefKind::Record(fields), Vec::new(alloc)),
        TypeDefKind::Flags(flags) => (TypeDefKind::Flags(flags), Vec::new(alloc)),
        TypeDefKind::Enum(cases) => (TypeDefKind::Enum(cases), Vec::new(alloc)),
        TypeDefKind::Variant(cases) => (TypeDefKind::Variant(cases), Vec::new(alloc)),
    }
}

/// Adds a definition of a type by itself.
fn add_definition<'a>(
    alloc: Global,
    found: &mut Vec<Member<'a>>,
    front: Front<'a>,
    span: Span,
    name: Id<'a>,
    kind: TypeDefKind<'a>,
) -> Result<(), AllocError>
    ensures { OnOk result (seen.members found.new.items ≡ seen.members found.old.items ++ spec.member_of (seen.front front.entry span) (view.id name.entry) (spec.defined (view.type_def_kind kind.entry)) ∷ []) }
{
    let kind = MemberKind::Defined(Rc::new(alloc, kind)?);
    let front = Rc::new(alloc, front)?;
    push_to(
        found,
        Member {
            name,
            kind,
            front,
            span,
        },
    )
}

/// Adds a definition of a type and, of a resource, its functions.
pub fn add_type<'a>(
    alloc: Global,
    found: &mut Vec<Member<'a>>,
    front: Front<'a>,
    span: Span,
    def: TypeDef<'a>,
) -> Result<(), AllocError>
    ensures { OnOk result (seen.members found.new.items ≡ seen.members found.old.items ++ spec.type_members (seen.front front.entry span) (view.type_def def.entry)) }
{
    let TypeDef { name, kind } = def;
    let (kind, funcs) = parted(alloc, kind);
    add_definition(alloc, found, front, span, name, kind)?;
    add_functions(alloc, found, name, funcs)
}

/// Adds a function.
fn add_function<'a>(
    alloc: Global,
    found: &mut Vec<Member<'a>>,
    front: Front<'a>,
    span: Span,
    named: NamedFunc<'a>,
) -> Result<(), AllocError>
    ensures { OnOk result (seen.members found.new.items ≡ seen.members found.old.items ++ spec.member_of (seen.front front.entry span) (view.named_func named.entry).name (spec.function (view.named_func named.entry).func) ∷ []) }
{
    let NamedFunc { name, func } = named;
    let kind = MemberKind::Function(Rc::new(alloc, func)?);
    let front = Rc::new(alloc, front)?;
    push_to(
        found,
        Member {
            name,
            kind,
            front,
            span,
        },
    )
}

/// Adds what an item of an interface declares.
fn add_item<'a>(
    alloc: Global,
    found: &mut Vec<Member<'a>>,
    uses: &FileUses<'a>,
    gated: Gated<'a, InterfaceItem<'a>>,
) -> Result<(), AllocError>
    ensures { (us : List ToplevelUseTree) → seen.AreUses (view.package_name uses.now.me) us uses.now → OnOk result (seen.members found.new.items ≡ seen.members found.old.items ++ spec.interface_item_members (view.package_name uses.now.me) us (view.gated view.interface_item gated.entry) (view.interface_item gated.entry.item)) }
{
    let Gated {
        docs,
        attributes,
        item,
        span,
    } = gated;
    match item {
        InterfaceItem::Use(item) => add_uses(alloc, found, uses, attributes, &item),
        InterfaceItem::TypeDef(def) => {
            add_type(alloc, found, Front { docs, attributes }, span, def)
        }
        InterfaceItem::Func(named) => {
            add_function(alloc, found, Front { docs, attributes }, span, named)
        }
    }
}

/// Adds all that the items of an interface declare, in their order.
pub fn add_members<'a>(
    alloc: Global,
    found: &mut Vec<Member<'a>>,
    uses: &FileUses<'a>,
    items: Vec<Gated<'a, InterfaceItem<'a>>>,
) -> Result<(), AllocError>
    ensures { (us : List ToplevelUseTree) → seen.AreUses (view.package_name uses.now.me) us uses.now → OnOk result (seen.members found.new.items ≡ seen.members found.old.items ++ spec.interface_members (view.package_name uses.now.me) us (map (view.gated view.interface_item) items.entry.items)) }
{
    for gated in items {
        add_item(alloc, found, uses, gated)?;
    }
    Ok(())
}
