//! The results that constructors declare.

ghost use Rattle.std.specs.Prelude.{◌≡◌, Some, map, option_map, OnOk, IfErr};
ghost use Rattle.wit_rules.specs.Passed.wit_syntax-AstView as view;
ghost use Rattle.wit_rules.specs.Passed.wit_productions-TypeView.{type_tree, type_shape};
ghost use Rattle.wit_arena.specs.Passed.wit_type_names-TypeView.{part_tree};
ghost use Rattle.wit_rules.specs.Passed.wit_scopes-View as scope_view;
ghost use Rattle.wit_rules.specs.Breaks.{IsKept, IsFaultOf};
ghost use Rattle.wit_resources.specs.Results as spec;
ghost use Rattle.wit_resources.specs.Rules.{ConstructorBreaks, DeclaresOther};

use name_places::FirstPlaces;
use wit_rules::{Id, Member, MemberKind, PackageFault, PackageRule, Type, TypeDefKind, TypeKind};

/// Whether a type is a resource by its name, or the reference that owns it.
fn owns(ty: &TypeKind<'_>, resource: &str) -> bool
    ensures { result ≡ spec.shape_owns resource.now (type_shape ty.now) }
{
    match ty {
        TypeKind::Name(name) | TypeKind::Own(name) => resource == name.name,
        _ => false,
    }
}

/// Whether a part that may be missing is so.
fn part_owns(part: &Option<Box<Type<'_>>>, resource: &str) -> bool
    ensures { result ≡ spec.part_owns resource.now (part_tree part.now) }
{
    match part {
        Some(ty) => owns(&ty.kind, resource),
        None => false,
    }
}

/// Whether a type is a `result` of a resource.
fn is_result_of(ty: &TypeKind<'_>, resource: &str) -> bool
    ensures { result ≡ spec.shape_results resource.now (type_shape ty.now) }
{
    match ty {
        TypeKind::Result { ok, .. } => part_owns(ok, resource),
        _ => false,
    }
}

/// Whether a definition is directly a `result` of a resource.
fn is_alias_of_result(kind: &TypeDefKind<'_>, resource: &str) -> bool
    ensures { result ≡ spec.kind_defines resource.now (view.type_def_kind kind.now) }
{
    match kind {
        TypeDefKind::Alias(ty) => is_result_of(&ty.kind, resource),
        _ => false,
    }
}

/// Whether a member directly defines a `result` of a resource.
fn defines_result(member: &Member<'_>, resource: &str) -> bool
    ensures { result ≡ spec.member_defines resource.now (Some (scope_view.member member.now)) }
{
    match &member.kind {
        MemberKind::Defined(kind) => is_alias_of_result(kind, resource),
        _ => false,
    }
}

/// The type of a name.
fn type_named<'s, 'a>(
    types: &'s [Member<'a>],
    names: &FirstPlaces<'_>,
    name: &str,
) -> Option<&'s Member<'a>>
    requires { names.now ≡ map (λ m. m.name.text) (scope_view.members types.now) }
    ensures { option_map (λ m. scope_view.member m.now) result ≡ spec.type_named (scope_view.members types.entry.now) name.now }
{
    let place = names.first(name)?;
    types.get(place)
}

/// Whether a type is the name of a type that directly defines a `result` of a resource.
fn names_result(
    ty: &TypeKind<'_>,
    types: &[Member<'_>],
    names: &FirstPlaces<'_>,
    resource: &str,
) -> bool
    requires { names.now ≡ map (λ m. m.name.text) (scope_view.members types.now) }
    ensures { result ≡ spec.name_defines (scope_view.members types.now) resource.now (type_shape ty.now) }
{
    let TypeKind::Name(name) = ty else {
        return false;
    };
    match type_named(types, names, name.name) {
        Some(member) => defines_result(member, resource),
        None => false,
    }
}

/// Refuses a result of a constructor of a resource that is neither a `result` of it nor the name of a type that directly
/// defines one.
fn check_declared(
    types: &[Member<'_>],
    names: &FirstPlaces<'_>,
    resource: &Id<'_>,
    ty: &Type<'_>,
) -> Result<(), PackageFault>
    requires { names.now ≡ map (λ m. m.name.text) (scope_view.members types.now) }
    ensures ok { OnOk result (IsKept (ConstructorBreaks (scope_view.members types.now) (view.id resource.now) (type_tree ty.now))) }
    ensures cause { IfErr result (IsFaultOf (ConstructorBreaks (scope_view.members types.now) (view.id resource.now) (type_tree ty.now))) }
{
    let is_result = is_result_of(&ty.kind, resource.name);
    let is_name_of_one = names_result(&ty.kind, types, names, resource.name);
    if is_result | is_name_of_one {
        return Ok(());
    }
    Err(PackageFault::Broken {
        rule: PackageRule::BadConstructor,
        span: ty.span,
    })
}

/// Refuses a constructor that declares another result than a `result` of its resource, or the name of a type that directly
/// defines one. These are the types of its scope, by these names.
pub fn check_constructor(
    types: &[Member<'_>],
    names: &FirstPlaces<'_>,
    kind: &MemberKind<'_>,
) -> Result<(), PackageFault>
    requires { names.now ≡ map (λ m. m.name.text) (scope_view.members types.now) }
    ensures ok { OnOk result (IsKept (DeclaresOther (scope_view.members types.now) (scope_view.member_kind kind.now))) }
    ensures cause { IfErr result (IsFaultOf (DeclaresOther (scope_view.members types.now) (scope_view.member_kind kind.now))) }
{
    match kind {
        MemberKind::Constructor { resource, func } => match &func.result {
            Some(ty) => check_declared(types, names, resource, ty),
            None => Ok(()),
        },
        _ => Ok(()),
    }
}
