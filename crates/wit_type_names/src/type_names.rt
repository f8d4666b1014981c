//! The names that stand in types, and which of them handles name.

ghost use Rattle.std.specs.Prelude.{◌≡◌, ◌∷◌, ◌++◌, [], map, option_map, IfOk, OnOk};
ghost use Rattle.wit_scopes.specs.Passed.wit_syntax-AstView as view;
ghost use Rattle.wit_scopes.specs.Passed.wit_productions-TypeTree.{TypeOption, opt, row, a_type};
ghost use Rattle.wit_scopes.specs.Passed.wit_productions-TypeView.{type_tree, type_shape};
ghost use Rattle.wit_type_names.specs.TypeNames as spec;
ghost use Rattle.wit_type_names.specs.TypeView.{part_tree};
ghost use Rattle.wit_scopes.specs.View as seen;

use std::alloc::{AllocError, Global};
use wit_scopes::{Case, Field, Func, Id, MemberKind, Param, Type, TypeDefKind, TypeKind};

/// The names that stand in types, from left to right.
#[derive(Drop)]
struct TypeNames<'a> {
    /// All of them.
    names: Vec<Id<'a>>,
    /// Those that `own` or `borrow` names.
    handles: Vec<Id<'a>>,
}

/// Adds the names that stand in a type, from left to right.
#[cycle(type_names)]
fn add_type_names<'a>(found: &mut TypeNames<'a>, ty: &Type<'a>) -> Result<(), AllocError>
    ensures names { OnOk result (map view.id found.new.names.items ≡ map view.id found.old.names.items ++ spec.names_in (type_tree ty.now)) }
    ensures handles { OnOk result (map view.id found.new.handles.items ≡ map view.id found.old.handles.items ++ spec.handles_in (type_tree ty.now)) }
{
    add_kind_names(found, &ty.kind)
}

/// Adds the names that stand in what a type is.
#[cycle(type_names)]
fn add_kind_names<'a>(found: &mut TypeNames<'a>, kind: &TypeKind<'a>) -> Result<(), AllocError>
    ensures names { OnOk result (map view.id found.new.names.items ≡ map view.id found.old.names.items ++ spec.names_in_shape (type_shape kind.now)) }
    ensures handles { OnOk result (map view.id found.new.handles.items ≡ map view.id found.old.handles.items ++ spec.handles_in_shape (type_shape kind.now)) }
{
    match kind {
        TypeKind::Name(name) => {
            found.names.push(*name)?;
            Ok(())
        }
        TypeKind::Own(name) | TypeKind::Borrow(name) => {
            found.names.push(*name)?;
            found.handles.push(*name)?;
            Ok(())
        }
        TypeKind::List(part) | TypeKind::FixedLengthList(part, _) | TypeKind::Option(part) => {
            add_type_names(found, part)
        }
        TypeKind::Tuple(parts) => add_row_names(found, parts.as_slice()),
        TypeKind::Result { ok, err } => {
            add_part_names(found, ok)?;
            add_part_names(found, err)
        }
        TypeKind::Future(part) | TypeKind::Stream(part) => add_part_names(found, part),
        _ => Ok(()),
    }
}

/// Adds the names that stand in a part that may be missing.
#[cycle(type_names)]
fn add_part_names<'a>(
    found: &mut TypeNames<'a>,
    part: &Option<Box<Type<'a>>>,
) -> Result<(), AllocError>
    ensures names { OnOk result (map view.id found.new.names.items ≡ map view.id found.old.names.items ++ spec.names_in_part (part_tree part.now)) }
    ensures handles { OnOk result (map view.id found.new.handles.items ≡ map view.id found.old.handles.items ++ spec.handles_in_part (part_tree part.now)) }
{
    match part {
        Some(ty) => add_type_names(found, ty),
        None => Ok(()),
    }
}

/// Adds the names that stand in types, from left to right.
#[cycle(type_names)]
fn add_row_names<'a>(found: &mut TypeNames<'a>, parts: &[Type<'a>]) -> Result<(), AllocError>
    ensures names { OnOk result (map view.id found.new.names.items ≡ map view.id found.old.names.items ++ spec.names_in_row (row (map type_tree parts.now))) }
    ensures handles { OnOk result (map view.id found.new.handles.items ≡ map view.id found.old.handles.items ++ spec.handles_in_row (row (map type_tree parts.now))) }
{
    for part in parts {
        add_type_names(found, part)?;
    }
    Ok(())
}

/// What has a type, or may have one.
trait Typed<'a> {
    ghost part: { Self → TypeOption };

    /// Adds the names that stand in it.
    fn add_names(&self, found: &mut TypeNames<'a>) -> Result<(), AllocError>
        ensures names { OnOk result (map view.id found.new.names.items ≡ map view.id found.old.names.items ++ spec.names_in_part (part self.now)) }
        ensures handles { OnOk result (map view.id found.new.handles.items ≡ map view.id found.old.handles.items ++ spec.handles_in_part (part self.now)) };
}

impl<'a> Typed<'a> for Param<'a> {
    ghost part = { λ p. a_type (type_tree p.ty) };

    fn add_names(&self, found: &mut TypeNames<'a>) -> Result<(), AllocError> {
        add_type_names(found, &self.ty)
    }
}

impl<'a> Typed<'a> for Field<'a> {
    ghost part = { λ f. a_type (type_tree f.ty) };

    fn add_names(&self, found: &mut TypeNames<'a>) -> Result<(), AllocError> {
        add_type_names(found, &self.ty)
    }
}

impl<'a> Typed<'a> for Case<'a> {
    ghost part = { λ c. opt (option_map type_tree c.ty) };

    fn add_names(&self, found: &mut TypeNames<'a>) -> Result<(), AllocError> {
        add_result_names(found, &self.ty)
    }
}

/// Adds the names that stand in these, in their order.
fn add_all<'a, T: Typed<'a>>(found: &mut TypeNames<'a>, items: &[T]) -> Result<(), AllocError>
    ensures names { OnOk result (map view.id found.new.names.items ≡ map view.id found.old.names.items ++ spec.names_in_parts (map T.part items.now)) }
    ensures handles { OnOk result (map view.id found.new.handles.items ≡ map view.id found.old.handles.items ++ spec.handles_in_parts (map T.part items.now)) }
{
    for item in items {
        item.add_names(found)?;
    }
    Ok(())
}

/// Adds the names that stand in a type, if there is one.
fn add_result_names<'a>(found: &mut TypeNames<'a>, ty: &Option<Type<'a>>) -> Result<(), AllocError>
    ensures names { OnOk result (map view.id found.new.names.items ≡ map view.id found.old.names.items ++ spec.names_in_part (opt (option_map type_tree ty.now))) }
    ensures handles { OnOk result (map view.id found.new.handles.items ≡ map view.id found.old.handles.items ++ spec.handles_in_part (opt (option_map type_tree ty.now))) }
{
    match ty {
        Some(ty) => add_type_names(found, ty),
        None => Ok(()),
    }
}

/// Adds the names that stand in a definition: none of a resource, whose functions are members of their own.
fn add_definition_names<'a>(
    found: &mut TypeNames<'a>,
    kind: &TypeDefKind<'a>,
) -> Result<(), AllocError>
    ensures names { OnOk result (map view.id found.new.names.items ≡ map view.id found.old.names.items ++ spec.names_in_parts (spec.definition_parts (view.type_def_kind kind.now))) }
    ensures handles { OnOk result (map view.id found.new.handles.items ≡ map view.id found.old.handles.items ++ spec.handles_in_parts (spec.definition_parts (view.type_def_kind kind.now))) }
{
    match kind {
        TypeDefKind::Alias(ty) => add_type_names(found, ty),
        TypeDefKind::Record(fields) => add_all(found, fields.as_slice()),
        TypeDefKind::Variant(cases) => add_all(found, cases.as_slice()),
        TypeDefKind::Flags(_) | TypeDefKind::Enum(_) | TypeDefKind::Resource(_) => Ok(()),
    }
}

/// Adds the names that stand in parameters and a result.
fn add_signature_names<'a>(
    found: &mut TypeNames<'a>,
    params: &[Param<'a>],
    answer: &Option<Type<'a>>,
) -> Result<(), AllocError>
    ensures names { OnOk result (map view.id found.new.names.items ≡ map view.id found.old.names.items ++ spec.names_in_parts (spec.signature_parts (map view.param params.now) (option_map type_tree answer.now))) }
    ensures handles { OnOk result (map view.id found.new.handles.items ≡ map view.id found.old.handles.items ++ spec.handles_in_parts (spec.signature_parts (map view.param params.now) (option_map type_tree answer.now))) }
{
    add_all(found, params)?;
    add_result_names(found, answer)
}

/// Adds the names that stand in a member.
fn add_member_names<'a>(found: &mut TypeNames<'a>, kind: &MemberKind<'a>) -> Result<(), AllocError>
    ensures names { OnOk result (map view.id found.new.names.items ≡ map view.id found.old.names.items ++ spec.names_in_member (seen.member_kind kind.now)) }
    ensures handles { OnOk result (map view.id found.new.handles.items ≡ map view.id found.old.handles.items ++ spec.handles_in_member (seen.member_kind kind.now)) }
{
    match kind {
        MemberKind::Used { .. } => Ok(()),
        MemberKind::Defined(kind) => add_definition_names(found, kind),
        MemberKind::Function(func)
        | MemberKind::Method { func, .. }
        | MemberKind::Static { func, .. }
        | MemberKind::Constructor { func, .. } => {
            add_signature_names(found, func.params.as_slice(), &func.result)
        }
    }
}

/// No names.
fn no_names<'a>(alloc: Global) -> TypeNames<'a>
    ensures names { result.names.items ≡ [] }
    ensures handles { result.handles.items ≡ [] }
{
    TypeNames {
        names: Vec::new(alloc),
        handles: Vec::new(alloc),
    }
}

/// The names that stand in the types of a member: in a definition, or in the parameters and the result of a function.
pub fn member_type_names<'a>(
    alloc: Global,
    kind: &MemberKind<'a>,
) -> Result<Vec<Id<'a>>, AllocError>
    ensures { IfOk result (λ v. map view.id v.items ≡ spec.names_in_member (seen.member_kind kind.now)) }
{
    let mut found = no_names(alloc);
    add_member_names(&mut found, kind)?;
    let TypeNames { names, .. } = found;
    Ok(names)
}

/// The names in the types of a member that `own` or `borrow` names.
pub fn member_handle_names<'a>(
    alloc: Global,
    kind: &MemberKind<'a>,
) -> Result<Vec<Id<'a>>, AllocError>
    ensures { IfOk result (λ v. map view.id v.items ≡ spec.handles_in_member (seen.member_kind kind.now)) }
{
    let mut found = no_names(alloc);
    add_member_names(&mut found, kind)?;
    let TypeNames { handles, .. } = found;
    Ok(handles)
}

/// The names that stand in parameters and a result.
pub fn func_type_names<'a>(alloc: Global, func: &Func<'a>) -> Result<Vec<Id<'a>>, AllocError>
    ensures { IfOk result (λ v. map view.id v.items ≡ spec.names_in_func (view.func func.now)) }
{
    let mut found = no_names(alloc);
    add_signature_names(&mut found, func.params.as_slice(), &func.result)?;
    let TypeNames { names, .. } = found;
    Ok(names)
}
