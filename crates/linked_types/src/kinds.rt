//! Kinds of types.

ghost use Rattle.std.specs.Prelude.{◌≡◌, length};
ghost use Rattle.std.specs.List.{list_any};
ghost use Rattle.linked_types.specs.Kinds as spec;

use crate::fault::TypeFault;
use wit_types::{Case, Field, Type, TypeDefKind};

/// Whether it is an error context.
pub fn is_error_context(ty: &Type) -> bool
    ensures { result ≡ spec.is_error_context ty.now }
{
    matches!(ty, Type::ErrorContext)
}

/// Whether there is one, an error context.
pub fn part_is(ty: Option<&Type>) -> bool
    ensures { result ≡ spec.part_is (spec.part ty.entry) }
{
    match ty {
        Some(ty) => is_error_context(ty),
        None => false,
    }
}

/// Whether one of these fields is an error context.
fn field_is(fields: &[Field]) -> bool
    ensures { result ≡ list_any (λ f. spec.is_error_context f.ty) fields.now }
{
    fields.iter().any(|field| is_error_context(&field.ty))
}

/// Why a record of these fields isn't linked.
fn fields_fault(fields: &[Field]) -> Option<TypeFault>
    ensures { result ≡ spec.unless_empty (length fields.now) (list_any (λ f. spec.is_error_context f.ty) fields.now) }
{
    unless_empty(fields.len(), field_is(fields))
}

/// Whether one of these types is.
fn type_is(types: &[Type]) -> bool
    ensures { result ≡ list_any spec.is_error_context types.now }
{
    types.iter().any(|ty| is_error_context(ty))
}

/// Whether one of these cases has one.
fn case_is(cases: &[Case]) -> bool
    ensures { result ≡ list_any (λ c. spec.part_is c.ty) cases.now }
{
    cases.iter().any(|case| part_is(case.ty.as_ref()))
}

/// What is asynchronous isn't linked.
pub fn if_async(is: bool) -> Option<TypeFault>
    ensures { result ≡ spec.if_async is }
{
    if is {
        Some(TypeFault::AsyncReached)
    } else {
        None
    }
}

/// Nor is what has no parts.
fn unless_empty(count: usize, is_async: bool) -> Option<TypeFault>
    ensures { result ≡ spec.unless_empty count is_async }
{
    if count == 0 {
        Some(TypeFault::EmptyTypeReached)
    } else {
        if_async(is_async)
    }
}

/// Nor are more than 32 flags.
fn flags_fault(count: usize) -> Option<TypeFault>
    ensures { result ≡ spec.flags_fault count }
{
    if count > 32 {
        Some(TypeFault::TooManyFlags)
    } else {
        unless_empty(count, false)
    }
}

/// Why types of a kind aren't linked: resources, handles and types of packages that aren't there are to come; futures, streams and what is
/// made of an error context are asynchronous; a record, a tuple or flags without parts, and more than 32 flags, are no value types of a
/// component (Component Model, Explainer, Type Definitions; Canonical ABI, Alignment).
pub fn kind_fault(kind: &TypeDefKind) -> Option<TypeFault>
    ensures { result ≡ spec.kind_fault kind.now }
{
    match kind {
        TypeDefKind::Record(record) => fields_fault(&record.fields),
        TypeDefKind::Tuple(tuple) => unless_empty(tuple.types.len(), type_is(&tuple.types)),
        TypeDefKind::Flags(flags) => flags_fault(flags.flags.len()),
        TypeDefKind::Variant(variant) => if_async(case_is(&variant.cases)),
        TypeDefKind::Enum(_) => None,
        TypeDefKind::Option(ty) => if_async(is_error_context(ty)),
        TypeDefKind::Result(result) => if_async(
            part_is(result.ok.as_ref()) || part_is(result.err.as_ref()),
        ),
        TypeDefKind::List(ty) => if_async(is_error_context(ty)),
        TypeDefKind::FixedLengthList(ty, _) => if_async(is_error_context(ty)),
        TypeDefKind::Alias(ty) => if_async(is_error_context(ty)),
        TypeDefKind::Future(_) => Some(TypeFault::AsyncReached),
        TypeDefKind::Stream(_) => Some(TypeFault::AsyncReached),
        TypeDefKind::Resource => Some(TypeFault::NotYet),
        TypeDefKind::Handle(_) => Some(TypeFault::NotYet),
        TypeDefKind::Unknown => Some(TypeFault::NotYet),
    }
}
