//! Definitions of types.

use crate::names::{named_type, place};
use crate::page::Page;
use crate::stability::{docs, gates};
use crate::types::{defined_as, ty};
use crate::view::{View, under};
use wit_types::{Case, EnumCase, Field, Flag, TypeDef, TypeDefKind, TypeId};

/// A field of a record.
fn field(page: &mut Page, view: &View<'_>, of: &Field) {
    docs(page, &of.docs);
    page.begin(&of.name);
    page.words(": ");
    ty(page, view, of.ty);
    place(page, view, of.span);
    page.end();
}

/// One of some flags.
fn flag(page: &mut Page, view: &View<'_>, of: &Flag) {
    docs(page, &of.docs);
    page.begin(&of.name);
    place(page, view, of.span);
    page.end();
}

/// A case of an enum.
fn enum_case(page: &mut Page, view: &View<'_>, of: &EnumCase) {
    docs(page, &of.docs);
    page.begin(&of.name);
    place(page, view, of.span);
    page.end();
}

/// A case of a variant.
fn case(page: &mut Page, view: &View<'_>, of: &Case) {
    docs(page, &of.docs);
    page.begin(&of.name);
    if let Some(held) = of.ty {
        page.words("(");
        ty(page, view, held);
        page.words(")");
    }
    place(page, view, of.span);
    page.end();
}

/// What stands in braces behind a type, a line each.
fn members(page: &mut Page, view: &View<'_>, kind: &TypeDefKind) {
    match kind {
        TypeDefKind::Record(record) => {
            for one in &record.fields {
                field(page, view, one);
            }
        }
        TypeDefKind::Flags(flags) => {
            for one in &flags.flags {
                flag(page, view, one);
            }
        }
        TypeDefKind::Variant(variant) => {
            for one in &variant.cases {
                case(page, view, one);
            }
        }
        TypeDefKind::Enum(cases) => {
            for one in &cases.cases {
                enum_case(page, view, one);
            }
        }
        _ => {}
    }
}

/// Whether a type is said by a keyword in front of its name alone.
fn has_keyword(kind: &TypeDefKind) -> bool {
    match kind {
        TypeDefKind::Record(_)
        | TypeDefKind::Flags(_)
        | TypeDefKind::Variant(_)
        | TypeDefKind::Enum(_)
        | TypeDefKind::Resource
        | TypeDefKind::Unknown => true,
        _ => false,
    }
}

/// The line of a type that has a name, but for its beginning and its end.
fn named_line(page: &mut Page, view: &View<'_>, id: TypeId, of: &TypeDef) {
    if has_keyword(&of.kind) {
        page.words(of.kind.as_str());
        page.words(" ");
        named_type(page, view, id);
    } else {
        page.words("type ");
        named_type(page, view, id);
        defined_as(page, view, &of.kind);
    }
    gates(page, &of.stability);
    place(page, view, of.span);
}

/// A type that has a name, behind words that say where it stands, as it goes by a key there.
pub fn definition(page: &mut Page, view: &View<'_>, front: &str, key: &str, id: TypeId) {
    let Some(of) = under(view.types, id) else {
        return page.words("! no type\n");
    };
    docs(page, &of.docs);
    page.begin(front);
    named_line(page, view, id, of);
    if let Some(name) = &of.name {
        crate::names::key(page, key, name);
    }
    page.end();
    page.go_in();
    members(page, view, &of.kind);
    page.go_out();
}
