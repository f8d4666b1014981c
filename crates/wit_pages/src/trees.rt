//! Whole trees of types: what each name stands for, with the names on the way and with all parts, until keywords are left.

ghost use Rattle.std.specs.Prelude.{◌≤◌};

use crate::names::named_type;
use crate::page::Page;
use crate::types::{close, front_of, keyword, parts_of};
use crate::view::{View, under};
use indexmap::IndexMap;
use wit_types::{Case, EnumCase, Field, Flag, Type, TypeDefKind, TypeId, WorldItem, WorldKey};

/// How many defined types a line unfolds, each as often as it stands there.
const MOST: u32 = 500;

/// What stands in front of a label in braces.
fn before(page: &mut Page, index: usize) {
    page.words(if index == 0 { " " } else { ", " });
}

/// Flags, with their labels in braces.
fn flags(page: &mut Page, of: &[Flag]) {
    page.words("flags {");
    for (index, one) in of.iter().enumerate() {
        before(page, index);
        page.words(&one.name);
    }
    page.words(" }");
}

/// An enum, with its labels in braces.
fn enum_cases(page: &mut Page, of: &[EnumCase]) {
    page.words("enum {");
    for (index, one) in of.iter().enumerate() {
        before(page, index);
        page.words(&one.name);
    }
    page.words(" }");
}

/// Whether a type is defined and has a name.
fn has_name(view: &View<'_>, of: Type) -> bool {
    match of {
        Type::Id(id) => match under(view.types, id) {
            Some(found) => found.name.is_some(),
            None => false,
        },
        _ => false,
    }
}

/// The name of a type, if it has one, in front of what it stands for.
fn name(page: &mut Page, view: &View<'_>, id: TypeId) {
    if has_name(view, Type::Id(id)) {
        named_type(page, view, id);
        page.words(" = ");
    }
}

/// A type: each name on the way to what it is, and that with all parts.
#[cycle(unfolded)]
fn whole(page: &mut Page, view: &View<'_>, of: Type, fuel: &mut u32)
    ensures { fuel.new ≤ fuel.old }
{
    match of {
        Type::Id(id) => defined(page, view, id, fuel),
        _ => page.words(keyword(of)),
    }
}

/// A type that is defined, as far as there is fuel.
#[cycle(unfolded)]
fn defined(page: &mut Page, view: &View<'_>, id: TypeId, fuel: &mut u32)
    ensures { fuel.new ≤ fuel.old }
{
    name(page, view, id);
    match (under(view.types, id), fuel.checked_sub(1)) {
        (Some(of), Some(left)) => {
            *fuel = left;
            unfolded(page, view, &of.kind, fuel);
        }
        (Some(_), None) => page.words("! deeper"),
        (None, _) => page.words("! no type"),
    }
}

/// What a type is, with all parts.
#[cycle(unfolded)]
fn unfolded(page: &mut Page, view: &View<'_>, kind: &TypeDefKind, fuel: &mut u32)
    ensures { fuel.new ≤ fuel.old }
{
    match kind {
        TypeDefKind::Alias(of) => whole(page, view, *of, fuel),
        TypeDefKind::Record(record) => fields(page, view, record.fields.as_slice(), fuel),
        TypeDefKind::Variant(variant) => cases(page, view, variant.cases.as_slice(), fuel),
        TypeDefKind::Flags(of) => flags(page, of.flags.as_slice()),
        TypeDefKind::Enum(of) => enum_cases(page, of.cases.as_slice()),
        _ => bracketed(page, view, kind, fuel),
    }
}

/// A type among the parts of another, in parentheses where it has a name.
#[cycle(unfolded)]
fn part(page: &mut Page, view: &View<'_>, of: Type, fuel: &mut u32)
    ensures { fuel.new ≤ fuel.old }
{
    let is_named = has_name(view, of);
    page.words(if is_named { "(" } else { "" });
    whole(page, view, of, fuel);
    page.words(if is_named { ")" } else { "" });
}

/// A record, with its fields in braces.
#[cycle(unfolded)]
fn fields(page: &mut Page, view: &View<'_>, of: &[Field], fuel: &mut u32)
    ensures { fuel.new ≤ fuel.old }
{
    page.words("record {");
    for (index, one) in of.iter().enumerate() {
        before(page, index);
        page.words(&one.name);
        page.words(": ");
        part(page, view, one.ty, fuel);
    }
    page.words(" }");
}

/// A variant, with its cases in braces.
#[cycle(unfolded)]
fn cases(page: &mut Page, view: &View<'_>, of: &[Case], fuel: &mut u32)
    ensures { fuel.new ≤ fuel.old }
{
    page.words("variant {");
    for (index, one) in of.iter().enumerate() {
        before(page, index);
        page.words(&one.name);
        if let Some(held) = one.ty {
            page.words("(");
            whole(page, view, held, fuel);
            page.words(")");
        }
    }
    page.words(" }");
}

/// A type that has no labels, with the types in its brackets, if there are some.
#[cycle(unfolded)]
fn bracketed(page: &mut Page, view: &View<'_>, kind: &TypeDefKind, fuel: &mut u32)
    ensures { fuel.new ≤ fuel.old }
{
    page.words(front_of(kind));
    match &parts_of(page.alloc, kind) {
        Ok(parts) => {
            in_brackets(page, view, parts.as_slice(), fuel);
            close(page, kind, parts.is_empty());
        }
        Err(_) => page.refuse(),
    }
}

/// The types in the brackets of a type, behind what parts them.
#[cycle(unfolded)]
fn in_brackets(page: &mut Page, view: &View<'_>, parts: &[Option<Type>], fuel: &mut u32)
    ensures { fuel.new ≤ fuel.old }
{
    for (index, one) in parts.iter().enumerate() {
        page.words(if index == 0 { "<" } else { ", " });
        match one {
            Some(of) => part(page, view, *of, fuel),
            None => page.words("_"),
        }
    }
}

/// The line of a type that has a name.
fn line(page: &mut Page, view: &View<'_>, id: TypeId) {
    let mut fuel = MOST;
    page.begin("");
    whole(page, view, Type::Id(id), &mut fuel);
    page.end();
}

/// A line for each type among what a world imports or exports.
fn lines_of(page: &mut Page, view: &View<'_>, of: &IndexMap<WorldKey, WorldItem>) {
    for (_, item) in of.iter() {
        if let WorldItem::TypeItem { id, .. } = item {
            line(page, view, *id);
        }
    }
}

/// A line for each type that goes by a name in an interface or a world, in their order: `scope.name = ` in front of what it
/// stands for. That is another name and what this one stands for, or the keyword of a type with all of its parts, each in the
/// same way, in parentheses where it has a name.
pub fn type_trees(page: &mut Page, view: &View<'_>) {
    page.begin("trees of the types:\n");
    page.go_in();
    for of in view.interfaces.iter() {
        for (_, id) in of.types.iter() {
            line(page, view, *id);
        }
    }
    for of in view.worlds.iter() {
        lines_of(page, view, &of.imports);
        lines_of(page, view, &of.exports);
    }
    page.go_out();
}
