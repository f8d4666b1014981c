//! Functions.

use crate::names::{key, named_type, place};
use crate::page::Page;
use crate::stability::{docs, gates};
use crate::types::ty;
use crate::view::View;
use wit_types::{Function, FunctionKind, Param, Type};

/// What says whose a function is, and whether it is asynchronous.
fn kind_words(kind: FunctionKind) -> &'static str {
    match kind {
        FunctionKind::Freestanding => "func",
        FunctionKind::AsyncFreestanding => "async func",
        FunctionKind::Method(_) => "method of ",
        FunctionKind::AsyncMethod(_) => "async method of ",
        FunctionKind::Static(_) => "static of ",
        FunctionKind::AsyncStatic(_) => "async static of ",
        FunctionKind::Constructor(_) => "constructor of ",
    }
}

/// A parameter.
fn param(page: &mut Page, view: &View<'_>, of: &Param) {
    page.words(&of.name);
    place(page, view, of.span);
    page.words(": ");
    ty(page, view, of.ty);
}

/// The parameters.
fn params(page: &mut Page, view: &View<'_>, of: &[Param]) {
    page.words("(");
    for (index, one) in of.iter().enumerate() {
        page.words(if index == 0 { "" } else { ", " });
        param(page, view, one);
    }
    page.words(")");
}

/// The result, if there is one.
fn answer(page: &mut Page, view: &View<'_>, of: Option<Type>) {
    if let Some(of) = of {
        page.words(" -> ");
        ty(page, view, of);
    }
}

/// A function, behind words that say where it stands, as it goes by a name there.
pub fn function(page: &mut Page, view: &View<'_>, front: &str, name: &str, of: &Function) {
    docs(page, &of.docs);
    page.begin(front);
    page.words(&of.name);
    key(page, name, &of.name);
    page.words(": ");
    page.words(kind_words(of.kind));
    if let Some(resource) = of.kind.resource() {
        named_type(page, view, resource);
    }
    params(page, view, of.params.as_slice());
    answer(page, view, of.result);
    gates(page, &of.stability);
    place(page, view, of.span);
    page.end();
}
