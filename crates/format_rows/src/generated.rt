//! What was read of a generated module, in lines.

use crate::page::Page;
use generated_modules::{GeneratedModule, Parts, generated_shape};
use std::fmt::Debug;

fn write_parts(page: &mut Page, parts: &Parts) {
    page.each("  type ", &parts.types);
    page.each("  import ", &parts.imports);
    page.each("  table ", &parts.tables);
    page.each("  memory ", &parts.memories);
    page.each("  global ", &parts.globals);
    page.each("  export ", &parts.exports);
    page.each("  segment ", &parts.elements);
    if let Some(function) = parts.start {
        page.words("  start ");
        page.shown(&function);
        page.words("\n");
    }
}

/// A function of this type that does this.
fn write_body(page: &mut Page, ty: u32, body: &impl Debug) {
    page.words("  function of type ");
    page.shown(&ty);
    page.words(": ");
    page.spelled(body);
    page.words("\n");
}

/// A shape.
fn write_shape(page: &mut Page, module: &GeneratedModule) {
    page.words("  generated\n");
    write_parts(page, &module.parts);
    for (place, body) in module.bodies.iter().enumerate() {
        if let Some(ty) = module.parts.functions.get(place) {
            write_body(page, ty.0, body);
        }
    }
}

/// Reads a generated module, and writes its shape, if it has one.
pub fn answer(page: &mut Page, bytes: &[u8]) {
    let shape = generated_shape(page.alloc, bytes);
    match &shape {
        Ok(Some(module)) => write_shape(page, module),
        Ok(None) => page.words("  no generated module\n"),
        Err(_) => page.refuse(),
    }
}
