//! What was read of a core module, in lines.

use crate::definitions::{write_entities, write_globals_and_exports};
use crate::names;
use crate::page::Page;
use binary_grammar::ReadError;
use wasm_format::{CoreModule, ModuleFault, Section, read_module};
use wasm_sections::read_sections;

/// A section of a module, with the length of its content.
fn section_line(page: &mut Page, section: &Section) {
    page.words("  section ");
    page.words(names::section(section.id));
    page.words(" of ");
    page.shown(&section.content.len());
    page.words("\n");
}

fn write_module(page: &mut Page, found: &CoreModule) {
    page.words("  read\n");
    write_entities(page, found);
    write_globals_and_exports(page, found);
    for section in &found.sections {
        section_line(page, section);
    }
}

/// Why bytes aren't read as a core module, and which rule their sections break, if they break one.
fn write_fault(page: &mut Page, bytes: &[u8], fault: &ModuleFault) {
    page.words("  ");
    page.shown(fault);
    let read = read_sections(page.alloc, bytes);
    if let Err(ReadError::Malformed(fault)) = &read {
        page.words(": ");
        page.fault(bytes.len(), fault);
    }
    page.words("\n");
}

/// Reads a core module, and writes what was read, or why nothing was.
pub fn answer(page: &mut Page, bytes: &[u8]) {
    let read = read_module(page.alloc, bytes);
    match &read {
        Ok(found) => write_module(page, found),
        Err(fault) => write_fault(page, bytes, fault),
    }
}
