//! What was read of a component, in lines, and what is written of it.

use crate::page::Page;
use binary_grammar::{ReadError, WriteFault};
use component_builder::ComponentBuilder;
use component_sections::{PlacedDefinition, read_definitions};
use std::alloc::Global;

/// Definitions, a line each: where it begins, and what it is.
fn write_definitions(page: &mut Page, definitions: &[PlacedDefinition<'_>]) {
    if definitions.is_empty() {
        page.words("  nothing\n");
    }
    for placed in definitions {
        write_definition(page, placed);
    }
}

fn write_definition(page: &mut Page, placed: &PlacedDefinition<'_>) {
    page.words("  ");
    page.shown(&placed.offset);
    page.words(" ");
    page.spelled(&placed.definition);
    page.words("\n");
}

/// Why nothing was read of bytes of this length.
fn write_error(page: &mut Page, length: usize, error: &ReadError) {
    match error {
        ReadError::Malformed(fault) => {
            page.words("  ! ");
            page.fault(length, fault);
            page.words("\n");
        }
        ReadError::Memory => page.refuse(),
    }
}

/// Reads a component, and writes what was read, or why nothing was.
pub fn answer(page: &mut Page, bytes: &[u8]) {
    let read = read_definitions(page.alloc, bytes);
    match &read {
        Ok(definitions) => write_definitions(page, definitions),
        Err(error) => write_error(page, bytes.len(), error),
    }
}

/// Adds definitions to a component.
fn add_all<'a>(
    builder: &mut ComponentBuilder<'a>,
    definitions: Vec<PlacedDefinition<'a>>,
) -> Result<(), WriteFault> {
    for placed in definitions {
        builder.add(placed.definition)?;
    }
    Ok(())
}

/// The bytes that are written of definitions.
fn bytes_of(alloc: Global, definitions: Vec<PlacedDefinition<'_>>) -> Result<Vec<u8>, WriteFault> {
    let mut builder = ComponentBuilder::new(alloc);
    add_all(&mut builder, definitions)?;
    builder.finish(alloc)
}

/// A line with the bytes that are written of definitions.
fn write_bytes(page: &mut Page, definitions: Vec<PlacedDefinition<'_>>) {
    match bytes_of(page.alloc, definitions) {
        Ok(bytes) => {
            page.words("  ");
            page.hexadecimal(&bytes);
            page.words("\n");
        }
        Err(WriteFault::TooLarge) => page.words("  ! too large\n"),
        Err(WriteFault::OutOfMemory) => page.refuse(),
    }
}

/// Reads a component, and writes the bytes that are written of what was read, or why nothing was.
pub fn answer_written(page: &mut Page, bytes: &[u8]) {
    match read_definitions(page.alloc, bytes) {
        Ok(definitions) => write_bytes(page, definitions),
        Err(error) => write_error(page, bytes.len(), &error),
    }
}
