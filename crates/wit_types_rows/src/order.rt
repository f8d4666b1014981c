//! Rows of names that need one another.

use crate::row_fault::{RowFault, made, readable};
use indexmap::IndexMap;
use std::alloc::{AllocError, Global};
use wit_types::{Need, OrderFault, toposort};
use wit_words::Span;

/// A name and the names that it needs: `NAME: [NAME ..`
fn entry_of(part: &str) -> Option<(&str, &str)> {
    part.split_once(": [")
}

/// The needs of a name, of which the first is the how manyth of the row.
fn needs_of(alloc: Global, words: &str, from: u32) -> Result<Vec<Need<'_>>, AllocError> {
    let mut needs = Vec::new(alloc);
    let mut start = from;
    for name in words.split_whitespace() {
        let end = start.saturating_add(1);
        let span = Span { start, end };
        needs.push(Need { name, span })?;
        start = end;
    }
    Ok(needs)
}

/// Adds a name with its needs, of which the first is the how manyth of the row, and answers that of the next.
fn add_entry<'a>(
    alloc: Global,
    table: &mut IndexMap<&'a str, Vec<Need<'a>>>,
    part: &'a str,
    from: u32,
) -> Result<u32, RowFault> {
    let (name, words) = readable(entry_of(part.trim_end_matches(']')))?;
    let needs = needs_of(alloc, words, from)?;
    let count = u32::try_from(needs.len()).unwrap_or(0);
    table.insert(name, needs)?;
    Ok(from.saturating_add(count))
}

/// The table of a row.
fn table_of<'a>(alloc: Global, row: &'a str) -> Result<IndexMap<&'a str, Vec<Need<'a>>>, RowFault> {
    let mut table = IndexMap::new(alloc);
    let mut from = 0u32;
    for part in row.split("], ") {
        from = add_entry(alloc, &mut table, part, from)?;
    }
    Ok(table)
}

/// The names with commas between them.
fn names_text(alloc: Global, names: &[&str]) -> Result<String, AllocError> {
    let mut out = String::new(alloc);
    for name in names {
        out.push_str(if out.is_empty() { "" } else { ", " })?;
        out.push_str(*name)?;
    }
    Ok(out)
}

/// What a fault says, and where.
fn fault_text(alloc: Global, fault: OrderFault<'_>) -> Result<String, AllocError> {
    match fault {
        OrderFault::NameNotFound { span, .. } | OrderFault::Cycle { span, .. } => {
            let start = span.start;
            format!(in alloc; "{fault}, at {start}")
        }
        OrderFault::OutOfMemory => Err(AllocError),
    }
}

/// The order of a table, or why it has none.
fn order_text(
    alloc: Global,
    kind: &str,
    table: &IndexMap<&str, Vec<Need<'_>>>,
) -> Result<String, AllocError> {
    match toposort(alloc, kind, table) {
        Ok(names) => names_text(alloc, names.as_slice()),
        Err(fault) => fault_text(alloc, fault),
    }
}

/// The answer to a row.
pub fn answer(alloc: Global, kind: &str, row: &str) -> Result<String, RowFault> {
    let table = table_of(alloc, row)?;
    made(order_text(alloc, kind, &table))
}
