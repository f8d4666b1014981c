//! Rows with the trees of their texts.

use crate::outcome::Outcome;
use std::alloc::{AllocError, Global};
use wit_syntax::{File, Span, SyntaxFault, Type, UsePath, parse_file, parse_type, parse_use_path};
use wit_syntax_trees::Writer;

/// Where texts begin, besides at 0: their trees are to be the same there, but for where places count from.
const FAR: u32 = 4_294_900_000;

/// Why a text has no tree.
fn refusal(tree: &mut Writer, fault: SyntaxFault) {
    let outcome = Outcome::of_fault(fault, tree.offset());
    tree.words(outcome.code());
    if let Some(Span { start, end }) = outcome.place() {
        tree.range(start, end);
    }
    tree.end();
}

/// The tree of a text, or why it has none.
fn reading(tree: &mut Writer, read: &Result<File, SyntaxFault>) {
    match read {
        Ok(file) => tree.file(file),
        Err(fault) => refusal(tree, *fault),
    }
}

/// The tree of a type, or why it has none.
fn reading_of_type(tree: &mut Writer, read: &Result<Type, SyntaxFault>) {
    match read {
        Ok(ty) => tree.last_ty(ty),
        Err(fault) => refusal(tree, *fault),
    }
}

/// The tree of a path, or why it has none.
fn reading_of_path(tree: &mut Writer, read: &Result<UsePath, SyntaxFault>) {
    match read {
        Ok(path) => tree.last_path(path),
        Err(fault) => refusal(tree, *fault),
    }
}

/// The tree of a text that begins at `offset`.
fn tree_at(alloc: Global, text: &str, offset: u32) -> Result<String, AllocError> {
    let mut tree = Writer::new(alloc, offset);
    reading(&mut tree, &parse_file(alloc, text, offset));
    tree.finish()
}

/// A row, and behind it the tree of its text.
pub fn text_tree(alloc: Global, row: &str, text: &str) -> Result<String, AllocError> {
    let tree = tree_at(alloc, text, 0)?;
    let moved = tree_at(alloc, text, FAR)?;
    if tree.as_str() == moved.as_str() {
        format!(in alloc; "{row}\n{tree}")
    } else {
        format!(in alloc; "{row}\n{tree}! another at {FAR}:\n{moved}")
    }
}

/// The tree of a type.
fn type_tree(alloc: Global, text: &str) -> Result<String, AllocError> {
    let mut tree = Writer::new(alloc, 0);
    reading_of_type(&mut tree, &parse_type(alloc, text));
    tree.finish()
}

/// A row, and behind it the tree of its type.
pub fn type_row(alloc: Global, row: &str, text: &str) -> Result<String, AllocError> {
    let tree = type_tree(alloc, text)?;
    format!(in alloc; "{row} = {tree}")
}

/// The tree of a path.
fn path_tree(alloc: Global, text: &str) -> Result<String, AllocError> {
    let mut tree = Writer::new(alloc, 0);
    reading_of_path(&mut tree, &parse_use_path(alloc, text));
    tree.finish()
}

/// A row, and behind it the tree of its path.
pub fn path_row(alloc: Global, row: &str, text: &str) -> Result<String, AllocError> {
    let tree = path_tree(alloc, text)?;
    format!(in alloc; "{row} = {tree}")
}
