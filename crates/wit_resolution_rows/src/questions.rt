//! What is asked: `names` asks for all texts of interfaces and worlds, `packages` for each package behind those of which it names an
//! interface, with these, `bits` for whether any bits are a value of the types that have names, and `select TEXT from PACKAGE ..` for the
//! world of that text where these are the main packages; without a text it is `select from PACKAGE ..`. With `core` in place of `select`
//! there is a line below for each thing that a core module may import of the world or export for it, in order: its older name and that
//! of the standard, of an import the module and the name, or `-`, and behind `=` what is read by each, which is that `one` thing,
//! `another`, one of `several` or `none`. With `standard` it is the same where the older names aren't read.

use crate::names::all;
use crate::places::{known, view_of};
use crate::{core_names, deps};
use std::alloc::{AllocError, Global};
use wit_pages::{Page, names};
use wit_resolution::{Resolve, ResolveError};
use wit_types::{Arena, Package, PackageId, WorldId};
use wit_words::SourceMap;

/// The package of that text.
fn package_of(
    alloc: Global,
    packages: &Arena<Package>,
    text: &str,
) -> Result<Option<PackageId>, AllocError> {
    for (index, package) in packages.iter().enumerate() {
        if package.name.to_text(alloc)?.as_str() == text {
            return Ok(Some(PackageId::from_index(index)));
        }
    }
    Ok(None)
}

/// The packages of those texts, as far as they are there.
fn packages_of(
    alloc: Global,
    packages: &Arena<Package>,
    texts: &str,
) -> Result<Vec<PackageId>, AllocError> {
    let mut found = Vec::new(alloc);
    for text in texts.split_whitespace() {
        if let Some(id) = package_of(alloc, packages, text)? {
            found.push(id)?;
        }
    }
    Ok(found)
}

/// A world that is chosen, or why none is.
fn chosen(
    page: &mut Page,
    resolve: &Resolve,
    world: Result<WorldId, ResolveError>,
) -> Option<WorldId> {
    match world {
        Ok(id) => {
            page.words("world ");
            let map = SourceMap::new(page.alloc);
            names::world(page, &view_of(resolve, &map, &known(resolve, None)), id);
            Some(id)
        }
        Err(error) => {
            page.shown(&error);
            None
        }
    }
}

/// The world of a text, if there is one, where these are the main packages.
fn select(page: &mut Page, resolve: &Resolve, text: Option<&str>, main: &str) -> Option<WorldId> {
    match packages_of(page.alloc, resolve.packages(), main) {
        Ok(main) => {
            let world = resolve.select_world(main.as_slice(), text);
            chosen(page, resolve, world)
        }
        Err(_) => {
            page.refuse();
            None
        }
    }
}

/// The answer to a question for a world, and the world, if there is one.
fn selection(page: &mut Page, resolve: &Resolve, words: &str) -> Option<WorldId> {
    match words.split_once(" from") {
        Some((text, main)) => select(page, resolve, text.strip_prefix(" "), main),
        None => {
            page.words("! cannot read this question");
            None
        }
    }
}

/// The answer to a question for a world, as a line.
fn selected(page: &mut Page, resolve: &Resolve, asked: &str, words: &str) -> Option<WorldId> {
    page.begin(asked);
    page.words(": ");
    let world = selection(page, resolve, words);
    page.end();
    world
}

/// The core names of a world that is asked for, read with the older ones or without.
fn core(page: &mut Page, resolve: &Resolve, asked: &str, words: &str, legacy: bool) {
    if let Some(id) = selected(page, resolve, asked, words) {
        core_names::all(page, resolve, id, legacy);
    }
}

/// The answer to a question about a world.
fn of_world(page: &mut Page, resolve: &Resolve, asked: &str) {
    if let Some(words) = asked.strip_prefix("select") {
        let _ = selected(page, resolve, asked, words);
    } else if let Some(words) = asked.strip_prefix("core") {
        core(page, resolve, asked, words, true);
    } else if let Some(words) = asked.strip_prefix("standard") {
        core(page, resolve, asked, words, false);
    } else {
        page.words("! cannot read this question\n");
    }
}

/// The answer to a question.
fn question(page: &mut Page, resolve: &Resolve, asked: &str) {
    match asked {
        "names" => all(page, resolve),
        "packages" => deps::packages(page, resolve),
        "bits" => deps::bits(page, resolve),
        _ => of_world(page, resolve, asked),
    }
}

/// The answers to questions.
pub fn answer(page: &mut Page, resolve: &Resolve, asked: &str) {
    for one in asked.split(" ; ") {
        question(page, resolve, one);
    }
}
