//! Groups of files that are pushed.

use crate::groups::{Group, Step};
use crate::parsing::{parsed, parsed_each};
use std::alloc::{AllocError, Global};
use wit_pages::Page;
use wit_resolution::{Resolve, ResolveError};
use wit_types::PackageId;

/// The files of groups that have one each.
fn only_files(alloc: Global, groups: &[Group]) -> Result<Vec<(&str, &str)>, AllocError> {
    let mut files = Vec::new(alloc);
    for group in groups {
        if let Some(file) = group.only_file() {
            files.push(file)?;
        }
    }
    Ok(files)
}

/// Writes why a push is refused, if it is.
fn outcome(page: &mut Page, resolve: &Resolve, pushed: Result<PackageId, ResolveError>) {
    if let Err(error) = pushed {
        page.begin("");
        page.made(&resolve.render_error(&error));
        page.end();
    }
}

/// Pushes the package of files together with those of others.
fn push_texts(
    page: &mut Page,
    resolve: &mut Resolve,
    main: &[(&str, &str)],
    deps: &[(&str, &str)],
) {
    let pushed = resolve.push_texts(main, deps);
    outcome(page, resolve, pushed);
}

/// Pushes the packages of a group of files together with those of others, which have a file each.
fn push_files(page: &mut Page, resolve: &mut Resolve, main: &Group, deps: &[Group]) {
    let alloc = page.alloc;
    match &main.files(alloc) {
        Ok(main) => match &only_files(alloc, deps) {
            Ok(deps) => push_texts(page, resolve, main.as_slice(), deps.as_slice()),
            Err(_) => page.refuse(),
        },
        Err(_) => page.refuse(),
    }
}

/// Pushes a group that is parsed together with others, if there are some.
fn push_parsed(page: &mut Page, resolve: &mut Resolve, main: &Group, deps: &[Group]) {
    let Some(main) = parsed(page, main) else {
        return;
    };
    let Some(deps) = parsed_each(page, deps) else {
        return;
    };
    let pushed = if deps.is_empty() {
        resolve.push_group(main)
    } else {
        resolve.push_groups(main, deps)
    };
    outcome(page, resolve, pushed);
}

/// Pushes the groups of a step together, and writes why that is refused, if it is.
pub fn push(page: &mut Page, resolve: &mut Resolve, step: &Step) {
    let Some((main, deps)) = step.groups.split_first() else {
        return;
    };
    if step.parsed {
        return push_parsed(page, resolve, main, deps);
    }
    match main.only_file() {
        Some((path, text)) if deps.is_empty() => {
            let pushed = resolve.push_source(path, text);
            outcome(page, resolve, pushed);
        }
        _ => push_files(page, resolve, main, deps),
    }
}
