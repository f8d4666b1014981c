//! Files of a package, and the answer to them.

use crate::packages::{self, Manner};
use crate::pushed;
use std::alloc::{AllocError, Global};
use std::rt::Files;
use std::{fs, io};
use wit_package::UnresolvedPackageGroup;
use wit_pages::Page;
use wit_rules::PackageFault;
use wit_syntax::SourceMap;

/// What the files of a row are called, in their order.
const PATHS: &[&str] = &["a.wit", "b.wit", "c.wit", "d.wit", "e.wit", "f.wit"];

/// What files are resolved to, or why they are refused.
type Answer = Result<UnresolvedPackageGroup, (SourceMap, PackageFault)>;

/// A part of a row as it is meant, behind the words in front.
fn text_of(alloc: Global, front: &str, part: &str) -> Result<String, AllocError> {
    let part = part.replace(alloc, "\\n", "\n")?;
    if front.is_empty() {
        return Ok(part);
    }
    format!(in alloc; "{front} {part}")
}

/// The texts of a row: the words in front and the first file, and then the others.
fn texts_of(alloc: Global, front: &str, row: &str) -> Result<Vec<String>, AllocError> {
    let mut found = Vec::new(alloc);
    for (place, part) in row.split(" | ").enumerate() {
        let front = if place == 0 { front } else { "" };
        found.push(text_of(alloc, front, part)?)?;
    }
    Ok(found)
}

/// The texts with their paths, as far as there are paths.
fn files_of<'t>(
    alloc: Global,
    paths: &[&'t str],
    texts: &'t [String],
) -> Result<Vec<(&'t str, &'t str)>, AllocError> {
    let mut found = Vec::new(alloc);
    for (path, text) in paths.iter().zip(texts.iter()) {
        found.push((*path, text.as_str()))?;
    }
    Ok(found)
}

/// The rule that is broken, and where.
fn refusal(page: &mut Page, map: &SourceMap, fault: &PackageFault) {
    page.begin("");
    match fault {
        PackageFault::OutOfMemory => page.refuse(),
        PackageFault::Syntax(fault) => page.made(&map.render_fault(fault)),
        PackageFault::Broken { rule, span } => {
            page.shown(rule);
            page.words(" at ");
            page.made(&map.render_location(*span));
        }
    }
    page.end();
}

/// What texts are resolved to.
fn resolved(
    alloc: Global,
    paths: &[&str],
    texts: &[String],
    manner: Manner,
) -> Result<Answer, AllocError> {
    let files = files_of(alloc, paths, texts)?;
    Ok(match manner {
        Manner::Pushed => pushed::resolved(alloc, files.as_slice()),
        _ => UnresolvedPackageGroup::parse_all(alloc, files.as_slice()),
    })
}

/// Writes what texts are resolved to, or why they are refused.
fn answer_texts(page: &mut Page, paths: &[&str], texts: &[String], manner: Manner) {
    match &resolved(page.alloc, paths, texts, manner) {
        Ok(Ok(group)) => packages::group(page, group, manner),
        Ok(Err((map, fault))) => refusal(page, map, fault),
        Err(_) => page.refuse(),
    }
}

/// The answer to a row of texts.
pub fn answer(page: &mut Page, front: &str, row: &str, manner: Manner) {
    match &texts_of(page.alloc, front, row) {
        Ok(texts) if texts.len() <= PATHS.len() => {
            answer_texts(page, PATHS, texts.as_slice(), manner);
        }
        Ok(_) => page.words("! cannot read this row\n"),
        Err(_) => page.refuse(),
    }
}

/// The names of files, and what stands in each.
fn read_files<'n>(
    rt: &(impl Files + AllocGlobal),
    names: &'n str,
) -> io::Result<(Vec<&'n str>, Vec<String>)> {
    let mut paths = Vec::new(rt.alloc());
    let mut texts = Vec::new(rt.alloc());
    for name in names.split_whitespace() {
        texts.push(fs::read_to_string(rt, name)?)?;
        paths.push(name)?;
    }
    Ok((paths, texts))
}

/// The answer to a row that names files.
pub fn answer_files(rt: &(impl Files + AllocGlobal), page: &mut Page, names: &str) {
    match &read_files(rt, names) {
        Ok((paths, texts)) => {
            answer_texts(page, paths.as_slice(), texts.as_slice(), Manner::Unfolded);
        }
        Err(_) => page.words("! cannot read these files\n"),
    }
}

/// The answer to a large text: how much there is, or why it is refused.
pub fn answer_large(page: &mut Page, text: &str) {
    match &UnresolvedPackageGroup::parse(page.alloc, "a.wit", text) {
        Ok(group) => packages::group_counts(page, group),
        Err((map, fault)) => refusal(page, map, fault),
    }
}
