//! Rows that ask a session.

use crate::refusals::{write_fault, write_unresolved};
use crate::signature::write_signatures;
use component_linker::{Link, PackageId, Session, audit};
use row_pages::{Page, RowFault, UNREADABLE, bytes_of, quoted, readable};
use std::alloc::Global;
use wit_types::Package;

/// What a session is asked.
#[derive(Drop)]
pub enum Question {
    /// Which packages it has.
    Packages,
    /// To choose a world: the main packages, and the text.
    Select(Vec<PackageId>, Option<String>),
    Links,
    Build,
    /// To judge these bytes.
    Audit(Vec<u8>),
    /// To judge what was built last.
    AuditBuilt,
    /// The core types of functions of this name.
    Signature(String),
}

/// The packages of these indices, with a comma between two; `-` is none.
fn packages_of(alloc: Global, indices: &str) -> Result<Vec<PackageId>, RowFault> {
    let mut packages = Vec::new(alloc);
    if indices == "-" {
        return Ok(packages);
    }
    for index in indices.split(',') {
        let index = readable(index.parse::<usize>().ok())?;
        packages.push(PackageId::from_index(index))?;
    }
    Ok(packages)
}

/// The choice that the words spell: packages, and a text between quotation marks or `none`.
fn selection_of(alloc: Global, words: &str) -> Result<Question, RowFault> {
    let (indices, text) = readable(words.split_once(' '))?;
    let packages = packages_of(alloc, indices)?;
    if text == "none" {
        return Ok(Question::Select(packages, None));
    }
    Ok(Question::Select(packages, Some(quoted(alloc, text)?)))
}

/// The row of this first word, with the rest of its line.
pub fn question_of(alloc: Global, word: &str, rest: &str) -> Result<Question, RowFault> {
    match (word, rest) {
        ("packages", "") => Ok(Question::Packages),
        ("links", "") => Ok(Question::Links),
        ("build", "") => Ok(Question::Build),
        ("audit", "built") => Ok(Question::AuditBuilt),
        ("audit", digits) => Ok(Question::Audit(bytes_of(alloc, digits)?)),
        ("select", words) => selection_of(alloc, words),
        ("signature", name) => Ok(Question::Signature(String::from_str(alloc, name)?)),
        _ => Err(RowFault::Unreadable),
    }
}

/// A world of a package, on a line.
fn write_world(alloc: Global, page: &mut Page, package: &Package, world: &str) {
    page.words("  ");
    page.text(package.name.to_text(alloc));
    page.words("/");
    page.words(world);
    page.words("\n");
}

/// The worlds of a package, each on a line; a package without worlds has one for itself.
fn write_package(alloc: Global, page: &mut Page, package: &Package) {
    if package.worlds.is_empty() {
        page.made(package.name.to_text(alloc));
    }
    for (world, _) in package.worlds.iter() {
        write_world(alloc, page, package, world);
    }
}

/// The packages with their worlds.
fn write_packages(alloc: Global, page: &mut Page, session: &Session) {
    let packages = session.resolve().packages();
    if packages.len() == 0 {
        page.line("none");
    }
    for package in packages.iter() {
        write_package(alloc, page, package);
    }
}

fn write_selection(
    session: &mut Session,
    packages: &[PackageId],
    text: Option<&str>,
    page: &mut Page,
) {
    match session.select_world(packages, text) {
        Ok(world) => page.number("world", world.index()),
        Err(error) => write_unresolved(page, session, &error),
    }
}

/// Links, each on a line.
fn write_links(alloc: Global, page: &mut Page, links: &[Link]) {
    if links.is_empty() {
        page.line("none");
    }
    for link in links {
        page.made(link.to_text(alloc));
    }
}

/// The links of a session, or why it has none.
fn write_linking(alloc: Global, page: &mut Page, session: &Session) {
    match session.links() {
        Ok(links) => write_links(alloc, page, &links),
        Err(fault) => write_fault(page, &fault),
    }
}

/// The verdict on bytes, or why there is none.
fn write_verdict(alloc: Global, page: &mut Page, session: &Session, bytes: &[u8]) {
    match audit(session, bytes) {
        Ok(verdict) => page.made(verdict.to_text(alloc)),
        Err(fault) => write_fault(page, &fault),
    }
}

/// The component in hexadecimal, which is kept, or why there is none.
fn write_built(alloc: Global, session: &Session, built: &mut Option<Vec<u8>>, page: &mut Page) {
    match session.build() {
        Ok(bytes) => {
            page.made(hex::encode(alloc, bytes.as_slice()));
            *built = Some(bytes);
        }
        Err(fault) => write_fault(page, &fault),
    }
}

/// Asks a session, and writes what it answers; `built` is what was built last.
pub fn ask(
    alloc: Global,
    session: &mut Session,
    built: &mut Option<Vec<u8>>,
    question: &Question,
    page: &mut Page,
) {
    match question {
        Question::Packages => write_packages(alloc, page, session),
        Question::Select(packages, text) => {
            write_selection(
                session,
                packages,
                text.as_ref().map(|text| text.as_str()),
                page,
            );
        }
        Question::Links => write_linking(alloc, page, session),
        Question::Build => write_built(alloc, session, built, page),
        Question::Audit(bytes) => write_verdict(alloc, page, session, bytes),
        Question::AuditBuilt => match built {
            Some(bytes) => write_verdict(alloc, page, session, bytes),
            None => page.words(UNREADABLE),
        },
        Question::Signature(name) => write_signatures(page, session, name.as_str()),
    }
}
