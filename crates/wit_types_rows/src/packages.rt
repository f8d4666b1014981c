//! Rows of versions, packages and manglings.

use crate::row_fault::{RowFault, made, readable};
use semver::Version;
use std::alloc::{AllocError, Global};
use wit_types::{Mangling, PackageName};

/// What is asked of a text.
#[derive(Clone, Copy)]
pub enum Question {
    /// `= tracks`: of a version its track's text and what stands behind that, and its track as a version.
    Track,
    /// `= packages`: of a row `NAMESPACE NAME VERSION INTERFACE`, where `-` is no version, the package's text and the
    /// interface's key.
    Package,
    /// `= manglings`: what a text names.
    Mangling,
}

/// What words ask of a text.
pub fn question_by(words: &str) -> Option<Question> {
    match words {
        "tracks" => Some(Question::Track),
        "packages" => Some(Question::Package),
        "manglings" => Some(Question::Mangling),
        _ => None,
    }
}

/// The text of a version's track, and what stands behind that.
fn track_text(alloc: Global, version: &Version) -> Result<String, AllocError> {
    let (text, suffix) = PackageName::version_compat_track_string(alloc, version)?;
    match suffix {
        Some(suffix) => format!(in alloc; "{text} and {suffix}"),
        None => format!(in alloc; "{text} and nothing"),
    }
}

/// What is said of a version's track.
fn both_tracks(alloc: Global, version: &Version) -> Result<String, AllocError> {
    let text = track_text(alloc, version)?;
    let (track, _) = PackageName::version_compat_track(alloc, version)?;
    format!(in alloc; "{text}, as {track}")
}

/// The track of a version.
fn track(alloc: Global, row: &str) -> Result<String, RowFault> {
    let version = readable(version_of(alloc, row))?;
    made(both_tracks(alloc, &version))
}

/// The version of a word, where `-` is none.
fn version_of(alloc: Global, word: &str) -> Option<Version> {
    Version::parse(alloc, word).ok()
}

/// The words of a row.
fn words_of(row: &str) -> Option<(&str, &str, &str, &str)> {
    let (namespace, rest) = row.split_once(' ')?;
    let (name, rest) = rest.split_once(' ')?;
    let (version, interface) = rest.split_once(' ')?;
    Some((namespace, name, version, interface))
}

/// The texts of a package and of an interface.
fn package(alloc: Global, row: &str) -> Result<String, RowFault> {
    let (namespace, name, version, interface) = readable(words_of(row))?;
    let package = PackageName {
        namespace: String::from_str(alloc, namespace)?,
        name: String::from_str(alloc, name)?,
        version: version_of(alloc, version),
    };
    made(package_text(alloc, &package, interface))
}

/// The texts of a package and of an interface of it.
fn package_text(
    alloc: Global,
    package: &PackageName,
    interface: &str,
) -> Result<String, AllocError> {
    let text = package.to_text(alloc)?;
    let shown = format!(in alloc; "{package}")?;
    let agrees = if text.as_str() == shown.as_str() {
        ""
    } else {
        "! "
    };
    let key = package.interface_id(alloc, interface)?;
    format!(in alloc; "{agrees}{text}, {key}")
}

/// What a text names.
fn mangling_text(row: &str) -> &'static str {
    match row.parse::<Mangling>() {
        Ok(Mangling::Standard32) => "Standard32",
        Ok(Mangling::Legacy) => "Legacy",
        Err(_) => "refused",
    }
}

/// The answer to a row.
pub fn answer(alloc: Global, question: Question, row: &str) -> Result<String, RowFault> {
    match question {
        Question::Track => track(alloc, row),
        Question::Package => package(alloc, row),
        Question::Mangling => made(String::from_str(alloc, mangling_text(row))),
    }
}
