//! Gates and docs.

use crate::page::Page;
use semver::Version;
use wit_types::{Docs, Stability};

/// A line for each line of docs.
pub fn docs(page: &mut Page, docs: &Docs) {
    if let Some(contents) = &docs.contents {
        for line in contents.split('\n') {
            page.begin("///");
            page.words(if line.is_empty() { "" } else { " " });
            page.words(line);
            page.end();
        }
    }
}

/// Since when something is deprecated, if it is.
fn deprecated(page: &mut Page, version: &Option<Version>) {
    if let Some(version) = version {
        page.words(" deprecated ");
        page.shown(version);
    }
}

/// The gates of something behind it.
pub fn gates(page: &mut Page, stability: &Stability) {
    match stability {
        Stability::Unknown => {}
        Stability::Unstable {
            feature,
            deprecated: version,
        } => {
            page.words(" unstable ");
            page.words(feature);
            deprecated(page, version);
        }
        Stability::Stable {
            since,
            deprecated: version,
        } => {
            page.words(" since ");
            page.shown(since);
            deprecated(page, version);
        }
    }
}
