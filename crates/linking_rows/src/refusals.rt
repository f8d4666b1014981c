//! The lines of refusals.

use component_linker::{Fault, ResolveError, ResolveErrorKind, Session};
use row_pages::Page;

/// The line of a refusal. Want of memory has none: the page takes note of it.
pub fn write_fault(page: &mut Page, fault: &Fault) {
    if matches!(fault, Fault::OutOfMemory) {
        return page.refuse();
    }
    page.words("  ");
    page.shown(fault);
    page.words("\n");
}

/// The line of packages that aren't resolved, or have no such world, with its place in the texts of the session, if it has
/// one. Want of memory has none: the page takes note of it.
pub fn write_unresolved(page: &mut Page, session: &Session, error: &ResolveError) {
    if *error.kind() == ResolveErrorKind::OutOfMemory {
        return page.refuse();
    }
    page.words("  ");
    page.shown(error);
    if let Some(span) = error.span() {
        page.words(" at ");
        page.text(session.resolve().render_location(span));
    }
    page.words("\n");
}
