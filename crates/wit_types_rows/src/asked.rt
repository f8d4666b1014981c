//! What can be asked of rows.

use crate::{functions, packages, sizes};

/// What is asked of the rows behind a line `= ..`.
#[derive(Clone, Copy)]
pub enum Asked<'a> {
    /// `= order of KIND`: the order of a row `NAME: [NAME ..], ..`. A needed name stands where it is the how manyth in its
    /// row, counted from 0.
    Order(&'a str),
    /// Something of how many flags or cases there are.
    Size(sizes::Question),
    /// Something of a function.
    Function(functions::Question),
    /// `= shorthands`: of a row `TYPE .. ~ SORT -> RESULT`, whether the function is a constructor whose result is its own
    /// resource's.
    Shorthand,
    /// Something of a version, a package or a mangling.
    Package(packages::Question),
    /// `= keys`: of a row `KEY ~ KEY`, where a key is `name NAME` or `interface PLACE`, whether the two are one, and the
    /// first one's text.
    Keys,
    /// `= kinds`: what a type is called.
    Kinds,
    /// `= members`: what is said of a piece of docs, a stability or an item of a world.
    Members,
    /// `= arena`: the ids under which names are put into an arena one by one, and what then stands under each.
    Arena,
}

/// What the words behind `= ` ask.
pub fn asked_by(words: &str) -> Option<Asked<'_>> {
    if let Some(kind) = words.strip_prefix("order of ") {
        return Some(Asked::Order(kind));
    }
    match words {
        "shorthands" => Some(Asked::Shorthand),
        "keys" => Some(Asked::Keys),
        "kinds" => Some(Asked::Kinds),
        "members" => Some(Asked::Members),
        "arena" => Some(Asked::Arena),
        _ => question_by(words),
    }
}

/// What words ask that have several questions to one sort of row.
fn question_by(words: &str) -> Option<Asked<'_>> {
    if let Some(question) = sizes::question_by(words) {
        return Some(Asked::Size(question));
    }
    if let Some(question) = functions::question_by(words) {
        return Some(Asked::Function(question));
    }
    Some(Asked::Package(packages::question_by(words)?))
}
