//! Rows, and the answers to them.

use crate::groups::{Step, Steps, steps_of_files, steps_of_texts};
use crate::pushes::push;
use crate::{packages, questions};
use std::alloc::{AllocError, Global};
use std::rt::Files;
use wit_pages::Page;
use wit_resolution::Resolve;

/// What lines say of the rows behind them.
#[derive(Clone, Copy)]
pub struct Setting<'a> {
    /// The words in front of a row.
    pub front: &'a str,
    /// The features that are active.
    pub active: &'a str,
}

/// Makes features of those names active; `*` stands for all.
fn activate(resolve: &mut Resolve, names: &str) -> Result<(), AllocError> {
    for name in names.split_whitespace() {
        if name == "*" {
            resolve.all_features(true);
        } else {
            resolve.add_feature(name)?;
        }
    }
    Ok(())
}

/// The answer to groups of files that are pushed in those steps, one behind the other.
fn answer_steps(page: &mut Page, active: &str, steps: &[Step], asked: Option<&str>) {
    let mut resolve = Resolve::new(page.alloc);
    if activate(&mut resolve, active).is_err() {
        return page.refuse();
    }
    for step in steps {
        push(page, &mut resolve, step);
    }
    match asked {
        Some(asked) => questions::answer(page, &resolve, asked),
        None => packages::all(page, &resolve),
    }
}

/// The steps of a row, which names files or has their texts.
fn steps_of(rt: &(impl Files + AllocGlobal), row: &str) -> Option<Steps> {
    match row.strip_prefix("& ") {
        Some(names) => steps_of_files(rt, names).ok(),
        None => steps_of_texts(rt.alloc(), row).ok(),
    }
}

/// The answer to a row that has the words in front.
fn answer_whole(rt: &(impl Files + AllocGlobal), page: &mut Page, active: &str, row: &str) {
    let (row, asked) = match row.split_once(" >> ") {
        Some((row, asked)) => (row, Some(asked)),
        None => (row, None),
    };
    match &steps_of(rt, row) {
        Some(steps) => answer_steps(page, active, steps.as_slice(), asked),
        None => page.words("! cannot read this row\n"),
    }
}

/// A row behind the words in front; one that names files has none.
fn whole_row(alloc: Global, front: &str, row: &str) -> Result<String, AllocError> {
    if front.is_empty() || row.starts_with("& ") {
        return String::from_str(alloc, row);
    }
    format!(in alloc; "{front} {row}")
}

/// The answer to a row.
pub fn answer(rt: &(impl Files + AllocGlobal), page: &mut Page, setting: &Setting<'_>, row: &str) {
    match &whole_row(page.alloc, setting.front, row) {
        Ok(row) => answer_whole(rt, page, setting.active, row),
        Err(_) => page.refuse(),
    }
}
