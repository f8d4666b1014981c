//! Rows of the program: its words, and what a run over files writes.

use crate::stopping::{Ending, Stopping};
use component_linker::{Action, Encoding, Input, Line, LineFault, read_line, run};
use row_pages::{Page, RowFault, UNREADABLE, bytes_of, inside_quotes, readable, unescaped};
use std::alloc::Global;
use std::io::Write;

/// A file that a run can read.
#[derive(Drop)]
pub struct File<'t> {
    pub path: &'t str,
    pub bytes: Vec<u8>,
}

/// A file: its path, and a text between quotation marks or bytes in hexadecimal.
pub fn file_of<'t>(alloc: Global, words: &'t str) -> Result<File<'t>, RowFault> {
    let (path, content) = readable(words.split_once(' '))?;
    let bytes = match inside_quotes(content) {
        Some(text) => unescaped(alloc, text)?.into_bytes(),
        None => bytes_of(alloc, content)?,
    };
    Ok(File { path, bytes })
}

/// A line with a word and a text.
fn write_field(page: &mut Page, word: &str, text: &str) {
    page.words("  ");
    page.words(word);
    page.words(" ");
    page.quoted(text);
    page.words("\n");
}

fn write_input(page: &mut Page, input: &Input) {
    match input {
        Input::Text(path) => write_field(page, "text", path),
        Input::Dep(path) => write_field(page, "dep", path),
        Input::Component(path) => write_field(page, "component", path),
        Input::Main { world, path } => {
            page.words("  main ");
            page.quoted(world);
            page.words(" ");
            page.quoted(path);
            page.words("\n");
        }
    }
}

/// A line with the features, if there are some.
fn write_features(page: &mut Page, features: &[String]) {
    if features.is_empty() {
        return;
    }
    page.words("  features");
    for feature in features {
        page.words(" ");
        page.quoted(feature);
    }
    page.words("\n");
}

/// A line with the name of a flag, if it is given.
fn write_flag(page: &mut Page, name: &str, is_given: bool) {
    if is_given {
        page.line(name);
    }
}

/// A line for each flag that is given.
fn write_flags(page: &mut Page, line: &Line) {
    write_flag(page, "all-features", line.all_features);
    write_flag(page, "no-merge", line.no_merge);
    write_flag(page, "canonical", line.canonical);
    write_flag(page, "reject-legacy", line.reject_legacy);
    write_flag(page, "return-call-ref", line.return_call_ref);
    write_flag(page, "debug-names", line.debug_names);
    write_flag(page, "validate", line.validate);
}

/// A line with the encoding, if it isn't the one that holds where none is named.
fn write_encoding(page: &mut Page, encoding: Encoding) {
    match encoding {
        Encoding::Utf8 => {}
        Encoding::Utf16 => page.line("encoding utf16"),
        Encoding::Compact => page.line("encoding compact"),
    }
}

/// What a line says, beside its defaults.
fn write_line(page: &mut Page, line: &Line) {
    page.line(match line.action {
        Action::Build => "build",
        Action::Links => "links",
        Action::Audit => "audit",
    });
    write_field(page, "world", &line.world);
    write_features(page, &line.features);
    write_flags(page, line);
    write_encoding(page, line.encoding);
    if let Some(path) = &line.out {
        write_field(page, "out", path);
    }
    for input in &line.inputs {
        write_input(page, input);
    }
}

/// The line that the words are, or why they are none.
pub fn write_reading(alloc: Global, page: &mut Page, words: &[&str]) {
    match read_line(alloc, words) {
        Ok(line) => write_line(page, &line),
        Err(LineFault::Clap(text)) => write_field(page, "clap", &text),
        Err(LineFault::Usage) => page.line("usage"),
        Err(LineFault::OutOfMemory) => page.line("out of memory"),
    }
}

/// A line with the bytes that were written.
fn write_bytes(page: &mut Page, word: &str, bytes: &[u8]) {
    page.words("  ");
    page.words(word);
    page.words(" ");
    page.bytes(bytes);
    page.words("\n");
}

/// Runs the words over the files, and answers the status.
fn run_words<O: Write, E: Write>(
    alloc: Global,
    files: &[(&str, &[u8])],
    words: &[&str],
    out: &mut O,
    err: &mut E,
) -> u8 {
    let line = read_line(alloc, words);
    run(alloc, &line, files, out, err)
}

/// Runs the words over the files, and writes the status and what the run wrote.
pub fn write_run(alloc: Global, files: &[(&str, &[u8])], words: &[&str], page: &mut Page) {
    let mut out = Vec::new(alloc);
    let mut err = Vec::new(alloc);
    let status = run_words(alloc, files, words, &mut out, &mut err);
    page.number("status", usize::from(status));
    write_bytes(page, "out", &out);
    write_bytes(page, "err", &err);
}

/// A writer by the words of a row: how many bytes it takes, at most how many a call, and how it ends.
fn stopping(alloc: Global, left: &str, most: &str, ending: &str) -> Option<Stopping> {
    let left = left.parse::<usize>().ok()?;
    let most = most.parse::<usize>().ok()?;
    let ending = match ending {
        "fails" => Ending::Fails,
        "nothing" => Ending::TakesNothing,
        _ => return None,
    };
    Some(Stopping::after(alloc, left, most, ending))
}

/// What a writer took, and whether it was called behind its end.
fn write_taken(page: &mut Page, word: &str, writer: &Stopping) {
    write_bytes(page, word, &writer.taken);
    page.holds(!writer.is_called_again, "it is called behind its end");
}

/// Runs words over the files with writers that stop, and writes the status and what these took. In front of the words stands how
/// many bytes standard output takes and how many standard error, at most how many a call, and how both end.
pub fn write_stop(alloc: Global, files: &[(&str, &[u8])], words: &[&str], page: &mut Page) {
    let [out, err, most, ending, line @ ..] = words else {
        return page.words(UNREADABLE);
    };
    let Some(mut out) = stopping(alloc, out, most, ending) else {
        return page.words(UNREADABLE);
    };
    let Some(mut err) = stopping(alloc, err, most, ending) else {
        return page.words(UNREADABLE);
    };
    let status = run_words(alloc, files, line, &mut out, &mut err);
    page.number("status", usize::from(status));
    write_taken(page, "out", &out);
    write_taken(page, "err", &err);
}
