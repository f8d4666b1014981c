//! Rows of packages: the files of a package in a line, and below it what they are resolved to, or the rule that they break
//! and where.
//!
//! A line that begins with `= ` gives the words that stand in front of the first file of each row behind it, up to the next
//! such line; `=` alone says that nothing does. Files of one row are parted by ` | `, and `\n` in a row is a line feed. A line
//! that begins with `& ` names files that lie where the program runs, and of these it is also written what each name of a type
//! stands for, unfolded, and how much there is in all. One that begins with `! ` says how large a text is to be made
//! (`large.rt`), one that begins with `? ` is a row of which places are written too, and one that begins with `+ ` is a row of
//! which the files are given to a resolver one by one. Lines that begin with `# ` are titles.
#![tactic(auto)]

mod files;
mod large;
mod packages;
mod pushed;

use packages::Manner;
use std::alloc::AllocError;
use std::io;
use std::rt::Files;
use wit_pages::Page;

/// The answer to a line that is no row of texts by itself.
fn marked(rt: &(impl Files + AllocGlobal), page: &mut Page, front: &str, line: &str) {
    if let Some(names) = line.strip_prefix("& ") {
        files::answer_files(rt, page, names);
    } else if let Some(words) = line.strip_prefix("! ") {
        large::answer(page, front, words);
    } else if let Some(row) = line.strip_prefix("? ") {
        files::answer(page, front, row, Manner::Placed);
    } else if let Some(row) = line.strip_prefix("+ ") {
        files::answer(page, front, row, Manner::Pushed);
    } else {
        files::answer(page, front, line, Manner::Parsed);
    }
}

/// A line, with its answer below it where it is a row.
fn transcript<'a>(
    rt: &(impl Files + AllocGlobal),
    front: &mut &'a str,
    line: &'a str,
) -> Result<String, AllocError> {
    let mut page = Page::new(rt.alloc());
    page.words(line);
    page.end();
    page.go_in();
    if let Some(words) = line.strip_prefix("= ") {
        *front = words;
    } else if line == "=" {
        *front = "";
    } else if !line.is_empty() && !line.starts_with("# ") {
        marked(rt, &mut page, front, line);
    }
    page.finish()
}

fn main(rt: HostRuntime) -> io::Result<()> {
    let input = io::read_to_string(rt.alloc(), rt.stdin())?;
    let mut front = "";
    for line in input.lines() {
        rt.print(transcript(&rt, &mut front, line)?)?;
    }
    Ok(())
}
