//! Rows of packages that are resolved together: the files of packages in a line, which are pushed one behind the other, and below it
//! each push that is refused, and then all that is there, or answers to questions.
//!
//! Files of one group are parted by ` | ` and are one package, with the packages that are nested in them; groups that are pushed
//! together are parted by ` ++ `, of which those behind the first have a file each; those that come behind others are parted by
//! ` || `, and `\n` in a row is a line feed. Where `groups ` stands in front of groups that are pushed together, each of them is
//! parsed by itself, they may all have several files, and they are pushed as groups. A line that begins with `= ` gives the words that
//! stand in front of each row behind it, up to the next such line, and `=` alone says that nothing does; one that begins with `+` names
//! the features that are active for the rows behind it, of which `*` stands for all. A line that begins with `& ` names files that lie
//! where the program runs, groups of them parted in the same way. Behind ` >> ` stand questions, parted by ` ; ` (`questions.rt`). Lines
//! that begin with `# ` are titles.
#![tactic(auto)]

mod core_exports;
mod core_imports;
mod core_names;
mod deps;
mod groups;
mod named;
mod names;
mod packages;
mod parsing;
mod places;
mod pushes;
mod questions;
mod rows;

use rows::Setting;
use std::alloc::AllocError;
use std::io;
use std::rt::Files;
use wit_pages::Page;

/// A line, with its answer below it where it is a row.
fn transcript<'a>(
    rt: &(impl Files + AllocGlobal),
    setting: &mut Setting<'a>,
    line: &'a str,
) -> Result<String, AllocError> {
    let mut page = Page::new(rt.alloc());
    page.words(line);
    page.end();
    page.go_in();
    if let Some(words) = line.strip_prefix("= ") {
        setting.front = words;
    } else if line == "=" {
        setting.front = "";
    } else if let Some(words) = line.strip_prefix("+") {
        setting.active = words;
    } else if !line.is_empty() && !line.starts_with("# ") {
        rows::answer(rt, &mut page, setting, line);
    }
    page.finish()
}

fn main(rt: HostRuntime) -> io::Result<()> {
    let input = io::read_to_string(rt.alloc(), rt.stdin())?;
    let mut setting = Setting {
        front: "",
        active: "",
    };
    for line in input.lines() {
        rt.print(transcript(&rt, &mut setting, line)?)?;
    }
    Ok(())
}
