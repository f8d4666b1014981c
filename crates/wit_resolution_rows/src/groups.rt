//! Groups of files: those of one package, and of the packages that are nested in them; and steps, of groups that are pushed together.

use std::alloc::{AllocError, Global};
use std::rt::Files;
use std::{fs, io};

/// What the files of a row are called, in their order.
const PATHS: &[&str] = &[
    "a.wit", "b.wit", "c.wit", "d.wit", "e.wit", "f.wit", "g.wit", "h.wit",
];

/// What each file behind those is called.
const LATER: &str = "later.wit";

/// The files of a group.
#[derive(Drop)]
pub struct Group {
    paths: Vec<String>,
    texts: Vec<String>,
}

impl Group {
    /// No files.
    fn new(alloc: Global) -> Group {
        Group {
            paths: Vec::new(alloc),
            texts: Vec::new(alloc),
        }
    }

    /// Adds a file behind the others.
    fn push(&mut self, alloc: Global, path: &str, text: String) -> Result<(), AllocError> {
        self.paths.push(String::from_str(alloc, path)?)?;
        self.texts.push(text)?;
        Ok(())
    }

    /// The path and the text of the file, if there is but one.
    pub fn only_file(&self) -> Option<(&str, &str)> {
        match (self.paths.as_slice(), self.texts.as_slice()) {
            ([path], [text]) => Some((path.as_str(), text.as_str())),
            _ => None,
        }
    }

    /// The paths and the texts.
    pub fn files(&self, alloc: Global) -> Result<Vec<(&str, &str)>, AllocError> {
        let mut found = Vec::new(alloc);
        for (path, text) in self.paths.iter().zip(self.texts.iter()) {
            found.push((path.as_str(), text.as_str()))?;
        }
        Ok(found)
    }
}

/// The path of a file by its place in the row.
fn path_at(place: usize) -> &'static str {
    match PATHS.get(place) {
        Some(path) => path,
        None => LATER,
    }
}

/// The group of some texts, of which the first is that file of the row.
fn group_of_texts(alloc: Global, first: usize, texts: &str) -> Result<Group, AllocError> {
    let mut group = Group::new(alloc);
    for (index, part) in texts.split(" | ").enumerate() {
        let path = path_at(first.saturating_add(index));
        group.push(alloc, path, part.replace(alloc, "\\n", "\n")?)?;
    }
    Ok(group)
}

/// Groups that are pushed together, the main one first.
#[derive(Drop)]
pub struct Step {
    /// Whether each group is parsed by itself, and all are pushed as groups.
    pub parsed: bool,
    /// The groups.
    pub groups: Vec<Group>,
}

/// The steps of a row.
pub type Steps = Vec<Step>;

/// Whether the groups of a step are parsed by themselves, and the words behind that.
fn manner(words: &str) -> (bool, &str) {
    match words.strip_prefix("groups ") {
        Some(words) => (true, words),
        None => (false, words),
    }
}

/// The step of texts, of which the first file is that of the row.
fn step_of_texts(alloc: Global, first: usize, words: &str) -> Result<Step, AllocError> {
    let (parsed, texts) = manner(words);
    let mut groups = Vec::new(alloc);
    let mut first = first;
    for texts in texts.split(" ++ ") {
        let group = group_of_texts(alloc, first, texts)?;
        first = first.saturating_add(group.paths.len());
        groups.push(group)?;
    }
    Ok(Step { parsed, groups })
}

/// How many files groups have.
fn files_in(groups: &[Group]) -> usize {
    let mut count = 0_usize;
    for group in groups {
        count = count.saturating_add(group.paths.len());
    }
    count
}

/// The steps of a row of texts.
pub fn steps_of_texts(alloc: Global, row: &str) -> Result<Steps, AllocError> {
    let mut steps = Vec::new(alloc);
    let mut first = 0_usize;
    for words in row.split(" || ") {
        let step = step_of_texts(alloc, first, words)?;
        first = first.saturating_add(files_in(step.groups.as_slice()));
        steps.push(step)?;
    }
    Ok(steps)
}

/// The group of files of those names.
fn group_of_files(rt: &(impl Files + AllocGlobal), names: &str) -> io::Result<Group> {
    let mut group = Group::new(rt.alloc());
    for name in names.split_whitespace() {
        group.push(rt.alloc(), name, fs::read_to_string(rt, name)?)?;
    }
    Ok(group)
}

/// The step of files of those names.
fn step_of_files(rt: &(impl Files + AllocGlobal), words: &str) -> io::Result<Step> {
    let (parsed, names) = manner(words);
    let mut groups = Vec::new(rt.alloc());
    for names in names.split(" ++ ") {
        groups.push(group_of_files(rt, names)?)?;
    }
    Ok(Step { parsed, groups })
}

/// The steps of a row that names files.
pub fn steps_of_files(rt: &(impl Files + AllocGlobal), row: &str) -> io::Result<Steps> {
    let mut steps = Vec::new(rt.alloc());
    for words in row.split(" || ") {
        steps.push(step_of_files(rt, words)?)?;
    }
    Ok(steps)
}
