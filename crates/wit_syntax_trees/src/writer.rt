//! Lines of a tree, and what stands in many of them: names, versions and docs, each with its place as `[START..END]`.

use std::alloc::{AllocError, Global};
use std::fmt::Write;
use wit_syntax::{Attribute, Docs, Gate, Gated, Id, PackageName, Span, UseName, UsePath, Version};

/// A tree as it is written, a line for each of its parts.
#[derive(Drop)]
pub struct Writer {
    /// What is written.
    out: String,
    /// Whether a request for memory was refused; `finish` says so.
    refused: bool,
    /// In how many parts the next line stands.
    depth: usize,
    /// Where the text begins, which places are counted from.
    offset: u32,
    /// Where the item stands whose line comes next.
    item: Option<Span>,
}

impl Writer {
    /// Nothing yet, of a text that begins at `offset`.
    pub fn new(alloc: Global, offset: u32) -> Writer {
        Writer {
            out: String::new(alloc),
            refused: false,
            depth: 0,
            offset,
            item: None,
        }
    }

    /// What was written, if all of it found memory.
    pub fn finish(self) -> Result<String, AllocError> {
        if self.refused {
            return Err(AllocError);
        }
        Ok(self.out)
    }

    /// Where the text begins.
    pub fn offset(&self) -> u32 {
        self.offset
    }

    /// Takes note of whether a part was written.
    fn note(&mut self, written: Result<(), AllocError>) {
        self.refused |= written.is_err();
    }

    /// The next lines stand in the part of the last one.
    pub fn go_in(&mut self) {
        self.depth = self.depth.saturating_add(1);
    }

    /// The next lines stand behind that part.
    pub fn go_out(&mut self) {
        self.depth = self.depth.saturating_sub(1);
    }

    /// Begins a line; that of an item has its place in front.
    pub fn begin(&mut self, words: &str) {
        for _ in 0..self.depth {
            self.words("    ");
        }
        if let Some(span) = self.item.take() {
            self.span(span);
            self.words(" ");
        }
        self.words(words);
    }

    /// Goes on with a line.
    pub fn words(&mut self, words: &str) {
        let written = self.out.push_str(words);
        self.note(written);
    }

    /// Ends a line.
    pub fn end(&mut self) {
        self.words("\n");
    }

    /// A line with a name behind words.
    pub fn named(&mut self, words: &str, name: &Id) {
        self.begin(words);
        self.last_id(name);
    }

    /// Where a text is refused, behind its code.
    pub fn range(&mut self, start: u32, end: u32) {
        let written = write!(self.out, " at {start}..{end}");
        self.note(written);
    }

    /// The length of a list behind its type.
    pub fn length(&mut self, length: u32) {
        let written = write!(self.out, ", {length}");
        self.note(written);
    }

    /// A place.
    pub fn span(&mut self, span: Span) {
        let start = span.start.wrapping_sub(self.offset);
        let end = span.end.wrapping_sub(self.offset);
        let written = write!(self.out, "[{start}..{end}]");
        self.note(written);
    }

    /// A name and its place.
    pub fn id(&mut self, id: &Id) {
        self.words(id.name);
        self.span(id.span);
    }

    /// A name at the end of a line.
    pub fn last_id(&mut self, id: &Id) {
        self.id(id);
        self.end();
    }

    fn version(&mut self, version: &Version) {
        self.words(version.text);
        self.span(version.span);
    }

    /// A version behind a name, if there is one.
    fn at_version(&mut self, version: &Option<Version>) {
        if let Some(version) = version {
            self.words("@");
            self.version(version);
        }
    }

    /// The two names of a package.
    fn package_names(&mut self, name: &PackageName) {
        self.id(&name.namespace);
        self.words(":");
        self.id(&name.name);
    }

    /// `namespace:name` or `namespace:name@version`
    pub fn package_name(&mut self, name: &PackageName) {
        self.package_names(name);
        self.at_version(&name.version);
    }

    /// `name`, or the name of a package with the name in it.
    pub fn path(&mut self, path: &UsePath) {
        match path {
            UsePath::Id(id) => self.id(id),
            UsePath::Package { id, name } => {
                self.package_names(id);
                self.words("/");
                self.id(name);
                self.at_version(&id.version);
            }
        }
    }

    /// A path at the end of a line.
    pub fn last_path(&mut self, path: &UsePath) {
        self.path(path);
        self.end();
    }

    /// A line with a path behind words.
    pub fn line_of_path(&mut self, words: &str, path: &UsePath) {
        self.begin(words);
        self.last_path(path);
    }

    /// A line with a package's name behind words.
    pub fn line_of_package(&mut self, words: &str, name: &PackageName) {
        self.begin(words);
        self.package_name(name);
        self.end();
    }

    /// Another name behind a name, if there is one, and the end of the line.
    pub fn as_name(&mut self, other: &Option<Id>) {
        if let Some(other) = other {
            self.words(" as ");
            self.id(other);
        }
        self.end();
    }

    /// A line for a name that is used.
    pub fn used_name(&mut self, name: &UseName) {
        self.begin("name ");
        self.id(&name.name);
        self.as_name(&name.as_);
    }

    /// A line for each comment.
    pub fn docs(&mut self, docs: &Docs) {
        for comment in &docs.comments {
            self.begin("docs ");
            self.span(comment.span);
            let text = comment.text;
            let written = writeln!(self.out, " {text:?}");
            self.note(written);
        }
    }

    /// The lines that stand in front of an item: its docs and its attributes.
    pub fn gates<T>(&mut self, gated: &Gated<T>) {
        self.docs(&gated.docs);
        for attribute in &gated.attributes {
            self.attribute(attribute);
        }
        self.item = Some(gated.span);
    }

    fn attribute(&mut self, attribute: &Attribute) {
        self.begin("@");
        self.gate(&attribute.gate);
        self.words(" ");
        self.span(attribute.span);
        self.end();
    }

    fn gate(&mut self, gate: &Gate) {
        match gate {
            Gate::Since(version) => {
                self.words("since ");
                self.version(version);
            }
            Gate::Deprecated(version) => {
                self.words("deprecated ");
                self.version(version);
            }
            Gate::Unstable(feature) => {
                self.words("unstable ");
                self.id(feature);
            }
        }
    }
}
