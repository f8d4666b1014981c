//! Texts, one behind the other, and where something stands in them.

ghost use Rattle.std.specs.Prelude.{◌≡◌, ◌+◌, ◌≤◌, ◌^◌, ◌⊎◌, ◌<◌, ◌++◌, ◌∷◌, [], length, take, string_bytes, IfOk, IfErr, OnOk, OnErr};
ghost use Rattle.wit_words.specs.Sources as spec;
ghost use Rattle.wit_words.specs.Sources.{total, paths_of, paths_left, source_text, lies_in, IsFaultLine, IsLastLine, IsLineAt, IsLocation, IsPlaceBehind, line_behind, column_behind};

use crate::fault::SyntaxFault;
use std::alloc::{AllocError, AllocFailed, Global};
use std::marker::Model;
use thiserror::Error;

/// A range of bytes of a source map's texts, counted from the first text's start.
#[derive(Clone, Copy, Debug, PartialEq, Eq)]
pub struct Span {
    /// The first byte.
    pub start: u32,
    /// The byte behind the last.
    pub end: u32,
}

/// Why a text isn't taken.
#[derive(Clone, Copy, Debug, PartialEq, Eq, Drop, Error)]
pub enum SourceFault {
    /// S8: the texts together would have more than 4,294,967,295 bytes.
    #[error("S8 TooLarge")]
    TooLarge,
    /// A request for memory was refused.
    #[error("out of memory")]
    OutOfMemory,
}

impl From<AllocError> for SourceFault {
    ghost use Rattle.wit_words.specs.declared.source_map.SourceFault.TheVariants.{OutOfMemory};

    ghost from_gives = { λ _ e. e ≡ OutOfMemory };

    fn from(_e: AllocError) -> SourceFault {
        SourceFault::OutOfMemory
    }
}

impl<T: Drop> From<AllocFailed<T>> for SourceFault {
    ghost use Rattle.wit_words.specs.declared.source_map.SourceFault.TheVariants.{OutOfMemory};

    ghost from_gives = { λ _ e. e ≡ OutOfMemory };

    fn from(_e: AllocFailed<T>) -> SourceFault {
        SourceFault::OutOfMemory
    }
}

/// A text, by its path.
#[derive(Drop)]
struct Source {
    path: String,
    contents: String,
}

/// Texts, one behind the other: the first begins at 0, each other where the one before it ends.
#[derive(Drop)]
pub struct SourceMap {
    alloc: Global,
    sources: Vec<Source>,
    /// Where the last text ends.
    end: u32,
}

impl Model for SourceMap {
    ghost use Rattle.std.specs.Prelude.{◌≡◌, ◌<◌, ◌^◌, List, map};
    ghost use Rattle.wit_words.specs.Sources.{SourceText, source_text, total};

    ghost Value = { List SourceText };

    ghost view = { λ m. map source_text m.sources.items };

    ghost invariant = { λ m. (m.end ≡ total (map source_text m.sources.items)) × (m.end < 2 ^ 32) };
}

impl SourceMap {
    /// No texts.
    pub fn new(alloc: Global) -> SourceMap
        ensures { result ≡ [] }
    {
        SourceMap {
            alloc,
            sources: Vec::new(alloc),
            end: 0,
        }
    }

    /// Adds a text behind the others, and answers where it begins, counted in bytes from the first text's start. Answers
    /// `TooLarge` where all of them would have more than 4,294,967,295 bytes; a text that isn't taken changes nothing.
    pub fn push(&mut self, path: &str, contents: &str) -> Result<u32, SourceFault>
        ensures offset { IfOk result (λ o. o ≡ total self.old) }
        ensures added { OnOk result (self.new ≡ self.old ++ record { path = path.now; contents = contents.now } ∷ []) }
        ensures small { OnOk result (total self.old + length contents.now < 2 ^ 32) }
        ensures cause { IfErr result (λ e. (e ≡ SourceFault.OutOfMemory) ⊎ ((e ≡ SourceFault.TooLarge) × (2 ^ 32 ≤ total self.old + length contents.now))) }
        ensures err { OnErr result (self.new ≡ self.old) }
    {
        let Ok(end) = u32::try_from(self.end as usize + contents.len()) else {
            return Err(SourceFault::TooLarge);
        };
        let source = Source {
            path: String::from_str(self.alloc, path)?,
            contents: String::from_str(self.alloc, contents)?,
        };
        self.sources.push(source)?;
        let offset = self.end;
        self.end = end;
        Ok(offset)
    }

    /// Adds the texts of another map behind the others, and answers where the first of them begins, by which their spans have to be moved.
    /// Answers `TooLarge` where all of them would have more than 4,294,967,295 bytes; texts that aren't taken change nothing.
    pub fn append(&mut self, other: SourceMap) -> Result<u32, SourceFault>
        ensures offset { IfOk result (λ o. o ≡ total self.old) }
        ensures added { OnOk result (self.new ≡ self.old ++ other) }
        ensures small { OnOk result (total self.old + total other < 2 ^ 32) }
        ensures cause { IfErr result (λ e. (e ≡ SourceFault.OutOfMemory) ⊎ ((e ≡ SourceFault.TooLarge) × (2 ^ 32 ≤ total self.old + total other))) }
        ensures err { OnErr result (self.new ≡ self.old) }
    {
        let mut other = other;
        let Ok(end) = u32::try_from(self.end as usize + other.end as usize) else {
            return Err(SourceFault::TooLarge);
        };
        self.sources.append(&mut other.sources)?;
        let first = self.end;
        self.end = end;
        Ok(first)
    }

    /// The paths of the texts, in order.
    pub fn source_names(&self) -> SourceNames<'_>
        ensures { paths_left result ≡ paths_of self.now }
    {
        SourceNames {
            sources: self.sources.as_slice(),
        }
    }

    /// Where a span begins, as `PATH:LINE:COLUMN`, both from 1, the column in characters: in the first text in which all
    /// of the span lies. A span that lies in none has no place, which is `?`.
    pub fn render_location(&self, span: Span) -> Result<String, AllocError>
        ensures { IfOk result (λ place. IsLocation self.now span (string_bytes place)) }
    {
        let mut offset = 0;
        for source in &self.sources {
            if source.holds(offset, span) {
                return source.location(self.alloc, span.start as usize - offset);
            }
            offset += source.contents.len();
        }
        String::from_str(self.alloc, "?")
    }

    /// A line that says where a span begins, as `render_location` does, and then what is there, as in `a.wit:2:5: S3 Unexpected`.
    pub fn render_at(&self, span: Span, what: &str) -> Result<String, AllocError>
        ensures { IfOk result (λ line. IsLineAt self.now span what.now (string_bytes line)) }
    {
        let place = self.render_location(span)?;
        let place = place.as_str();
        format!(in self.alloc; "{place}: {what}")
    }

    /// A fault as a line: where it is, as `render_location` says, and which rule the text breaks there, as in
    /// `a.wit:2:5: S3 Unexpected`. A fault without a place is its own text.
    pub fn render_fault(&self, fault: &SyntaxFault) -> Result<String, AllocError>
        ensures { IfOk result (λ line. IsFaultLine self.now fault.now (string_bytes line)) }
    {
        match *fault {
            SyntaxFault::Broken { rule, span } => {
                let what = rule.to_string(self.alloc)?;
                self.render_at(span, what.as_str())
            }
            other => other.to_string(self.alloc),
        }
    }
}

/// The paths of a source map's texts that are still to come.
#[derive(Clone, Copy)]
pub struct SourceNames<'a> {
    sources: &'a [Source],
}

impl<'a> Iterator for SourceNames<'a> {
    type Item = &'a str;

    ghost use Rattle.std.specs.Iterator.{YieldsFirstBy, item_count};
    ghost use Rattle.wit_words.specs.Sources.{paths_left};

    ghost next_gives = { YieldsFirstBy (λ path. path.now) paths_left };

    ghost remaining = { item_count paths_left };

    fn next(&mut self) -> Option<&'a str> {
        let (first, others) = self.sources.split_first()?;
        self.sources = others;
        Some(first.path.as_str())
    }
}

impl Source {
    /// Whether all of a span lies in the text, which begins there.
    fn holds(&self, offset: usize, span: Span) -> bool
        ensures { result ≡ lies_in span (record { offset = offset; text = source_text self.now }) }
    {
        offset <= span.start as usize
            && span.start <= span.end
            && span.end as usize - offset <= self.contents.len()
    }

    /// The line and the column behind so many bytes.
    fn location(&self, alloc: Global, at: usize) -> Result<String, AllocError>
        requires { at ≤ length (string_bytes self.now.contents) }
        ensures { IfOk result (λ place. IsPlaceBehind (source_text self.now) (take at (string_bytes self.now.contents)) (string_bytes place)) }
    {
        let (front, _) = self.contents.as_bytes().split_at(at);
        let path = self.path.as_str();
        let line = line_behind(front);
        let column = column_behind(last_line(front));
        format!(in alloc; "{path}:{line}:{column}")
    }
}

/// The line of what stands behind some bytes.
fn line_behind(front: &[u8]) -> usize
    ensures { result ≡ line_behind front.now }
{
    let mut line = 1;
    for byte in front {
        if *byte == b'\n' {
            line += 1;
        }
    }
    line
}

/// The column of what stands behind some bytes of a line, in characters.
fn column_behind(last: &[u8]) -> usize
    ensures { result ≡ column_behind last.now }
{
    let mut column = 1;
    for byte in last {
        // (bytes that go on with a character of UTF-8)
        if !(0x80..0xc0).contains(byte) {
            column += 1;
        }
    }
    column
}

/// The bytes behind the last line feed.
fn last_line(front: &[u8]) -> &[u8]
    ensures { IsLastLine front.entry.now result.now }
{
    let mut at = front.len();
    while at > 0 && front[at - 1] != b'\n' {
        at -= 1;
    }
    &front[at..]
}
