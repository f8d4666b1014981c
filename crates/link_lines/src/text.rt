//! The texts of lines.

ghost use Rattle.std.specs.Prelude.{◌≡◌, ◌<◌, ◌++◌, IsTrue, OnOk, IfOk, string_bytes};
ghost use Rattle.std.specs.List.{flat_map};
ghost use Rattle.std.specs.Str.{chars};
ghost use Rattle.link_lines.specs.Texts as spec;

use crate::encoding::StringEncoding;
use crate::line::{Link, LinkKind, LinkSide, Owner};
use std::alloc::{AllocError, Global};

/// A hexadecimal digit.
fn digit(number: u8) -> char
    requires { number < 16 }
    ensures { result ≡ spec.hex_digit number }
{
    if number < 10 {
        (b'0' + number) as char
    } else {
        (b'a' + (number - 10)) as char
    }
}

/// Whether a character of a name is written by its number.
fn is_escaped(character: char) -> bool
    ensures value { result ≡ spec.is_escaped character }
    ensures small { IsTrue result → character < 128 }
{
    character <= ' ' || character == '\u{7f}' || character == '\\'
}

/// Writes a backslash and the two digits of a number.
fn push_escape(line: &mut String, number: u8) -> Result<(), AllocError>
    ensures { OnOk result (string_bytes line.new ≡ string_bytes line.old ++ spec.escape number) }
{
    line.push('\\')?;
    line.push(digit(number / 16))?;
    line.push(digit(number % 16))
}

/// Writes a character: as it is, or by its number.
fn push_character(line: &mut String, character: char) -> Result<(), AllocError>
    ensures { OnOk result (string_bytes line.new ≡ string_bytes line.old ++ spec.escaped character) }
{
    if is_escaped(character) {
        return push_escape(line, character as u32 as u8);
    }
    line.push(character)
}

/// Writes the characters of a name.
fn push_characters(line: &mut String, name: &str) -> Result<(), AllocError>
    ensures { OnOk result (string_bytes line.new ≡ string_bytes line.old ++ flat_map spec.escaped (chars name.now)) }
{
    for character in name.chars() {
        push_character(line, character)?;
    }
    Ok(())
}

/// Writes a name without spaces; an empty one is `\e`.
fn push_name(line: &mut String, name: &str) -> Result<(), AllocError>
    ensures { OnOk result (string_bytes line.new ≡ string_bytes line.old ++ spec.name_text name.now) }
{
    if name.is_empty() {
        return line.push_str("\\e");
    }
    push_characters(line, name)
}

/// Writes a space and a name; an absent one is `-`.
fn push_field(line: &mut String, name: &Option<String>) -> Result<(), AllocError>
    ensures { OnOk result (string_bytes line.new ≡ spec.with_field (string_bytes line.old) (spec.field_text name.now)) }
{
    line.push(' ')?;
    match name {
        Some(name) => push_name(line, name.as_str()),
        None => line.push('-'),
    }
}

/// Writes a space and a word.
fn push_word(line: &mut String, word: &str) -> Result<(), AllocError>
    ensures { OnOk result (string_bytes line.new ≡ spec.with_field (string_bytes line.old) word.now) }
{
    line.push(' ')?;
    line.push_str(word)
}

/// Writes a space and an owner.
fn push_owner(line: &mut String, owner: &Owner) -> Result<(), AllocError>
    ensures { OnOk result (string_bytes line.new ≡ spec.with_field (string_bytes line.old) (spec.owner_text owner.now)) }
{
    match owner {
        Owner::Main => push_word(line, "main"),
        Owner::Adapter(name) => {
            push_word(line, "adapter:")?;
            push_name(line, name.as_str())
        }
    }
}

impl LinkSide {
    /// Its word in a line.
    fn word(self) -> &'static str
        ensures { result.now ≡ spec.side_word self }
    {
        match self {
            LinkSide::Import => "import",
            LinkSide::Export => "export",
            LinkSide::Dtor => "dtor",
            LinkSide::Start => "start",
        }
    }
}

impl LinkKind {
    /// Its word in a line.
    fn word(self) -> &'static str
        ensures { result.now ≡ spec.kind_word self }
    {
        match self {
            LinkKind::Lower => "lower",
            LinkKind::Core => "core",
        }
    }
}

/// The word of an encoding; an absent one is `-`.
fn encoding_word(encoding: Option<StringEncoding>) -> &'static str
    ensures { result.now ≡ spec.encoding_word encoding }
{
    match encoding {
        Some(StringEncoding::UTF8) => "utf-8",
        Some(StringEncoding::UTF16) => "utf-16",
        Some(StringEncoding::CompactUTF16) => "latin1+utf-16",
        None => "-",
    }
}

impl Link {
    /// Its line, without a line feed: twelve fields with one space between, in the order of the fields here.
    ///
    /// What is absent is `-`. In names each byte up to 32, 127 and the backslash is a backslash and two lower-case
    /// hexadecimal digits, and an empty name is `\e`.
    pub fn to_text(&self, alloc: Global) -> Result<String, AllocError>
        ensures { IfOk result (λ t. string_bytes t ≡ spec.link_text self.now) }
    {
        let mut line = String::from_str(alloc, self.side.word())?;
        push_owner(&mut line, &self.owner)?;
        push_field(&mut line, &self.module)?;
        push_field(&mut line, &self.name)?;
        push_word(&mut line, self.kind.word())?;
        push_field(&mut line, &self.place)?;
        push_field(&mut line, &self.item)?;
        push_field(&mut line, &self.memory)?;
        push_field(&mut line, &self.realloc)?;
        push_word(&mut line, encoding_word(self.encoding))?;
        push_field(&mut line, &self.post_return)?;
        push_field(&mut line, &self.hook)?;
        Ok(line)
    }
}

/// The lines of links, each with a line feed.
pub fn lines_of(alloc: Global, links: &[Link]) -> Result<String, AllocError>
    ensures { IfOk result (λ t. string_bytes t ≡ spec.lines_text links.now) }
{
    let mut lines = String::new(alloc);
    for link in links {
        let line = link.to_text(alloc)?;
        lines.push_str(line.as_str())?;
        lines.push('\n')?;
    }
    Ok(lines)
}
