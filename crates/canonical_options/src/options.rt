//! The options of a function, one by one.

ghost use Rattle.std.specs.Prelude.{◌≡◌};
ghost use Rattle.canonical_options.specs.Options as spec;

use component_definitions::CanonicalOption;
use link_lines::StringEncoding;
use thiserror::Error;

/// Why a function can't have the options that it asks for.
#[derive(Clone, Copy, Debug, PartialEq, Eq, Error)]
pub enum OptionFault {
    /// It asks for a memory, and there is none.
    #[error("no memory")]
    NoMemory,
    /// It asks for a function that makes room, and there is none.
    #[error("no realloc")]
    NoRealloc,
}

/// The option that says how strings are encoded (Component Model Binary, Canonical Definitions).
fn encoding_option(encoding: StringEncoding) -> CanonicalOption
    ensures { result ≡ spec.encoding_option encoding }
{
    match encoding {
        StringEncoding::UTF8 => CanonicalOption::Utf8,
        StringEncoding::UTF16 => CanonicalOption::Utf16,
        StringEncoding::CompactUTF16 => CanonicalOption::CompactUtf16,
    }
}

/// The options of a function that are still to come: the memory, what makes room in it, the encoding of strings.
#[derive(Drop)]
pub struct Iter {
    pub(crate) memory: Option<u32>,
    pub(crate) realloc: Option<u32>,
    pub(crate) encoding: Option<StringEncoding>,
}

impl Iter {
    ghost use Rattle.canonical_options.specs.View.{left_of};

    /// The options that are given.
    pub fn new(memory: Option<u32>, realloc: Option<u32>, encoding: Option<StringEncoding>) -> Iter
        ensures { left_of result ≡ spec.options_with memory realloc encoding }
    {
        Iter {
            memory,
            realloc,
            encoding,
        }
    }
}

impl Iterator for Iter {
    type Item = CanonicalOption;

    ghost use Rattle.std.specs.Iterator.{YieldsFirst, item_count};
    ghost use Rattle.canonical_options.specs.View.{left_of};

    ghost next_gives = { YieldsFirst left_of };

    ghost remaining = { item_count left_of };

    fn next(&mut self) -> Option<CanonicalOption> {
        if let Some(memory) = self.memory.take() {
            return Some(CanonicalOption::Memory(memory));
        }
        if let Some(realloc) = self.realloc.take() {
            return Some(CanonicalOption::Realloc(realloc));
        }
        let encoding = self.encoding.take()?;
        Some(encoding_option(encoding))
    }
}
