//! How strings are encoded.

ghost use Rattle.std.specs.Prelude.{◌≡◌};

/// How a module lays out its strings (Component Model, Canonical ABI, Storing).
#[derive(Clone, Copy, Debug, PartialEq, Eq)]
pub enum StringEncoding {
    /// As UTF-8.
    UTF8,
    /// As UTF-16.
    UTF16,
    /// Each as Latin-1 or as UTF-16, which its length says.
    CompactUTF16,
}

impl Default for StringEncoding {
    ghost use Rattle.link_lines.specs.declared.encoding.StringEncoding.TheVariants.{UTF8};

    ghost is_default = { λ e. e ≡ UTF8 };

    fn default() -> StringEncoding {
        StringEncoding::UTF8
    }
}
