//! Tokens.

ghost use Rattle.std.specs.Prelude.{◌≡◌, ◌≢◌, true, false};
ghost use Rattle.wit_words.specs.Token as spec;

use crate::source_map::Span;

/// A sign or a keyword.
#[derive(Clone, Copy, Debug, PartialEq, Eq)]
pub enum Kind {
    /// `=`
    Equals,
    /// `,`
    Comma,
    /// `:`
    Colon,
    /// `.`
    Dot,
    /// `;`
    Semicolon,
    /// `(`
    LeftParenthesis,
    /// `)`
    RightParenthesis,
    /// `{`
    LeftBrace,
    /// `}`
    RightBrace,
    /// `<`
    LessThan,
    /// `>`
    GreaterThan,
    /// `/`
    Slash,
    /// `@`
    At,
    /// `_`
    Underscore,
    /// `->`
    RightArrow,
    /// `as`
    As,
    /// `async`
    Async,
    /// `bool`
    Bool,
    /// `borrow`
    Borrow,
    /// `char`
    Char,
    /// `constructor`
    Constructor,
    /// `enum`
    Enum,
    /// `error-context`
    ErrorContext,
    /// `export`
    Export,
    /// `f32`
    F32,
    /// `f64`
    F64,
    /// `flags`
    Flags,
    /// `from`
    FromKeyword,
    /// `func`
    Func,
    /// `future`
    Future,
    /// `import`
    Import,
    /// `include`
    Include,
    /// `interface`
    Interface,
    /// `list`
    ListKeyword,
    /// `option`
    OptionKeyword,
    /// `own`
    Own,
    /// `package`
    Package,
    /// `record`
    Record,
    /// `resource`
    Resource,
    /// `result`
    ResultKeyword,
    /// `s8`
    S8,
    /// `s16`
    S16,
    /// `s32`
    S32,
    /// `s64`
    S64,
    /// `static`
    Static,
    /// `stream`
    Stream,
    /// `string`
    StringKeyword,
    /// `tuple`
    Tuple,
    /// `type`
    TypeKeyword,
    /// `u8`
    U8,
    /// `u16`
    U16,
    /// `u32`
    U32,
    /// `u64`
    U64,
    /// `use`
    Use,
    /// `variant`
    Variant,
    /// `with`
    With,
    /// `world`
    World,
}

/// A token of a text.
#[derive(Clone, Copy, Debug)]
pub enum Token<'a> {
    /// A sign or a keyword.
    Plain(Kind),
    /// A run of digits that begins no version.
    Number(&'a str),
    /// A version of SemVer 2.0.
    Version(&'a str),
    /// An identifier that is no keyword.
    Id(&'a str),
    /// An identifier with a `%` in front of it, which may be a keyword. The text is without the `%`.
    ExplicitId(&'a str),
}

/// A comment that is docs, `/// ..` or `/** .. */`.
#[derive(Clone, Copy, Debug)]
pub struct Comment<'a> {
    /// The comment as it stands in the text.
    pub text: &'a str,
    /// Where it stands.
    pub span: Span,
}

/// A token, and the docs that stand in front of it.
#[derive(Drop)]
pub struct DocumentedToken<'a> {
    /// The comments that are docs, in order.
    pub docs: Vec<Comment<'a>>,
    /// The token.
    pub token: Token<'a>,
    /// Where it stands, without a `%` in front of it.
    pub span: Span,
}

/// Whether two kinds are one.
#[tactic(auto, unfolding(crate::specs::Token::same_kind))]
pub fn same_kind(a: Kind, b: Kind) -> bool
    ensures value { result ≡ spec.same_kind a b }
    ensures same { result ≡ true → a ≡ b }
    ensures other { result ≡ false → a ≢ b }
{
    a == b
}
