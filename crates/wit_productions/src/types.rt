//! The tree of a type.

use crate::names::Id;
use wit_tokens::Span;

/// A type, and where it stands. `==` compares what types say, and not where they stand.
#[cycle(types)]
#[derive(Drop)]
#[derive_where(PartialEq)]
pub struct Type<'a> {
    /// What it is.
    pub kind: TypeKind<'a>,
    /// Where it stands.
    #[derive_where(skip)]
    pub span: Span,
}

/// What a type is (WIT, Types).
#[cycle(types)]
#[derive(Drop)]
#[derive_where(PartialEq)]
pub enum TypeKind<'a> {
    /// `bool`
    Bool,
    /// `u8`
    U8,
    /// `u16`
    U16,
    /// `u32`
    U32,
    /// `u64`
    U64,
    /// `s8`
    S8,
    /// `s16`
    S16,
    /// `s32`
    S32,
    /// `s64`
    S64,
    /// `f32`
    F32,
    /// `f64`
    F64,
    /// `char`
    Char,
    /// `string`
    String,
    /// A type by its name: `name`
    Name(Id<'a>),
    /// `list<type>`
    List(Box<Type<'a>>),
    /// A list of a length that is known: `list<type, length>`
    FixedLengthList(Box<Type<'a>>, u32),
    /// `option<type>`
    Option(Box<Type<'a>>),
    /// `tuple<type, ..>`
    Tuple(Vec<Type<'a>>),
    /// `result`, `result<ok>`, `result<_, err>` or `result<ok, err>`
    Result {
        /// The type of what a call gives that succeeds.
        ok: Option<Box<Type<'a>>>,
        /// The type of what a call gives that fails.
        err: Option<Box<Type<'a>>>,
    },
    /// A handle that owns a resource: `own<name>`
    Own(Id<'a>),
    /// A handle to a resource that another owns: `borrow<name>`
    Borrow(Id<'a>),
    /// `future` or `future<type>`
    Future(Option<Box<Type<'a>>>),
    /// `stream` or `stream<type>`
    Stream(Option<Box<Type<'a>>>),
    /// `error-context`
    ErrorContext,
}
