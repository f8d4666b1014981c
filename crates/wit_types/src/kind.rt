//! What types are.

ghost use Rattle.std.specs.Prelude.{◌≡◌};
ghost use Rattle.wit_types.specs.Kind.{handle_word, kind_word};

use crate::Span;
use crate::docs::Docs;
use crate::id::TypeId;

/// A type where it is used (WIT, Types).
#[derive(Clone, Copy, Debug, PartialEq, Eq, Hash)]
pub enum Type {
    /// `bool`
    Bool,
    /// `u8`
    U8,
    /// `u16`
    U16,
    /// `u32`
    U32,
    /// `u64`
    U64,
    /// `s8`
    S8,
    /// `s16`
    S16,
    /// `s32`
    S32,
    /// `s64`
    S64,
    /// `f32`
    F32,
    /// `f64`
    F64,
    /// `char`
    Char,
    /// `string`
    String,
    /// `error-context`
    ErrorContext,
    /// A type that is defined.
    Id(TypeId),
}

/// What a defined type is.
#[derive(Clone, Drop)]
pub enum TypeDefKind {
    /// `record`
    Record(Record),
    /// `resource`
    Resource,
    /// `own<resource>` or `borrow<resource>`
    Handle(Handle),
    /// `flags`
    Flags(Flags),
    /// `tuple`
    Tuple(Tuple),
    /// `variant`
    Variant(Variant),
    /// `enum`
    Enum(Enum),
    /// `option<type>`
    Option(Type),
    /// `result`
    Result(Result_),
    /// `list<type>`
    List(Type),
    /// A list of a length that is known: `list<type, length>`
    FixedLengthList(Type, u32),
    /// `future` or `future<type>`
    Future(Option<Type>),
    /// `stream` or `stream<type>`
    Stream(Option<Type>),
    /// Another name of a type: `type name = type`, or a name that is used from elsewhere.
    Alias(Type),
    /// A type of a package that isn't there yet.
    Unknown,
}

/// A reference to a resource (WIT, Types).
#[derive(Clone, Copy, Debug, PartialEq, Eq, Hash)]
pub enum Handle {
    /// `own<resource>`
    Own(TypeId),
    /// `borrow<resource>`
    Borrow(TypeId),
}

/// A record (WIT, Item: `record`).
#[derive(Clone, Drop)]
pub struct Record {
    /// Its fields, in order.
    pub fields: Vec<Field>,
}

/// A field of a record.
#[derive(Clone, Drop)]
pub struct Field {
    /// Its docs.
    pub docs: Docs,
    /// Its name.
    pub name: String,
    /// Its type.
    pub ty: Type,
    /// Where it stands.
    pub span: Span,
}

/// Flags (WIT, Item: `flags`).
#[derive(Clone, Drop)]
pub struct Flags {
    /// The flags, in order.
    pub flags: Vec<Flag>,
}

/// One of some flags.
#[derive(Clone, Drop)]
pub struct Flag {
    /// Its docs.
    pub docs: Docs,
    /// Its name.
    pub name: String,
    /// Where it stands.
    pub span: Span,
}

/// A tuple (WIT, Types).
#[derive(Clone, Drop)]
pub struct Tuple {
    /// The types of its parts, in order.
    pub types: Vec<Type>,
}

/// A variant (WIT, Item: `variant`).
#[derive(Clone, Drop)]
pub struct Variant {
    /// Its cases, in order.
    pub cases: Vec<Case>,
}

/// A case of a variant.
#[derive(Clone, Drop)]
pub struct Case {
    /// Its docs.
    pub docs: Docs,
    /// Its name.
    pub name: String,
    /// The type of what it holds, if it holds something.
    pub ty: Option<Type>,
    /// Where it stands.
    pub span: Span,
}

/// An enum (WIT, Item: `enum`).
#[derive(Clone, Drop)]
pub struct Enum {
    /// Its cases, in order.
    pub cases: Vec<EnumCase>,
}

/// A case of an enum.
#[derive(Clone, Drop)]
pub struct EnumCase {
    /// Its docs.
    pub docs: Docs,
    /// Its name.
    pub name: String,
    /// Where it stands.
    pub span: Span,
}

/// A result (WIT, Types).
#[derive(Clone, Copy, Debug, PartialEq, Eq, Hash)]
pub struct Result_ {
    /// The type of what stands for success, if something does.
    pub ok: Option<Type>,
    /// The type of what stands for failure, if something does.
    pub err: Option<Type>,
}

impl Handle {
    /// The keyword.
    fn as_str(self) -> &'static str
        ensures { result.now ≡ handle_word self }
    {
        match self {
            Handle::Own(_) => "own",
            Handle::Borrow(_) => "borrow",
        }
    }
}

impl TypeDefKind {
    /// The keyword of what defines the type (WIT, Types), that of a handle for a handle; and `fixed-length list`, `type` or
    /// `unknown` for what has none of its own.
    pub fn as_str(&self) -> &'static str
        ensures { result.now ≡ kind_word self.now }
    {
        match self {
            TypeDefKind::Handle(handle) => handle.as_str(),
            TypeDefKind::Record(_) => "record",
            TypeDefKind::Resource => "resource",
            TypeDefKind::Flags(_) => "flags",
            TypeDefKind::Tuple(_) => "tuple",
            TypeDefKind::Variant(_) => "variant",
            TypeDefKind::Enum(_) => "enum",
            TypeDefKind::Option(_) => "option",
            TypeDefKind::Result(_) => "result",
            TypeDefKind::List(_) => "list",
            TypeDefKind::FixedLengthList(_, _) => "fixed-length list",
            TypeDefKind::Future(_) => "future",
            TypeDefKind::Stream(_) => "stream",
            TypeDefKind::Alias(_) => "type",
            TypeDefKind::Unknown => "unknown",
        }
    }
}
