//! What types without a name are.

use wit_types::{Handle, Result_, Type};

/// What a type without a name is (WIT, Types). `==` compares what it is made of.
#[derive(PartialEq, Eq, Hash, Drop)]
pub enum Shape {
    /// `own<resource>` or `borrow<resource>`
    Handle(Handle),
    /// `tuple`
    Tuple(Vec<Type>),
    /// `option<type>`
    Option(Type),
    /// `result`
    Result(Result_),
    /// `list<type>`
    List(Type),
    /// A list of a length that is known: `list<type, length>`
    FixedLengthList(Type, u32),
    /// `future` or `future<type>`
    Future(Option<Type>),
    /// `stream` or `stream<type>`
    Stream(Option<Type>),
}
