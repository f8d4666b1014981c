//! The signs and keywords, as they are spelled.

use wit_syntax::Kind;

/// The sign or keyword.
pub fn word_of(kind: Kind) -> &'static str {
    if let Some(sign) = sign_of(kind) {
        return sign;
    }
    if let Some(word) = type_word_of(kind) {
        return word;
    }
    item_word_of(kind).unwrap_or("!")
}

/// The sign that a kind is.
fn sign_of(kind: Kind) -> Option<&'static str> {
    match kind {
        Kind::Equals => Some("="),
        Kind::Comma => Some(","),
        Kind::Colon => Some(":"),
        Kind::Dot => Some("."),
        Kind::Semicolon => Some(";"),
        Kind::LeftParenthesis => Some("("),
        Kind::RightParenthesis => Some(")"),
        Kind::LeftBrace => Some("{"),
        Kind::RightBrace => Some("}"),
        Kind::LessThan => Some("<"),
        Kind::GreaterThan => Some(">"),
        Kind::Slash => Some("/"),
        Kind::At => Some("@"),
        Kind::Underscore => Some("_"),
        Kind::RightArrow => Some("->"),
        _ => None,
    }
}

/// The keyword of types that a kind is.
fn type_word_of(kind: Kind) -> Option<&'static str> {
    match kind {
        Kind::Bool => Some("bool"),
        Kind::Borrow => Some("borrow"),
        Kind::Char => Some("char"),
        Kind::ErrorContext => Some("error-context"),
        Kind::F32 => Some("f32"),
        Kind::F64 => Some("f64"),
        Kind::Future => Some("future"),
        Kind::ListKeyword => Some("list"),
        Kind::OptionKeyword => Some("option"),
        Kind::Own => Some("own"),
        Kind::ResultKeyword => Some("result"),
        Kind::S8 => Some("s8"),
        Kind::S16 => Some("s16"),
        Kind::S32 => Some("s32"),
        Kind::S64 => Some("s64"),
        Kind::Stream => Some("stream"),
        Kind::StringKeyword => Some("string"),
        Kind::Tuple => Some("tuple"),
        Kind::U8 => Some("u8"),
        Kind::U16 => Some("u16"),
        Kind::U32 => Some("u32"),
        Kind::U64 => Some("u64"),
        _ => None,
    }
}

/// The keyword of items that a kind is.
fn item_word_of(kind: Kind) -> Option<&'static str> {
    match kind {
        Kind::As => Some("as"),
        Kind::Async => Some("async"),
        Kind::Constructor => Some("constructor"),
        Kind::Enum => Some("enum"),
        Kind::Export => Some("export"),
        Kind::Flags => Some("flags"),
        Kind::FromKeyword => Some("from"),
        Kind::Func => Some("func"),
        Kind::Import => Some("import"),
        Kind::Include => Some("include"),
        Kind::Interface => Some("interface"),
        Kind::Package => Some("package"),
        Kind::Record => Some("record"),
        Kind::Resource => Some("resource"),
        Kind::Static => Some("static"),
        Kind::TypeKeyword => Some("type"),
        Kind::Use => Some("use"),
        Kind::Variant => Some("variant"),
        Kind::With => Some("with"),
        Kind::World => Some("world"),
        _ => None,
    }
}
