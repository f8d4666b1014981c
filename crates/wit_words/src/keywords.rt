//! Keywords. They are looked for in groups, which are proved faster than one table.

ghost use Rattle.std.specs.Prelude.{◌≡◌};
ghost use Rattle.wit_words.specs.Keyword as spec;

use crate::token::Kind;

/// A type of integers.
#[tactic(auto, unfolding(crate::specs::Keyword::integer_type))]
fn integer_type(word: &str) -> Option<Kind>
    ensures { result ≡ spec.integer_type word.now }
{
    let kind = match word {
        "s8" => Kind::S8,
        "s16" => Kind::S16,
        "s32" => Kind::S32,
        "s64" => Kind::S64,
        "u8" => Kind::U8,
        "u16" => Kind::U16,
        "u32" => Kind::U32,
        "u64" => Kind::U64,
        _ => return None,
    };
    Some(kind)
}

/// Another type without parts.
#[tactic(auto, unfolding(crate::specs::Keyword::simple_type))]
fn simple_type(word: &str) -> Option<Kind>
    ensures { result ≡ spec.simple_type word.now }
{
    let kind = match word {
        "bool" => Kind::Bool,
        "char" => Kind::Char,
        "error-context" => Kind::ErrorContext,
        "f32" => Kind::F32,
        "f64" => Kind::F64,
        "string" => Kind::StringKeyword,
        _ => return None,
    };
    Some(kind)
}

/// What a type with parts begins with.
#[tactic(auto, unfolding(crate::specs::Keyword::compound_type))]
fn compound_type(word: &str) -> Option<Kind>
    ensures { result ≡ spec.compound_type word.now }
{
    let kind = match word {
        "borrow" => Kind::Borrow,
        "future" => Kind::Future,
        "list" => Kind::ListKeyword,
        "option" => Kind::OptionKeyword,
        "own" => Kind::Own,
        "result" => Kind::ResultKeyword,
        "stream" => Kind::Stream,
        "tuple" => Kind::Tuple,
        _ => return None,
    };
    Some(kind)
}

/// What says what is defined.
#[tactic(auto, unfolding(crate::specs::Keyword::definition))]
fn definition(word: &str) -> Option<Kind>
    ensures { result ≡ spec.definition word.now }
{
    let kind = match word {
        "enum" => Kind::Enum,
        "flags" => Kind::Flags,
        "func" => Kind::Func,
        "interface" => Kind::Interface,
        "package" => Kind::Package,
        "record" => Kind::Record,
        "resource" => Kind::Resource,
        "type" => Kind::TypeKeyword,
        "variant" => Kind::Variant,
        "world" => Kind::World,
        _ => return None,
    };
    Some(kind)
}

/// Any other keyword.
#[tactic(auto, unfolding(crate::specs::Keyword::other))]
fn other(word: &str) -> Option<Kind>
    ensures { result ≡ spec.other word.now }
{
    let kind = match word {
        "as" => Kind::As,
        "async" => Kind::Async,
        "constructor" => Kind::Constructor,
        "export" => Kind::Export,
        "from" => Kind::FromKeyword,
        "import" => Kind::Import,
        "include" => Kind::Include,
        "static" => Kind::Static,
        "use" => Kind::Use,
        "with" => Kind::With,
        _ => return None,
    };
    Some(kind)
}

/// The keyword that `word` is, if it is one.
#[tactic(auto, unfolding(crate::specs::Keyword::keyword))]
pub fn keyword(word: &str) -> Option<Kind>
    ensures { result ≡ spec.keyword word.now }
{
    if let Some(kind) = integer_type(word) {
        return Some(kind);
    }
    if let Some(kind) = simple_type(word) {
        return Some(kind);
    }
    if let Some(kind) = compound_type(word) {
        return Some(kind);
    }
    if let Some(kind) = definition(word) {
        return Some(kind);
    }
    other(word)
}
