//! The lexeme at the front of a text.

ghost use Rattle.std.specs.Prelude.{◌≡◌, ◌+◌, ◌≤◌, ◌<◌, ◌^◌, Ok, true, length, IfOk, IfSome};
ghost use Rattle.std.specs.List.{prefix_len};
ghost use Rattle.wit_tokens.specs.Lex as spec;

use wit_words::{Kind, Rule, Span, version_len};

/// A class of bytes.
#[derive(Clone, Copy)]
pub enum Class {
    /// A space, a tab or the end of a line.
    Blank,
    /// A letter.
    Letter,
    /// A digit.
    Digit,
    /// What a word goes on with.
    Word,
    /// What a line goes on with.
    Line,
    /// What a character of UTF-8 goes on with.
    Continuation,
}

/// What stands in a text, as one.
#[derive(Clone, Copy)]
pub enum Lexeme {
    /// A blank.
    Blank,
    /// A comment, which may be docs.
    Comment,
    /// A sign.
    Plain(Kind),
    /// A run of digits that begins no version.
    Number,
    /// A version.
    Version,
    /// A keyword or an identifier.
    Word,
    /// A `%` and an identifier.
    Marked,
}

fn is_in(class: Class, byte: u8) -> bool
    ensures { result ≡ spec.is_in class byte }
{
    match class {
        Class::Blank => byte == b' ' || byte == b'\t' || byte == b'\r' || byte == b'\n',
        Class::Letter => byte.is_ascii_alphabetic(),
        Class::Digit => byte.is_ascii_digit(),
        Class::Word => byte.is_ascii_alphanumeric() || byte == b'-',
        Class::Line => byte != b'\n',
        Class::Continuation => (0x80..0xc0).contains(&byte),
    }
}

fn run(class: Class, rest: &[u8]) -> usize
    ensures value { result ≡ prefix_len (spec.is_in class) rest.now }
    ensures within { result ≤ length rest.now }
{
    rest.iter().take_while(|byte| is_in(class, **byte)).count()
}

/// How many bytes there are up to the end of a comment that is open once.
fn comment_len(rest: &[u8]) -> Option<usize>
    ensures value { result ≡ spec.comment_from 1 0 0 rest.now }
    ensures within { IfSome result (λ n. n ≤ length rest.now) }
{
    let mut depth: usize = 1;
    let mut last = 0u8;
    for (at, byte) in rest.iter().enumerate() {
        if last == b'*' && *byte == b'/' {
            if depth == 1 {
                return Some(at + 1);
            }
            depth -= 1;
            last = 0;
        } else if last == b'/' && *byte == b'*' {
            depth += 1;
            last = 0;
        } else {
            last = *byte;
        }
    }
    None
}

fn sign(byte: u8) -> Result<(Lexeme, usize), Rule>
    ensures value { result ≡ spec.sign byte }
    ensures one { IfOk result (λ x. x.1 ≡ 1) }
{
    let kind = match byte {
        b'=' => Kind::Equals,
        b',' => Kind::Comma,
        b':' => Kind::Colon,
        b'.' => Kind::Dot,
        b';' => Kind::Semicolon,
        b'(' => Kind::LeftParenthesis,
        b')' => Kind::RightParenthesis,
        b'{' => Kind::LeftBrace,
        b'}' => Kind::RightBrace,
        b'<' => Kind::LessThan,
        b'>' => Kind::GreaterThan,
        b'@' => Kind::At,
        b'_' => Kind::Underscore,
        _ => return Err(Rule::BadCharacter),
    };
    Ok((Lexeme::Plain(kind), 1))
}

fn slash(rest: &[u8]) -> Result<(Lexeme, usize), Rule>
    ensures value { result ≡ spec.slash rest.now }
    ensures within { IfOk result (λ x. (1 ≤ x.1) × (x.1 ≤ length rest.now + 1)) }
{
    match rest {
        [b'/', line @ ..] => Ok((Lexeme::Comment, 2 + run(Class::Line, line))),
        [b'*', inside @ ..] => match comment_len(inside) {
            Some(len) => Ok((Lexeme::Comment, 2 + len)),
            None => Err(Rule::OpenComment),
        },
        _ => Ok((Lexeme::Plain(Kind::Slash), 1)),
    }
}

fn minus(rest: &[u8]) -> Result<(Lexeme, usize), Rule>
    ensures value { result ≡ spec.minus rest.now }
    ensures within { IfOk result (λ x. (1 ≤ x.1) × (x.1 ≤ length rest.now + 1)) }
{
    match rest {
        [b'>', ..] => Ok((Lexeme::Plain(Kind::RightArrow), 2)),
        _ => Err(Rule::BadCharacter),
    }
}

fn percent(rest: &[u8]) -> Result<(Lexeme, usize), Rule>
    ensures value { result ≡ spec.percent rest.now }
    ensures within { IfOk result (λ x. (1 ≤ x.1) × (x.1 ≤ length rest.now + 1)) }
{
    let [first, word @ ..] = rest else {
        return Err(Rule::BadCharacter);
    };
    if is_in(Class::Letter, *first) {
        Ok((Lexeme::Marked, 2 + run(Class::Word, word)))
    } else {
        Err(Rule::BadCharacter)
    }
}

/// The version at the front, or else the number.
fn digits(text: &[u8]) -> (Lexeme, usize)
    requires { spec.begins_with_digit text.now ≡ true }
    ensures value { spec.digits text.now ≡ Ok result }
    ensures within { (1 ≤ result.1) × (result.1 ≤ length text.now) }
{
    match version_len(text) {
        Some(len) => (Lexeme::Version, len),
        None => (Lexeme::Number, run(Class::Digit, text)),
    }
}

/// The lexeme at the front, and how many bytes it has.
#[tactic(auto, unfolding(crate::specs::Lex::lexeme_at))]
pub fn front(text: &[u8]) -> Result<(Lexeme, usize), Rule>
    ensures value { result ≡ spec.lexeme_at text.now }
    ensures within { IfOk result (λ x. (1 ≤ x.1) × (x.1 ≤ length text.now)) }
{
    let [byte, rest @ ..] = text else {
        return Err(Rule::BadCharacter);
    };
    match *byte {
        first if is_in(Class::Blank, first) => Ok((Lexeme::Blank, 1)),
        first if is_in(Class::Letter, first) => Ok((Lexeme::Word, 1 + run(Class::Word, rest))),
        first if is_in(Class::Digit, first) => Ok(digits(text)),
        b'/' => slash(rest),
        b'-' => minus(rest),
        b'%' => percent(rest),
        first => sign(first),
    }
}

/// How many bytes a break of the rule has at the front of a text.
fn broken_len(rule: Rule, text: &[u8]) -> usize
    ensures value { result ≡ spec.broken_len rule text.now }
    ensures within { result ≤ length text.now }
{
    match (rule, text) {
        (Rule::BadCharacter, [_, rest @ ..]) => 1 + run(Class::Continuation, rest),
        (Rule::OpenComment, _) => text.len(),
        (Rule::BadIdentifier, [_, rest @ ..]) => 1 + run(Class::Word, rest),
        _ => 0,
    }
}

/// Where a text that begins at `at` breaks the rule at its front.
#[tactic(auto, unfolding(crate::specs::Lex::broken_span))]
pub fn broken_span(rule: Rule, text: &str, at: u32) -> Span
    requires { at + length text.now < 2 ^ 32 }
    ensures { result ≡ spec.broken_span rule at text.now }
{
    Span {
        start: at,
        end: at + broken_len(rule, text.as_bytes()) as u32,
    }
}
