//! The version at the front of a text, by the grammar of SemVer 2.0.

ghost use Rattle.std.specs.Prelude.{◌≡◌, ◌≤◌, length, is_ok, IfSome};
ghost use Rattle.semver.specs.Parse.{version_parts};
ghost use Rattle.wit_words.specs.Version as spec;

/// One of the three numbers.
#[derive(Clone, Copy)]
pub enum Number {
    /// The first.
    Major,
    /// The second.
    Minor,
    /// The third.
    Patch,
}

/// What may stand behind the numbers.
#[derive(Clone, Copy)]
pub enum Tail {
    /// A pre-release.
    PreRelease,
    /// Build metadata.
    Build,
}

/// How much of an identifier of a tail has been read.
#[derive(Clone, Copy)]
pub enum Identifier {
    /// Nothing.
    Empty,
    /// A zero.
    Zero,
    /// A zero and more digits.
    LeadingZero,
    /// Anything else.
    Other,
}

/// How much of a version has been read.
#[derive(Clone, Copy)]
pub enum State {
    /// All up to a number.
    Before(Number),
    /// Digits of a number, which have this value if 64 bits are enough.
    Digits(Number, Option<u64>),
    /// Something of an identifier.
    Within(Tail, Identifier),
}

/// The number with one more digit, if 64 bits are enough.
fn longer(value: Option<u64>, digit: u8) -> Option<u64>
    ensures { result ≡ spec.longer value digit }
{
    value?.checked_mul(10)?.checked_add(u64::from(digit))
}

/// What a byte begins that stands behind a number.
fn behind(number: Number, byte: u8) -> Option<State>
    ensures { result ≡ spec.behind number byte }
{
    match (number, byte) {
        (Number::Major, b'.') => Some(State::Before(Number::Minor)),
        (Number::Minor, b'.') => Some(State::Before(Number::Patch)),
        (Number::Patch, b'-') => Some(State::Within(Tail::PreRelease, Identifier::Empty)),
        (Number::Patch, b'+') => Some(State::Within(Tail::Build, Identifier::Empty)),
        _ => None,
    }
}

fn with_digit(identifier: Identifier, digit: u8) -> Identifier
    ensures { result ≡ spec.with_digit identifier digit }
{
    match identifier {
        Identifier::Empty if digit == b'0' => Identifier::Zero,
        Identifier::Zero | Identifier::LeadingZero => Identifier::LeadingZero,
        _ => Identifier::Other,
    }
}

/// Whether an identifier may end: only that of a pre-release may not be a number with a leading zero.
fn may_end(tail: Tail, identifier: Identifier) -> bool
    ensures { result ≡ spec.may_end tail identifier }
{
    match (tail, identifier) {
        (_, Identifier::Empty) | (Tail::PreRelease, Identifier::LeadingZero) => false,
        _ => true,
    }
}

fn within(tail: Tail, identifier: Identifier, byte: u8) -> Option<State>
    ensures { result ≡ spec.within tail identifier byte }
{
    if byte.is_ascii_alphabetic() || byte == b'-' {
        return Some(State::Within(tail, Identifier::Other));
    }
    if byte.is_ascii_digit() {
        return Some(State::Within(tail, with_digit(identifier, byte)));
    }
    match (tail, byte) {
        _ if !may_end(tail, identifier) => None,
        (_, b'.') => Some(State::Within(tail, Identifier::Empty)),
        (Tail::PreRelease, b'+') => Some(State::Within(Tail::Build, Identifier::Empty)),
        _ => None,
    }
}

/// What a version is read to by one more byte, if it goes on so.
fn step(state: State, byte: u8) -> Option<State>
    ensures { result ≡ spec.step state byte }
{
    let is_digit = byte.is_ascii_digit();
    match state {
        State::Before(number) if is_digit => {
            Some(State::Digits(number, Some(u64::from(byte - b'0'))))
        }
        State::Before(_) => None,
        State::Digits(_, Some(0)) if is_digit => None,
        State::Digits(number, value) if is_digit => {
            Some(State::Digits(number, longer(value, byte - b'0')))
        }
        State::Digits(number, _) => behind(number, byte),
        State::Within(tail, identifier) => within(tail, identifier, byte),
    }
}

/// Whether a version may end here.
fn is_whole(state: State) -> bool
    ensures { result ≡ spec.is_whole state }
{
    match state {
        State::Digits(Number::Patch, _) => true,
        State::Within(tail, identifier) => may_end(tail, identifier),
        _ => false,
    }
}

/// How many bytes the longest front has that is a version, if one is (SemVer 2.0, Backus–Naur Form Grammar).
#[tactic(auto, using(crate::proofs::Versions::from_start))]
pub fn version_len(text: &[u8]) -> Option<usize>
    ensures value { result ≡ spec.version_len text.now }
    ensures within { IfSome result (λ n. (1 ≤ n) × (n ≤ length text.now)) }
{
    let mut state = State::Before(Number::Major);
    let mut longest = None;
    for (at, byte) in text.iter().enumerate() {
        let Some(next) = step(state, *byte) else {
            return longest;
        };
        state = next;
        if is_whole(state) {
            longest = Some(at + 1);
        }
    }
    longest
}

/// Whether `semver` reads the text: it is a version, and its numbers have at most 64 bits.
#[tactic(auto, using(crate::proofs::Versions::version_read))]
pub fn is_read_by_semver(text: &str) -> bool
    ensures { result ≡ is_ok (version_parts text.now) }
{
    let mut state = State::Before(Number::Major);
    for byte in text.as_bytes() {
        match step(state, *byte) {
            // (a number of more than 64 bits)
            Some(State::Digits(_, None)) | None => return false,
            Some(next) => state = next,
        }
    }
    is_whole(state)
}
