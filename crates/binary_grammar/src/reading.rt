//! Readers of what binary formats are made of: bytes, numbers, names.
//!
//! Each takes its part from the front of the bytes and answers it with the bytes behind it.

ghost use Rattle.std.specs.Prelude.{◌≡◌, length, IfOk, ◌≤◌, ◌<◌, ◌+◌, ◌^◌};
ghost use Rattle.binary_grammar.specs.Format.{leb_at, u32_at, byte_at, chunk, index, name, inner_rule, further, CanMove};
ghost use Rattle.binary_grammar.specs.Fault.{Gives};

use crate::fault::{Fault, ReadError, Rule};

/// A broken rule at the front of these bytes.
pub fn fault(rule: Rule, bytes: &[u8]) -> ReadError
    ensures { result ≡ ReadError.Malformed (record { rule = rule; left = length bytes.now }) }
{
    ReadError::Malformed(Fault {
        rule,
        left: bytes.len(),
    })
}

/// What a rule is called that is broken inside of a size.
fn inner(rule: Rule) -> Rule
    ensures { result ≡ inner_rule rule }
{
    match rule {
        Rule::Short => Rule::Size,
        other => other,
    }
}

/// The same error of bytes that a size counts, seen from bytes that go on for so many more behind them.
pub fn moved(e: ReadError, more: usize) -> ReadError
    requires { CanMove more e }
    ensures { result ≡ further more e }
{
    match e {
        ReadError::Memory => ReadError::Memory,
        ReadError::Malformed(Fault { rule, left }) => ReadError::Malformed(Fault {
            rule: inner(rule),
            left: left + more,
        }),
    }
}

/// One byte.
pub fn byte_of(bytes: &[u8]) -> Result<(u8, &[u8]), ReadError>
    ensures gives { Gives (λ x. (x.0, x.1.now)) result (byte_at bytes.now) }
    ensures fits { IfOk result (λ x. x.0 < 256) }
{
    match bytes {
        [] => Err(fault(Rule::Short, bytes)),
        [first, rest @ ..] => Ok((*first, rest)),
    }
}

/// The digits of a LEB128 number, at most so many.
#[tactic(auto, unfolding(crate::specs::Format::leb_at))]
fn digits_of(bytes: &[u8], most: u32) -> Result<(u64, &[u8]), ReadError>
    requires { most ≤ 5 }
    ensures gives { Gives (λ x. (x.0, x.1.now)) result (leb_at most bytes.now) }
    ensures small { IfOk result (λ x. x.0 < 128 ^ most) }
{
    if most == 0 {
        return Err(fault(Rule::Number, bytes));
    }
    let (first, rest) = byte_of(bytes)?;
    if first < 128 {
        return Ok((u64::from(first), rest));
    }
    let (high, rest) = digits_of(rest, most - 1)?;
    Ok((u64::from(first) - 128 + 128 * high, rest))
}

/// An unsigned LEB128 number of at most 32 bits in at most five bytes.
#[tactic(auto, unfolding(crate::specs::Format::u32_at))]
pub fn u32_of(bytes: &[u8]) -> Result<(u32, &[u8]), ReadError>
    ensures { Gives (λ x. (x.0, x.1.now)) result (u32_at bytes.now) }
{
    let (number, rest) = digits_of(bytes, 5)?;
    match u32::try_from(number) {
        Ok(number) => Ok((number, rest)),
        Err(_) => Err(fault(Rule::Number, bytes)),
    }
}

/// A number below a limit.
pub fn index_of(limit: usize, bytes: &[u8]) -> Result<(u32, &[u8]), ReadError>
    ensures { Gives (λ x. (x.0, x.1.now)) result ((index limit).read bytes.now) }
{
    let (index, rest) = u32_of(bytes)?;
    if index as usize >= limit {
        return Err(fault(Rule::Index, bytes));
    }
    Ok((index, rest))
}

/// So many bytes.
pub fn chunk_of(size: u32, bytes: &[u8]) -> Result<(&[u8], &[u8]), ReadError>
    ensures gives { Gives (λ x. (x.0.now, x.1.now)) result ((chunk size).read bytes.now) }
    ensures room { IfOk result (λ x. length x.0.now + length x.1.now < 2 ^ 64) }
{
    let size = size as usize;
    if bytes.len() < size {
        return Err(fault(Rule::Short, bytes));
    }
    Ok(bytes.split_at(size))
}

/// A length and so many bytes of UTF-8.
#[tactic(auto, using(crate::proofs::Fields::text_is, crate::proofs::Fields::text_is_not), unfolding(crate::specs::Format::name))]
pub fn name_of(bytes: &[u8]) -> Result<(&str, &[u8]), ReadError>
    ensures { Gives (λ x. (x.0.now, x.1.now)) result (name.read bytes.now) }
{
    let (size, rest) = u32_of(bytes)?;
    let (text, after) = chunk_of(size, rest)?;
    let Ok(text) = std::str::from_utf8(text) else {
        return Err(fault(Rule::Text, rest));
    };
    Ok((text, after))
}
