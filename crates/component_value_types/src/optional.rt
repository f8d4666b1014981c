//! Parts that may be there: `00`, or `01` and the part.

ghost use Rattle.std.specs.Prelude.{◌≡◌, ◌≤◌, ◌++◌, IfOk, OnOk, Err, option_map};
ghost use Rattle.binary_grammar.specs.Fault.{Gives};
ghost use Rattle.binary_grammar.specs.Syntax.{meaning, bytes, IsTyped};
ghost use Rattle.wasm_types.specs.Code.{coded_format};
ghost use Rattle.component_value_types.specs.Combinators.{presence_of, optional};

use binary_grammar::{Part, ReadError, Reader, Rule, WriteFault, broken_at};

/// How many parts a byte says that follow.
#[tactic(auto, unfolding(crate::specs::Combinators::presence_of))]
fn presence_at(byte: u8) -> Result<u8, Rule>
    ensures value { result ≡ presence_of byte }
    ensures one { IfOk result (λ x. x ≤ 1) }
{
    match byte {
        0 => Ok(0),
        1 => Ok(1),
        _ => Err(Rule::Tag),
    }
}

/// How many parts follow, one at most.
fn presence(from: &mut Reader<'_>) -> Result<u8, ReadError>
    ensures gives { Gives (λ x. (x, from.new.left)) result ((coded_format presence_of).read from.old.left) }
    ensures end { from.new.end ≡ from.old.end }
    ensures one { IfOk result (λ x. x ≤ 1) }
{
    let at = from.left();
    let byte = from.byte()?;
    match presence_at(byte) {
        Ok(value) => Ok(value),
        Err(rule) => Err(broken_at(rule, at)),
    }
}

/// A part, if it is there.
#[tactic(auto, unfolding(binary_grammar::specs::Several::series))]
pub fn optional_of<'a, T: Part<'a>>(
    there: T::Context,
    from: &mut Reader<'a>,
) -> Result<Option<T>, ReadError>
    ensures gives { Gives (λ x. (option_map T.value x, from.new.left)) result ((meaning (optional T.syntax) (T.known there)).read from.old.left) }
    ensures end { from.new.end ≡ from.old.end }
{
    if presence(from)? == 0 {
        return Ok(None);
    }
    let part = T::read(there, from)?;
    Ok(Some(part))
}

/// Adds a part, if it is there. Answers `TooLarge` only where it doesn't fit.
pub fn put_optional<'a, T: Part<'a>>(part: &Option<T>, out: &mut Vec<u8>) -> Result<(), WriteFault>
    ensures bytes { OnOk result (out.new.items ≡ out.old.items ++ bytes (optional T.syntax) (option_map T.value part.now)) }
    ensures typed { OnOk result (IsTyped (optional T.syntax) (option_map T.value part.now)) }
    ensures large { result ≡ Err WriteFault.TooLarge → IsTyped (optional T.syntax) (option_map T.value part.now) → ⊥ }
{
    match part {
        None => out.push(0)?,
        Some(part) => {
            out.push(1)?;
            part.put(out)?;
        }
    }
    Ok(())
}
