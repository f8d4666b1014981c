//! Values that a byte stands for.

ghost use Rattle.std.specs.Prelude.{◌≡◌, ℕ, Result};
ghost use Rattle.binary_grammar.specs.declared.fault.Rule.{Rule};
ghost use Rattle.binary_grammar.specs.Fault.{Gives};
ghost use Rattle.wasm_types.specs.Code.{coded_format};

use binary_grammar::{ReadError, Reader, Rule, broken_at};

/// A value that a byte stands for.
pub trait Code: Copy {
    ghost of: { ℕ → Result Self Rule };

    ghost code: { Self → ℕ };

    /// The value that a byte stands for, or the rule that this byte breaks.
    fn of_byte(byte: u8) -> Result<Self, Rule>
        ensures { result ≡ of byte };

    /// The byte that stands for the value.
    fn byte(self) -> u8
        ensures { result ≡ code self };
}

/// The value that the byte at the cursor stands for. A rule is broken where the byte stands.
pub fn coded_of<T: Code>(from: &mut Reader<'_>) -> Result<T, ReadError>
    ensures gives { Gives (λ x. (x, from.new.left)) result ((coded_format T.of).read from.old.left) }
    ensures end { from.new.end ≡ from.old.end }
{
    let at = from.left();
    let byte = from.byte()?;
    match T::of_byte(byte) {
        Ok(value) => Ok(value),
        Err(rule) => Err(broken_at(rule, at)),
    }
}
