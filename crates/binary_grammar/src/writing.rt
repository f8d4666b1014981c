//! Writing numbers and names.

ghost use Rattle.std.specs.Prelude.{◌≡◌, ◌+◌, ◌^◌, ◌<◌, ◌++◌, length, OnOk, Err};
ghost use Rattle.binary_grammar.specs.declared.writing.WriteFault.TheVariants.{OutOfMemory};
ghost use Rattle.binary_grammar.specs.Syntax.{leb_bytes, u32_bytes, with_length, IsText};

use std::alloc::{AllocError, AllocFailed};
use thiserror::Error;

/// Why a value isn't written.
#[derive(Clone, Copy, Debug, PartialEq, Eq, Drop, Error)]
pub enum WriteFault {
    /// A request for memory was refused.
    #[error("out of memory")]
    OutOfMemory,
    /// So many bits as its place has can't say a number, a length or a count.
    #[error("too large")]
    TooLarge,
}

impl From<AllocError> for WriteFault {
    ghost from_gives = { λ _ e. e ≡ OutOfMemory };

    fn from(_e: AllocError) -> WriteFault {
        WriteFault::OutOfMemory
    }
}

impl<T: Drop> From<AllocFailed<T>> for WriteFault {
    ghost from_gives = { λ _ e. e ≡ OutOfMemory };

    fn from(_e: AllocFailed<T>) -> WriteFault {
        WriteFault::OutOfMemory
    }
}

/// Adds the digits of a number, at most so many and one more.
#[tactic(auto, unfolding(crate::specs::Syntax::leb_bytes))]
fn put_digits(out: &mut Vec<u8>, n: u32, more: u32) -> Result<(), AllocError>
    requires { n < 128 ^ (more + 1) }
    ensures { OnOk result (out.new.items ≡ out.old.items ++ leb_bytes more n) }
{
    if n < 128 {
        out.push(n as u8)?;
        return Ok(());
    }
    if more == 0 {
        unreachable!()
    }
    out.push((n % 128 + 128) as u8)?;
    put_digits(out, n / 128, more - 1)?;
    Ok(())
}

/// Adds a number in the fewest bytes of unsigned LEB128 (WebAssembly Core, Binary Format, Values, Integers). Only want of
/// memory is refused.
#[tactic(auto, unfolding(crate::specs::Syntax::u32_bytes))]
pub fn put_number(out: &mut Vec<u8>, n: u32) -> Result<(), AllocError>
    ensures bytes { OnOk result (out.new.items ≡ out.old.items ++ u32_bytes n) }
    ensures small { n < 2 ^ 32 }
{
    put_digits(out, n, 4)?;
    Ok(())
}

/// Adds bytes behind their length. Answers `TooLarge` where 32 bits can't say it.
pub fn put_with_length(out: &mut Vec<u8>, bytes: &[u8]) -> Result<(), WriteFault>
    ensures bytes { OnOk result (out.new.items ≡ out.old.items ++ with_length bytes.now) }
    ensures small { OnOk result (length bytes.now < 2 ^ 32) }
    ensures large { result ≡ Err WriteFault.TooLarge → length bytes.now < 2 ^ 32 → ⊥ }
{
    let Ok(length) = u32::try_from(bytes.len()) else {
        return Err(WriteFault::TooLarge);
    };
    put_number(out, length)?;
    out.extend_from_slice(bytes)?;
    Ok(())
}

/// Adds the length of a name and its bytes (Values, Names). Answers `TooLarge` where 32 bits can't say the length.
#[tactic(auto, using(crate::proofs::Fields::text_is))]
pub fn put_name(out: &mut Vec<u8>, name: &str) -> Result<(), WriteFault>
    ensures bytes { OnOk result (out.new.items ≡ out.old.items ++ with_length name.now) }
    ensures typed { OnOk result (IsText name.now) }
    ensures large { result ≡ Err WriteFault.TooLarge → IsText name.now → ⊥ }
{
    put_with_length(out, name.as_bytes())?;
    Ok(())
}
