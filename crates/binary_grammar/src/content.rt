//! What is all of some bytes, and can be read and written by its grammar.

ghost use Rattle.std.specs.Prelude.{◌≡◌, ℕ, List, map, ◌++◌, OnOk, Err};
ghost use Rattle.binary_grammar.specs.Fault.{Gives};
ghost use Rattle.binary_grammar.specs.Syntax.{Syntax, bounded, exactly, vec, sized, section, meaning, bytes, IsTyped};

use crate::fault::ReadError;
use crate::part::{Part, vec_of};
use crate::reader::Reader;
use crate::reading::moved;
use crate::writing::{WriteFault, put_with_length};

/// A value that is all of some bytes.
pub trait Content<'a>: Sized + Drop {
    /// What is known where the value stands.
    type Context: Copy;

    ghost Value: { Type 0 };

    ghost Known: { Type 0 };

    ghost content: { Syntax bounded Known Value };

    ghost known: { Self.Context → Known };

    ghost value: { Self → Value };

    /// Reads the value, which is all that is left; or tells the rule that is broken there, and where.
    fn read_all(there: Self::Context, from: Reader<'a>) -> Result<Self, ReadError>
        ensures { Gives value result ((meaning content (known there)).read from.entry.left) };

    /// Adds the shortest bytes of the value. Answers `TooLarge` only where its numbers, lengths and counts don't all fit.
    fn put_all(&self, out: &mut Vec<u8>) -> Result<(), WriteFault>
        ensures bytes { OnOk result (out.new.items ≡ out.old.items ++ bytes content (value self.now)) }
        ensures typed { OnOk result (IsTyped content (value self.now)) }
        ensures large { result ≡ Err WriteFault.TooLarge → IsTyped content (value self.now) → ⊥ };
}

/// A size, and so many bytes, which are this content.
pub fn bounded_of<'a, T: Content<'a>>(
    there: T::Context,
    from: &mut Reader<'a>,
) -> Result<T, ReadError>
    ensures gives { Gives (λ x. (T.value x, from.new.left)) result ((meaning (sized T.content) (T.known there)).read from.old.left) }
    ensures end { from.new.end ≡ from.old.end }
{
    let inside = from.inside()?;
    match T::read_all(there, inside) {
        Ok(value) => Ok(value),
        Err(e) => Err(moved(e, from.left())),
    }
}

/// A part that is all that is left.
pub fn exactly_of<'a, T: Part<'a>>(there: T::Context, from: Reader<'a>) -> Result<T, ReadError>
    ensures { Gives T.value result ((meaning (exactly T.syntax) (T.known there)).read from.entry.left) }
{
    let mut from = from;
    let value = T::read(there, &mut from)?;
    from.ended()?;
    Ok(value)
}

/// A vector that is all that is left.
pub fn whole_vec_of<'a, T: Part<'a>>(
    there: T::Context,
    from: Reader<'a>,
) -> Result<Vec<T>, ReadError>
    ensures { Gives (λ x. map T.value x.items) result ((meaning (exactly (vec T.syntax)) (T.known there)).read from.entry.left) }
{
    let mut from = from;
    let items = vec_of(there, &mut from)?;
    from.ended()?;
    Ok(items)
}

/// Adds the section of this sort with this content (WebAssembly Core, Binary Format, Modules, Sections); the content is
/// made in `room`, which is emptied for it. Answers `TooLarge` only where 32 bits can't say the size, or the content doesn't fit.
pub fn put_content<'a, T: Content<'a>>(
    id: u8,
    content: &T,
    room: &mut Vec<u8>,
    out: &mut Vec<u8>,
) -> Result<(), WriteFault>
    ensures bytes { OnOk result (out.new.items ≡ out.old.items ++ bytes (section id T.content) (T.value content.now)) }
    ensures typed { OnOk result (IsTyped (section id T.content) (T.value content.now)) }
    ensures large { result ≡ Err WriteFault.TooLarge → IsTyped (section id T.content) (T.value content.now) → ⊥ }
{
    room.clear();
    content.put_all(room)?;
    out.push(id)?;
    put_with_length(out, room)?;
    Ok(())
}
