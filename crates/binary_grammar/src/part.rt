//! What can be read and written by its grammar.

ghost use Rattle.std.specs.Prelude.{◌≡◌, ℕ, List, map, ◌++◌, OnOk, Ok, Err};
ghost use Rattle.std.specs.List.{flat_map, All};
ghost use Rattle.binary_grammar.specs.Fault.{Gives};
ghost use Rattle.binary_grammar.specs.Syntax.{Syntax, unbounded, times, exactly, vec, section, meaning, bytes, IsTyped};

use crate::fault::ReadError;
use crate::reader::Reader;
use crate::writing::{WriteFault, put_number, put_with_length};

/// A value with a grammar behind which anything may stand.
pub trait Part<'a>: Sized + Drop {
    /// What is known where the value stands.
    type Context: Copy;

    ghost Value: { Type 0 };

    ghost Known: { Type 0 };

    ghost syntax: { Syntax unbounded Known Value };

    ghost known: { Self.Context → Known };

    ghost value: { Self → Value };

    /// Reads the value at the cursor, which then stands behind it; or tells the rule that is broken there, and where.
    fn read(there: Self::Context, from: &mut Reader<'a>) -> Result<Self, ReadError>
        ensures gives { Gives (λ x. (value x, from.new.left)) result ((meaning syntax (known there)).read from.old.left) }
        ensures end { from.new.end ≡ from.old.end };

    /// Adds the shortest bytes of the value. Answers `TooLarge` only where its numbers, lengths and counts don't all fit.
    fn put(&self, out: &mut Vec<u8>) -> Result<(), WriteFault>
        ensures bytes { OnOk result (out.new.items ≡ out.old.items ++ bytes syntax (value self.now)) }
        ensures typed { OnOk result (IsTyped syntax (value self.now)) }
        ensures large { result ≡ Err WriteFault.TooLarge → IsTyped syntax (value self.now) → ⊥ };
}

/// So many items.
fn items_of<'a, T: Part<'a>>(
    there: T::Context,
    count: u32,
    from: &mut Reader<'a>,
) -> Result<Vec<T>, ReadError>
    ensures gives { Gives (λ x. (map T.value x.items, from.new.left)) result ((meaning (times (λ c _. c) T.syntax count) (T.known there)).read from.old.left) }
    ensures end { from.new.end ≡ from.old.end }
{
    let mut items = Vec::new(from.allocator());
    for _ in 0..count {
        let item = T::read(there, from)?;
        items.push(item)?;
    }
    Ok(items)
}

/// A vector: a count, and so many items (WebAssembly Core, Binary Format, Conventions, Vectors).
pub fn vec_of<'a, T: Part<'a>>(
    there: T::Context,
    from: &mut Reader<'a>,
) -> Result<Vec<T>, ReadError>
    ensures gives { Gives (λ x. (map T.value x.items, from.new.left)) result ((meaning (vec T.syntax) (T.known there)).read from.old.left) }
    ensures end { from.new.end ≡ from.old.end }
{
    let count = from.number()?;
    let items = items_of(there, count, from)?;
    Ok(items)
}

fn put_items<'a, T: Part<'a>>(items: &[T], out: &mut Vec<u8>) -> Result<(), WriteFault>
    ensures bytes { OnOk result (out.new.items ≡ out.old.items ++ flat_map (bytes T.syntax) (map T.value items.now)) }
    ensures typed { OnOk result (All (λ x. IsTyped T.syntax (T.value x)) items.now) }
    ensures large { result ≡ Err WriteFault.TooLarge → All (λ x. IsTyped T.syntax (T.value x)) items.now → ⊥ }
{
    for item in items {
        item.put(out)?;
    }
    Ok(())
}

/// Adds a vector: a count, and the bytes of each item. Answers `TooLarge` only where 32 bits can't say the count, or an
/// item doesn't fit.
pub fn put_vec<'a, T: Part<'a>>(items: &[T], out: &mut Vec<u8>) -> Result<(), WriteFault>
    ensures bytes { OnOk result (out.new.items ≡ out.old.items ++ bytes (vec T.syntax) (map T.value items.now)) }
    ensures typed { OnOk result (IsTyped (vec T.syntax) (map T.value items.now)) }
    ensures large { result ≡ Err WriteFault.TooLarge → IsTyped (vec T.syntax) (map T.value items.now) → ⊥ }
{
    let Ok(count) = u32::try_from(items.len()) else {
        return Err(WriteFault::TooLarge);
    };
    put_number(out, count)?;
    put_items(items, out)?;
    Ok(())
}

/// Adds the section of this sort with a vector of these items (Modules, Sections); its content is made in `room`,
/// which is emptied for it. Answers `TooLarge` only where 32 bits can't say the count or the size, or an item doesn't fit.
pub fn put_section<'a, T: Part<'a>>(
    id: u8,
    items: &[T],
    room: &mut Vec<u8>,
    out: &mut Vec<u8>,
) -> Result<(), WriteFault>
    ensures bytes { OnOk result (out.new.items ≡ out.old.items ++ bytes (section id (exactly (vec T.syntax))) (map T.value items.now)) }
    ensures typed { OnOk result (IsTyped (section id (exactly (vec T.syntax))) (map T.value items.now)) }
    ensures large { result ≡ Err WriteFault.TooLarge → IsTyped (section id (exactly (vec T.syntax))) (map T.value items.now) → ⊥ }
{
    room.clear();
    put_vec(items, room)?;
    out.push(id)?;
    put_with_length(out, room)?;
    Ok(())
}
