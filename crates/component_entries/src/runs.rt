//! Neighbours that share a section.

ghost use Rattle.std.specs.Prelude.{◌≡◌, ◌∷◌, ◌++◌, ◌≤◌, ◌+◌, ℕ, Bool, map, length, ◌^◌, OnOk, IfOk, IfSome, IfNone, Err};
ghost use Rattle.std.specs.List.{flat_map, All};
ghost use Rattle.binary_grammar.specs.Syntax.{Syntax, unbounded, vec, bytes, IsTyped};
ghost use Rattle.component_entries.specs.Runs as spec;

use binary_grammar::{WriteFault, put_number, put_with_length};

/// What stands in a section.
pub trait Grouped {
    ghost Value: { Type 0 };

    ghost Known: { Type 0 };

    ghost section: { Value → ℕ };

    ghost alone: { ℕ → Bool };

    ghost item: { ℕ → Syntax unbounded Known Value };

    ghost value: { Self → Value };

    /// The byte of the section that it stands in.
    fn section_byte(&self) -> u8
        ensures { result ≡ section (value self.now) };

    /// Whether it has a section with this byte for itself.
    fn has_its_own(byte: u8) -> bool
        ensures { result ≡ alone byte };

    /// Adds its shortest bytes in that section. Answers `TooLarge` only where its numbers, lengths and counts don't all fit.
    fn put(&self, out: &mut Vec<u8>) -> Result<(), WriteFault>
        ensures bytes { OnOk result (out.new.items ≡ out.old.items ++ bytes (item (section (value self.now))) (value self.now)) }
        ensures typed { OnOk result (IsTyped (item (section (value self.now))) (value self.now)) }
        ensures large { result ≡ Err WriteFault.TooLarge → IsTyped (item (section (value self.now))) (value self.now) → ⊥ };
}

/// Whether it goes into a section of this byte that stands before it.
fn joins<T: Grouped>(byte: u8, item: &T) -> bool
    ensures { result ≡ spec.joins T.section T.alone byte (T.value item.now) }
{
    item.section_byte() == byte && !T::has_its_own(byte)
}

/// How many at the front go into such a section.
fn run_length<T: Grouped>(byte: u8, items: &[T]) -> usize
    ensures count { result ≡ length (spec.run_of T.section T.alone byte (map T.value items.now)) }
    ensures within { result ≤ length items.now }
{
    let mut count = 0;
    for item in items {
        if !joins(byte, item) {
            return count;
        }
        count += 1;
    }
    count
}

/// Adds those at the front that go into such a section.
fn put_run<T: Grouped>(byte: u8, items: &[T], out: &mut Vec<u8>) -> Result<(), WriteFault>
    ensures bytes { OnOk result (out.new.items ≡ out.old.items ++ flat_map (bytes (T.item byte)) (spec.run_of T.section T.alone byte (map T.value items.now))) }
    ensures typed { OnOk result (All (IsTyped (T.item byte)) (spec.run_of T.section T.alone byte (map T.value items.now))) }
    ensures large { result ≡ Err WriteFault.TooLarge → All (IsTyped (T.item byte)) (spec.run_of T.section T.alone byte (map T.value items.now)) → ⊥ }
{
    for item in items {
        if !joins(byte, item) {
            return Ok(());
        }
        item.put(out)?;
    }
    Ok(())
}

/// Adds the vector that begins with an item and has those behind it that share its section. Answers `TooLarge` only where
/// 32 bits can't say the count, or an item doesn't fit.
fn put_items<T: Grouped>(first: &T, more: &[T], out: &mut Vec<u8>) -> Result<(), WriteFault>
    ensures bytes { OnOk result (out.new.items ≡ out.old.items ++ bytes (vec (T.item (T.section (T.value first.now)))) (spec.first_run T.section T.alone (T.value first.now) (map T.value more.now))) }
    ensures typed { OnOk result (IsTyped (vec (T.item (T.section (T.value first.now)))) (spec.first_run T.section T.alone (T.value first.now) (map T.value more.now))) }
    ensures large { result ≡ Err WriteFault.TooLarge → IsTyped (vec (T.item (T.section (T.value first.now)))) (spec.first_run T.section T.alone (T.value first.now) (map T.value more.now)) → ⊥ }
{
    let byte = first.section_byte();
    let Some(count) = counted(run_length(byte, more)) else {
        return Err(WriteFault::TooLarge);
    };
    put_number(out, count)?;
    first.put(out)?;
    put_run(byte, more, out)?;
    Ok(())
}

/// Adds the section of a vector that begins with an item and has those behind it that share its section; answers how many
/// these are in all. The content is made in `room`, which is emptied for it.
pub fn put_first<T: Grouped>(
    first: &T,
    more: &[T],
    room: &mut Vec<u8>,
    out: &mut Vec<u8>,
) -> Result<usize, WriteFault>
    ensures count { IfOk result (λ n. n ≡ length (spec.first_run T.section T.alone (T.value first.now) (map T.value more.now))) }
    ensures within { IfOk result (λ n. n ≤ 1 + length more.now) }
    ensures bytes { OnOk result (out.new.items ≡ out.old.items ++ spec.vector_bytes T.section T.item (spec.first_run T.section T.alone (T.value first.now) (map T.value more.now))) }
    ensures typed { OnOk result (spec.IsVector T.section T.item (spec.first_run T.section T.alone (T.value first.now) (map T.value more.now))) }
    ensures large { result ≡ Err WriteFault.TooLarge → spec.IsVector T.section T.item (spec.first_run T.section T.alone (T.value first.now) (map T.value more.now)) → ⊥ }
{
    room.clear();
    put_items(first, more, room)?;
    out.push(first.section_byte())?;
    put_with_length(out, room)?;
    Ok(1 + run_length(first.section_byte(), more))
}

/// Adds the first section of items that stand in vectors; answers how many stand in it. the content is made in `room`, which is
/// emptied for it. Answers `TooLarge` only where 32 bits can't say the count or the size, or an item doesn't fit.
pub fn put_vector<T: Grouped>(
    items: &[T],
    room: &mut Vec<u8>,
    out: &mut Vec<u8>,
) -> Result<usize, WriteFault>
    ensures count { IfOk result (λ n. n ≡ length (spec.front T.section T.alone (map T.value items.now))) }
    ensures within { IfOk result (λ n. n ≤ length items.now) }
    ensures bytes { OnOk result (out.new.items ≡ out.old.items ++ spec.vector_bytes T.section T.item (spec.front T.section T.alone (map T.value items.now))) }
    ensures typed { OnOk result (spec.IsVector T.section T.item (spec.front T.section T.alone (map T.value items.now))) }
    ensures large { result ≡ Err WriteFault.TooLarge → spec.IsVector T.section T.item (spec.front T.section T.alone (map T.value items.now)) → ⊥ }
{
    match items.split_first() {
        Some((first, more)) => put_first(first, more, room, out),
        None => Ok(0),
    }
}

/// One more than so many, where 32 bits can say it.
fn counted(others: usize) -> Option<u32>
    ensures value { IfSome result (λ n. n ≡ others + 1) }
    ensures fits { IfNone result (2 ^ 32 ≤ others + 1) }
{
    let count = others.checked_add(1)?;
    match u32::try_from(count) {
        Ok(count) => Some(count),
        Err(_) => None,
    }
}
