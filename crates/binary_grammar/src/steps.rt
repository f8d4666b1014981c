//! What is read where those before it are known, up to the end, or up to a sign.

ghost use Rattle.std.specs.Prelude.{◌≡◌, ◌∷◌, ◌++◌, ℕ, List, map, IfOk, OnOk, Err};
ghost use Rattle.std.specs.List.{flat_map, All};
ghost use Rattle.binary_grammar.specs.Fault.{Gives};
ghost use Rattle.binary_grammar.specs.Place.{Within};
ghost use Rattle.binary_grammar.specs.Several.{grown};
ghost use Rattle.binary_grammar.specs.Syntax.{Syntax, unbounded, times, growing, exactly, sized, up_to, steps, meaning, bytes, IsTyped};

use crate::fault::ReadError;
use crate::reader::Reader;
use crate::reading::moved;
use crate::writing::WriteFault;

/// What stands in a row of which each sees those before it: sections, or definitions of a section.
pub trait Step<'a>: Sized + Drop {
    /// What is known where it stands.
    type State;

    ghost Value: { Type 0 };

    ghost Known: { Type 0 };

    ghost grow: { Known → Value → Known };

    ghost which: { Value → ℕ };

    ghost next: { ℕ → Syntax unbounded Known Value };

    ghost known: { Self.State → Known };

    ghost value: { Self → Value };

    /// What it says of where it stands within these bytes.
    ghost stands: { List ℕ → Self → Type 0 };

    /// Reads what stands behind the byte that says which one it is, and adds it to what is known.
    fn read_behind(
        kind: u8,
        state: &mut Self::State,
        from: &mut Reader<'a>,
    ) -> Result<Self, ReadError>
        ensures gives { Gives (λ x. (value x, from.new.left)) result ((meaning (next kind) (known state.old)).read from.old.left) }
        ensures grows { IfOk result (λ x. known state.new ≡ grow (known state.old) (value x)) }
        ensures stands { (total : List ℕ) → Within total from.old → IfOk result (stands total) }
        ensures end { from.new.end ≡ from.old.end };
}

/// So many of this kind.
fn several_of<'a, T: Step<'a>>(
    kind: u8,
    count: u32,
    state: &mut T::State,
    from: &mut Reader<'a>,
) -> Result<Vec<T>, ReadError>
    ensures gives { Gives (λ x. (map T.value x.items, from.new.left)) result ((meaning (times T.grow (T.next kind) count) (T.known state.old)).read from.old.left) }
    ensures grows { IfOk result (λ x. T.known state.new ≡ grown T.grow (T.known state.old) (map T.value x.items)) }
    ensures stands { (total : List ℕ) → Within total from.old → IfOk result (λ x. All (T.stands total) x.items) }
    ensures end { from.new.end ≡ from.old.end }
{
    let mut items = Vec::new(from.allocator());
    for _ in 0..count {
        let item = T::read_behind(kind, state, from)?;
        items.push(item)?;
    }
    Ok(items)
}

/// A count, and so many of this kind, of which each sees those before it.
pub fn growing_of<'a, T: Step<'a>>(
    kind: u8,
    state: &mut T::State,
    from: &mut Reader<'a>,
) -> Result<Vec<T>, ReadError>
    ensures gives { Gives (λ x. (map T.value x.items, from.new.left)) result ((meaning (growing T.grow (T.next kind)) (T.known state.old)).read from.old.left) }
    ensures grows { IfOk result (λ x. T.known state.new ≡ grown T.grow (T.known state.old) (map T.value x.items)) }
    ensures stands { (total : List ℕ) → Within total from.old → IfOk result (λ x. All (T.stands total) x.items) }
    ensures end { from.new.end ≡ from.old.end }
{
    let count = from.number()?;
    several_of(kind, count, state, from)
}

/// The same, which is all that is left.
pub fn whole_growing_of<'a, T: Step<'a>>(
    kind: u8,
    state: &mut T::State,
    from: Reader<'a>,
) -> Result<Vec<T>, ReadError>
    ensures gives { Gives (λ x. map T.value x.items) result ((meaning (exactly (growing T.grow (T.next kind))) (T.known state.old)).read from.entry.left) }
    ensures grows { IfOk result (λ x. T.known state.new ≡ grown T.grow (T.known state.old) (map T.value x.items)) }
    ensures stands { (total : List ℕ) → Within total from.entry → IfOk result (λ x. All (T.stands total) x.items) }
{
    let mut from = from;
    let items = growing_of(kind, state, &mut from)?;
    from.ended()?;
    Ok(items)
}

/// A size, and so many bytes, which are such a count and so many.
pub fn bounded_growing_of<'a, T: Step<'a>>(
    kind: u8,
    state: &mut T::State,
    from: &mut Reader<'a>,
) -> Result<Vec<T>, ReadError>
    ensures gives { Gives (λ x. (map T.value x.items, from.new.left)) result ((meaning (sized (exactly (growing T.grow (T.next kind)))) (T.known state.old)).read from.old.left) }
    ensures grows { IfOk result (λ x. T.known state.new ≡ grown T.grow (T.known state.old) (map T.value x.items)) }
    ensures stands { (total : List ℕ) → Within total from.old → IfOk result (λ x. All (T.stands total) x.items) }
    ensures end { from.new.end ≡ from.old.end }
{
    let inside = from.inside()?;
    match whole_growing_of(kind, state, inside) {
        Ok(items) => Ok(items),
        Err(e) => Err(moved(e, from.left())),
    }
}

/// All up to the end, each behind a byte that says which it is.
pub fn steps_of<'a, T: Step<'a>>(
    state: &mut T::State,
    from: &mut Reader<'a>,
) -> Result<Vec<T>, ReadError>
    ensures gives { Gives (λ x. map T.value x.items) result ((meaning (steps T.grow T.which T.next) (T.known state.old)).read from.old.left) }
    ensures stands { (total : List ℕ) → Within total from.old → IfOk result (λ x. All (T.stands total) x.items) }
{
    let mut items = Vec::new(from.allocator());
    while !from.is_done() {
        let kind = from.byte()?;
        let item = T::read_behind(kind, state, from)?;
        items.push(item)?;
    }
    Ok(items)
}

/// What stands behind a byte that says which it is, in a list that ends with a byte of its own: an expression's
/// instructions (WebAssembly Core, Binary Format, Expressions).
pub trait Instruction<'a>: Sized + Drop {
    /// What is known where it stands.
    type Context: Copy;

    ghost Value: { Type 0 };

    ghost Known: { Type 0 };

    ghost which: { Value → ℕ };

    ghost next: { ℕ → Syntax unbounded Known Value };

    ghost known: { Self.Context → Known };

    ghost value: { Self → Value };

    /// Reads what stands behind the byte.
    fn read_behind(kind: u8, there: Self::Context, from: &mut Reader<'a>) -> Result<Self, ReadError>
        ensures gives { Gives (λ x. (value x, from.new.left)) result ((meaning (next kind) (known there)).read from.old.left) }
        ensures end { from.new.end ≡ from.old.end };

    /// The byte that says which it is.
    fn kind(&self) -> u8
        ensures { result ≡ which (value self.now) };

    /// Adds what stands behind the byte. Answers `TooLarge` only where its numbers, lengths and counts don't all fit.
    fn put_behind(&self, out: &mut Vec<u8>) -> Result<(), WriteFault>
        ensures bytes { OnOk result (out.new.items ≡ out.old.items ++ bytes (next (which (value self.now))) (value self.now)) }
        ensures typed { OnOk result (IsTyped (next (which (value self.now))) (value self.now)) }
        ensures large { result ≡ Err WriteFault.TooLarge → IsTyped (next (which (value self.now))) (value self.now) → ⊥ };
}

/// Instructions up to this byte, which is read too.
pub fn up_to_of<'a, T: Instruction<'a>>(
    last: u8,
    there: T::Context,
    from: &mut Reader<'a>,
) -> Result<Vec<T>, ReadError>
    ensures gives { Gives (λ x. (map T.value x.items, from.new.left)) result ((meaning (up_to last T.which T.next) (T.known there)).read from.old.left) }
    ensures end { from.new.end ≡ from.old.end }
{
    let mut items = Vec::new(from.allocator());
    loop {
        let kind = from.byte()?;
        if kind == last {
            return Ok(items);
        }
        let item = T::read_behind(kind, there, from)?;
        items.push(item)?;
    }
}

fn put_each<'a, T: Instruction<'a>>(items: &[T], out: &mut Vec<u8>) -> Result<(), WriteFault>
    ensures bytes { OnOk result (out.new.items ≡ out.old.items ++ flat_map (λ x. T.which x ∷ bytes (T.next (T.which x)) x) (map T.value items.now)) }
    ensures typed { OnOk result (All (λ x. IsTyped (T.next (T.which (T.value x))) (T.value x)) items.now) }
    ensures large { result ≡ Err WriteFault.TooLarge → All (λ x. IsTyped (T.next (T.which (T.value x))) (T.value x)) items.now → ⊥ }
{
    for item in items {
        out.push(item.kind())?;
        item.put_behind(out)?;
    }
    Ok(())
}

/// Adds instructions, and this byte behind them. Answers `TooLarge` only where one doesn't fit.
pub fn put_up_to<'a, T: Instruction<'a>>(
    last: u8,
    items: &[T],
    out: &mut Vec<u8>,
) -> Result<(), WriteFault>
    ensures bytes { OnOk result (out.new.items ≡ out.old.items ++ bytes (up_to last T.which T.next) (map T.value items.now)) }
    ensures typed { OnOk result (IsTyped (up_to last T.which T.next) (map T.value items.now)) }
    ensures large { result ≡ Err WriteFault.TooLarge → IsTyped (up_to last T.which T.next) (map T.value items.now) → ⊥ }
{
    put_each(items, out)?;
    out.push(last)?;
    Ok(())
}
