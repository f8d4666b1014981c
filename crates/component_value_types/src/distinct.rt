//! Vectors of parts with distinct names.

ghost use Rattle.std.specs.Prelude.{◌≡◌, [], ℕ, List, map, IfOk};
ghost use Rattle.binary_grammar.specs.Fault.{Gives};
ghost use Rattle.binary_grammar.specs.Syntax.{vec, meaning};
ghost use Rattle.distinct_names.specs.Names.{all_new};
ghost use Rattle.component_value_types.specs.Combinators.{distinct};

use binary_grammar::{Part, ReadError, Reader, Rule, broken_at, vec_of};
use distinct_names::Names;
use std::alloc::{AllocError, Global};

/// What has a name.
pub trait HasName<'a> {
    ghost use Rattle.std.specs.Prelude.{ℕ, List};

    ghost name: { Self → List ℕ };

    /// The name.
    fn name(&self) -> &'a str
        ensures { result.now ≡ name self.now };
}

/// Whether all names are distinct.
fn are_distinct<'a, T: HasName<'a>>(alloc: Global, items: &[T]) -> Result<bool, AllocError>
    ensures { IfOk result (λ b. b ≡ all_new [] (map T.name items.now)) }
{
    let mut seen = Names::new(alloc);
    for item in items {
        let name = item.name();
        if !seen.is_new(name) {
            return Ok(false);
        }
        seen.add(name)?;
    }
    Ok(true)
}

/// A vector whose names are distinct; else `Duplicate` is broken where it begins.
pub fn distinct_vec_of<'a, T: Part<'a> + HasName<'a>>(
    there: T::Context,
    from: &mut Reader<'a>,
) -> Result<Vec<T>, ReadError>
    ensures gives { (named : T.Value → List ℕ) → ((x : T) → named (T.value x) ≡ T.name x) → Gives (λ x. (map T.value x.items, from.new.left)) result ((meaning (distinct named (vec T.syntax)) (T.known there)).read from.old.left) }
    ensures end { from.new.end ≡ from.old.end }
{
    let at = from.left();
    let items = vec_of::<T>(there, from)?;
    if !are_distinct(from.allocator(), &items)? {
        return Err(broken_at(Rule::Duplicate, at));
    }
    Ok(items)
}
