//! What is asked of each of many.

ghost use Rattle.std.specs.Prelude.{◌≡◌, ◌<◌, map, length, slice_get, Some, OnOk, IfErr};
ghost use Rattle.wit_rules.specs.Breaks.{Breaks, IsKept, IsFaultOf, AnyBreaks, NamesBreak, PathsBreak};
ghost use Rattle.wit_rules.specs.View as seen;
ghost use Rattle.wit_words.specs.declared.source_map.Span.{Span};
ghost use Rattle.wit_rules.specs.declared.fault.PackageRule.TheVariants.{DuplicateName};

use std::alloc::Global;
use wit_rules::{Label, PackageFault, PackageRule, first_repeat};
use wit_words::NameKey;

/// What rules are asked of.
pub trait Checked {
    ghost breaks: { Self → Breaks };

    /// Refuses what breaks a rule.
    fn check(&self, alloc: Global) -> Result<(), PackageFault>
        ensures ok { OnOk result (IsKept (breaks self.now)) }
        ensures cause { IfErr result (IsFaultOf (breaks self.now)) };
}

/// Refuses where one of these breaks a rule.
pub fn check_all<T: Checked>(alloc: Global, items: &[T]) -> Result<(), PackageFault>
    ensures ok { OnOk result (IsKept (AnyBreaks T.breaks items.now)) }
    ensures cause { IfErr result (IsFaultOf (AnyBreaks T.breaks items.now)) }
{
    for item in items {
        item.check(alloc)?;
    }
    Ok(())
}

/// The refusal of the name at a place.
fn again(labels: &[Label<'_>], place: usize) -> PackageFault
    requires { place < length labels.now }
    ensures { (at : Span) × (result ≡ PackageFault.Broken DuplicateName at) × (slice_get (map (λ n. n.span) (map seen.label labels.now)) place ≡ Some at) }
{
    PackageFault::Broken {
        rule: PackageRule::DuplicateName,
        span: labels[place].span,
    }
}

/// Refuses names of one scope of which two have one key (Component Model, Name Uniqueness).
pub fn check_names(alloc: Global, names: &[Label<'_>]) -> Result<(), PackageFault>
    ensures ok { OnOk result (IsKept (NamesBreak (map seen.label names.now))) }
    ensures cause { IfErr result (IsFaultOf (NamesBreak (map seen.label names.now))) }
{
    if names.len() <= 1 {
        return Ok(());
    }
    let mut keys = Vec::with_capacity(alloc, names.len())?;
    for name in names {
        keys.push(NameKey::of(name.text.as_str()))?;
    }
    match first_repeat(alloc, keys.as_slice())? {
        None => Ok(()),
        Some(place) => Err(again(names, place)),
    }
}

/// Refuses paths of which two are spelled alike.
pub fn check_paths(alloc: Global, paths: &[Label<'_>]) -> Result<(), PackageFault>
    ensures ok { OnOk result (IsKept (PathsBreak (map seen.label paths.now))) }
    ensures cause { IfErr result (IsFaultOf (PathsBreak (map seen.label paths.now))) }
{
    let mut texts = Vec::new(alloc);
    for path in paths {
        texts.push(path.text.as_str())?;
    }
    match first_repeat(alloc, texts.as_slice())? {
        None => Ok(()),
        Some(place) => Err(again(paths, place)),
    }
}
