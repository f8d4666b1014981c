//! Packages by their names.

ghost use Rattle.std.specs.Prelude.{◌≡◌, ◌<◌, Some, length, slice_get, IfOk, IfErr};
ghost use Rattle.wit_finding.specs.Packages as spec;

use crate::fault::FindFault;
use indexmap::IndexMap;
use std::alloc::Global;
use std::hash::Hash;
use wit_moves::PackageId;
use wit_words::Span;

/// Where the name of a number is said to stand.
fn span_at(spans: &[Span], place: usize) -> Span
    requires { place < length spans.now }
    ensures { slice_get spans.now place ≡ Some result }
{
    spans[place]
}

/// The packages of which something is asked, in order. Refuses a name that is that of no package, where it is said to stand.
pub fn packages_named<K: Eq + Hash, V>(
    alloc: Global,
    names: &IndexMap<K, PackageId>,
    deps: &IndexMap<K, V>,
    spans: &[Span],
) -> Result<Vec<PackageId>, FindFault>
    requires { length spans.now ≡ length deps.now.entries }
    ensures ok { IfOk result (λ ids. spec.AreNamed K.eq names.now.entries deps.now.entries ids.items) }
    ensures cause { IfErr result (spec.IsPackageCause K.eq names.now.entries deps.now.entries spans.now) }
{
    let mut found = Vec::with_capacity(alloc, deps.len())?;
    for (place, name) in deps.keys().enumerate() {
        match names.get(name) {
            Some(id) => found.push(*id)?,
            None => return Err(FindFault::PackageNotFound(span_at(spans, place))),
        }
    }
    Ok(found)
}
