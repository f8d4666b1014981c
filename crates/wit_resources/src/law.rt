//! Laws of what is known of types.

ghost use Rattle.wit_resources.specs.Telling.{NaturesTellWhatTypesMean};

/// What is known of the types of an arena, where what stands in it for the names of a scope is what they mean: a handle fails
/// exactly where its name means no resource, and a result fails exactly where a `borrow` stands in what it means. A type of
/// another package is taken for a resource.
pub fn law_natures_tell_what_types_mean()
    ensures { NaturesTellWhatTypesMean }
{}
