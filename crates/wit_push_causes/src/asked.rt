//! Laws of what packages ask of others: each interface and each world of one package, by one name.

ghost use Rattle.wit_push_causes.specs.Deps.{DepsAskForOne, MovedPackagesAskForOne};
ghost use Rattle.wit_push_causes.specs.Resolved.{ResolvedPackagesAskForOne, ParsedPackagesAskForOne};

/// What is asked of other packages, as it is made of what the texts of a package need, asks for what stands at one place by one name of one
/// package (WIT, Packages, Use).
pub fn law_deps_ask_for_one()
    ensures { DepsAskForOne }
{}

/// Where files are resolved to a package, it asks so.
pub fn law_resolved_packages_ask_for_one()
    ensures { ResolvedPackagesAskForOne }
{}

/// Where texts are read to packages, so does each of them.
pub fn law_parsed_packages_ask_for_one()
    ensures { ParsedPackagesAskForOne }
{}

/// A package that asks so still does where each of its places goes so many bytes further on.
pub fn law_moved_packages_ask_for_one()
    ensures { MovedPackagesAskForOne }
{}
