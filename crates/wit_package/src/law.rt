//! Laws of packages that are built.

ghost use Rattle.std.specs.Prelude.{List};
ghost use Rattle.wit_syntax.specs.Ast.{FileTree};
ghost use Rattle.wit_package.specs.Laws.{KeptPackagesMayBeBuilt, PackagesAreBuiltInTwoSteps, BuiltPackagesAreResolved, ItemsBreakAsScopesDo, MissingNamesComeFirst};

/// Where the files of a package break no rule by themselves, all their names are found, and what they ask of other packages is
/// there, the interfaces and worlds of the package may be brought in behind that, in their order (WIT, Name Resolution).
pub fn law_kept_packages_may_be_built()
    ensures { KeptPackagesMayBeBuilt }
{}

/// Interfaces and worlds that may be brought in are built by two calls: the interfaces first, and the worlds behind what that
/// left (WIT, Packages).
pub fn law_packages_are_built_in_two_steps()
    ensures { PackagesAreBuiltInTwoSteps }
{}

/// A package that is made of its interfaces and worlds, brought in behind what it asks of others, is what its files are
/// resolved to (WIT, Packages).
pub fn law_built_packages_are_resolved()
    ensures { BuiltPackagesAreResolved }
{}

/// The interfaces and worlds of a package in their order break a rule over the meaning of names exactly where one of its scopes
/// does.
pub fn law_items_break_as_scopes_do()
    ensures { ItemsBreakAsScopesDo }
{}

/// A name that isn't there comes before a circle, where files are refused for what they break by themselves first, then for
/// names that aren't found, and then for all else.
pub fn law_missing_names_come_first()
    ensures { (files : List FileTree) → MissingNamesComeFirst files }
{}
