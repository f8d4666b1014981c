//! Laws of packages that keep their rules.

ghost use Rattle.wit_readiness.specs.Readiness.{KeptPackagesAreReady, KeptNeedsHaveGates, SortedItemsAreTheSame};

/// Where the files of a package break no rule by themselves and all their names are found, each scope may be brought into an
/// arena behind those in front of it in the order of the package: no two of its types or functions have one name, each name
/// that stands in it is a type's, each `use` leads to a type, and each path to an interface or a world (WIT, Name Resolution).
pub fn law_kept_packages_are_ready()
    ensures { KeptPackagesAreReady }
{}

/// What such files ask of other packages has gates that may stand together (WIT, Feature Gates).
pub fn law_kept_needs_have_gates()
    ensures { KeptNeedsHaveGates }
{}

/// The order of a package has each of its interfaces and worlds, and no other.
pub fn law_sorted_items_are_the_same()
    ensures { SortedItemsAreTheSame }
{}
