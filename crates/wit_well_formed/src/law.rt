//! Laws of packages that are resolved, and of those whose texts stand behind others.

ghost use Rattle.wit_well_formed.specs.Law.{SpansAreCounted, UnknownTypesAreThere, AskedItemsAreThere, NamelessTypesAreFree, InterfacesHoldTheirTypes, KeysAreOfItems, ResolvedPackagesAreWellFormed, ParsedPackagesAreWellFormed, MovedPackagesAreWellFormed};

/// Where files are resolved to a package, there is a span for each package of which it asks something.
pub fn law_spans_are_counted()
    ensures { SpansAreCounted }
{}

/// Where files are resolved to a package, it has a type for each span of a type of another package.
pub fn law_unknown_types_are_there()
    ensures { UnknownTypesAreThere }
{}

/// Where files are resolved to a package, each interface and each world that it asks of another has its place.
pub fn law_asked_items_are_there()
    ensures { AskedItemsAreThere }
{}

/// Where files are resolved to a package, its types without a name belong nowhere.
pub fn law_nameless_types_are_free()
    ensures { NamelessTypesAreFree }
{}

/// Where files are resolved to a package, each interface of it holds its types: these, and functions of it, are made of types that are its
/// own, or of interfaces before it, or belong nowhere.
pub fn law_interfaces_hold_their_types()
    ensures { InterfacesHoldTheirTypes }
{}

/// Where files are resolved to a package, what a world of it imports under the key of an interface is that interface.
pub fn law_keys_are_of_items()
    ensures { KeysAreOfItems }
{}

/// Where files are resolved to a package, it is well formed, so that it may be put into a graph of packages.
pub fn law_resolved_packages_are_well_formed()
    ensures { ResolvedPackagesAreWellFormed }
{}

/// Where texts are read to packages, each of them is well formed.
pub fn law_parsed_packages_are_well_formed()
    ensures { ParsedPackagesAreWellFormed }
{}

/// A package that is well formed stays so where each of its places goes so many bytes further on.
pub fn law_moved_packages_are_well_formed()
    ensures { MovedPackagesAreWellFormed }
{}
