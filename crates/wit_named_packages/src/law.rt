//! Laws of packages of texts.

ghost use Rattle.wit_named_packages.specs.Taking.{ResolvedInterfacesTakeByUse, ResolvedWorldsTakeByUse, UsedInterfacesAreNamed};
ghost use Rattle.wit_named_packages.specs.Named.{MovedPackagesAreNamed, ParsedPackagesAreNamed};

use wit_well_formed::{
    law_interfaces_are_named_apart, law_parsed_packages_have_plain_names,
    law_worlds_are_under_their_names,
};

/// Where files are resolved to a package, types and functions of an interface of it are made of its own types alone, as far as it sees, and of
/// types of others that it lists under names of its own (WIT, Use).
pub fn law_resolved_interfaces_take_by_use()
    ensures { ResolvedInterfacesTakeByUse }
{}

/// So are types and functions of a world of it (WIT, Use).
pub fn law_resolved_worlds_take_by_use()
    ensures { ResolvedWorldsTakeByUse }
{}

/// Where files are resolved to a package, interfaces of which its interfaces and worlds use types, and those that worlds import by a path, are of
/// other packages or have names (WIT, Use, Item: `world`).
pub fn law_used_interfaces_are_named()
    ensures { UsedInterfacesAreNamed }
{}

/// Where texts are read to packages, interfaces and worlds of each take types of others by use alone, and names that have to tell things apart do
/// (WIT, Use, Package Names, Item: `world`).
pub fn law_parsed_packages_are_named()
    ensures { ParsedPackagesAreNamed }
{
    law_resolved_interfaces_take_by_use();
    law_resolved_worlds_take_by_use();
    law_used_interfaces_are_named();
    law_interfaces_are_named_apart();
    law_parsed_packages_have_plain_names();
    law_worlds_are_under_their_names();
}

/// So it is still where each place of a package goes so many bytes further on.
pub fn law_moved_packages_are_named()
    ensures { MovedPackagesAreNamed }
{}
