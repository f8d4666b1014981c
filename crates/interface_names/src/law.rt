//! Laws of worlds and of names by ids.

ghost use Rattle.interface_names.specs.Graphs.{ImportsAreThere, TwoNamesAreNotListed};

use wit_elaborated::law_elaborated_worlds_are_there;

/// All that `interface_names` asks for is so where names are those of a graph, and of one of its worlds with all that this imports in the end
/// (WIT, Worlds; Component Model, Build Targets).
pub fn law_imports_are_there()
    ensures { ImportsAreThere }
{
    law_elaborated_worlds_are_there();
}

/// Where it answers none, no list by ids has the names by which core imports name the world's interfaces.
pub fn law_two_names_are_not_listed()
    ensures { TwoNamesAreNotListed }
{}
