//! A law of names within interfaces.

ghost use Rattle.wit_placed.specs.Naming.{MovedInterfacesHaveNamesApart};

/// Where names within each interface of a package differ, they do within each that stays, where it stands in a graph.
pub fn law_moved_interfaces_have_names_apart()
    ensures { MovedInterfacesHaveNamesApart }
{}
