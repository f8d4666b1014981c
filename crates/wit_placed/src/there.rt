//! Laws of where what is moved stands.

ghost use Rattle.wit_placed.specs.There.{MovedInterfacesAreThere, MovedWorldsAreThere};

/// Where types and interfaces stand among those that are there, and nothing that stays needs what doesn't, all is there that the
/// worlds name that stay.
pub fn law_moved_worlds_are_there()
    ensures { MovedWorldsAreThere }
{}

/// So is all that the interfaces name that stay.
pub fn law_moved_interfaces_are_there()
    ensures { MovedInterfacesAreThere }
{}
