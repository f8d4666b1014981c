//! Laws of where what is found stands.

ghost use Rattle.wit_placed.specs.Found.{FoundAreThere, FoundTypesAreThere};

/// Where packages name interfaces and worlds that are there, all that is found of them is there.
pub fn law_found_are_there()
    ensures { FoundAreThere }
{}

/// Where interfaces name types that are there, all types that are found of them are there.
pub fn law_found_types_are_there()
    ensures { FoundTypesAreThere }
{}
