//! Laws of types that stand in worlds, and of types without names.

ghost use Rattle.wit_labels.specs.Forms.{JoinedTypesAreFormsOrNamed, MovedTypesAreFormsOrNamed};
ghost use Rattle.wit_labels.specs.Types.{BroughtSidesHaveOwnTypes, JoinedSidesHaveOwnTypes, MovedSidesHaveOwnTypes, OwnTypesStay};

/// Types on a side of a world that are its own and stand under their names still are and do where more types come.
pub fn law_own_types_stay()
    ensures { OwnTypesStay }
{}

/// So they are and do in what stays of the side of a package's world, where that stands in a graph (WIT, Feature Gates).
pub fn law_moved_sides_have_own_types()
    ensures { MovedSidesHaveOwnTypes }
{}

/// And in what a world brings to one that includes it, under changed names, of the world that includes it (WIT, Item: `include`).
pub fn law_brought_sides_have_own_types()
    ensures { BroughtSidesHaveOwnTypes }
{}

/// And in a world with all that it includes.
pub fn law_joined_sides_have_own_types()
    ensures { JoinedSidesHaveOwnTypes }
{}

/// What stays of types of which those without names are forms, such as lists, has no others without names (WIT, Types).
pub fn law_moved_types_are_forms_or_named()
    ensures { MovedTypesAreFormsOrNamed }
{}

/// Nor have they with those that a world brings to one that includes it.
pub fn law_joined_types_are_forms_or_named()
    ensures { JoinedTypesAreFormsOrNamed }
{}
