//! Laws of what is asked of other packages.

ghost use Rattle.wit_foreign.specs.Unknown.{UnknownTypesStand};

/// Whatever is given for the names of other packages, the types that are used are whole, and each stands for what is given
/// for its name, in every arena of owners in which the id of each interface leads to that interface.
pub fn law_unknown_types_stand_for_what_is_given()
    ensures { UnknownTypesStand }
{}
