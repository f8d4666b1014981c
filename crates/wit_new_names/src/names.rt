//! A law of what `==` says of names of packages.

ghost use Rattle.wit_new_names.specs.Names.{SeesSameNames};

use wit_types::PackageName;

/// Names of packages with the same texts and versions are equal (WIT, Package Names).
pub fn law_same_names_are_equal()
    ensures { SeesSameNames ⟦<PackageName as PartialEq>⟧.eq }
{}
