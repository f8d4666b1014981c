//! Laws of the types of a package.

ghost use Rattle.std.specs.Prelude.{List};
ghost use Rattle.wit_rules.specs.Passed.wit_scopes-Scopes.{ItemScope};
ghost use Rattle.wit_rules.specs.Passed.wit_items-ItemTree.{AttributeTree};
ghost use Rattle.wit_rules.specs.Breaks.{IsKept, GatesBreak};
ghost use Rattle.wit_package_types.specs.Stability.{AreGates};
ghost use Rattle.wit_rules.specs.Facts.{ScopesBreak};
ghost use Rattle.wit_arena.specs.Standing.{AreFunctional};
ghost use Rattle.wit_package_types.specs.Standing.{FilledTypesStandForTheirMeaning};

/// What stands in an arena under the names of a scope is what they mean in it, whatever is given for the names of other
/// packages (WIT, Items, Use): each scope that is filled keeps it so, and so does each interface that is known from then on.
pub fn law_filled_types_stand_for_their_meaning()
    ensures { FilledTypesStandForTheirMeaning }
{}

/// Where the names of each scope differ, a name of a place is of one type at most: so it means one tree at most.
pub fn law_distinct_names_are_of_one_type()
    ensures { (scopes : List ItemScope) → IsKept (ScopesBreak scopes) → AreFunctional scopes }
{}

/// Attributes that keep their rules are gates that may stand together, whose versions `semver` reads (WIT, Feature Gates).
pub fn law_kept_attributes_are_gates()
    ensures { (attributes : List AttributeTree) → IsKept (GatesBreak attributes) → AreGates attributes }
{}
