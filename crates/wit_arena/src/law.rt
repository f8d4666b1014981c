//! Laws of arenas.

ghost use Rattle.wit_arena.specs.Arena.{UnnamedTypesAreOne};
ghost use Rattle.wit_arena.specs.Standing.{TypesStandForTheirMeaning, TypesMeanOneTree};

/// Types without a name that are made of the same have one id (WIT, Types): there are none at first, and each way to add
/// a type keeps it so.
pub fn law_unnamed_types_are_one()
    ensures { UnnamedTypesAreOne }
{}

/// What stands in an arena for a type or a name unfolds to the tree that it means in the scopes of its package (WIT, Types,
/// Use): each way to bring a type in keeps it so, and what stood there stays.
pub fn law_types_stand_for_their_meaning()
    ensures { TypesStandForTheirMeaning }
{}

/// Where no place has two types of one name, a type and a name mean one tree at most.
pub fn law_types_mean_one_tree()
    ensures { TypesMeanOneTree }
{}
