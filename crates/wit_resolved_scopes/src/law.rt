//! Laws of scopes in an arena.

ghost use Rattle.wit_resolved_scopes.specs.Meaning.{ResolvedScopesStandForTheirMeaning};
ghost use Rattle.wit_resolved_scopes.specs.InArena.{ResolvedScopesAreIn};
ghost use Rattle.wit_resolved_scopes.specs.Listed.{ResolvedScopesListTheirTypes};

/// The types and functions of a scope that is brought into an arena stand for what they mean in it, whatever is given for the
/// names of other packages (WIT, Items, Use): types refer only to those before them, and what stood in the arena stays.
pub fn law_resolved_scopes_stand_for_their_meaning()
    ensures { ResolvedScopesStandForTheirMeaning }
{}

/// A scope that is brought into an arena stands in it as the text has it: its types in their order, each under its name, and
/// its functions, all standing for what they mean, whatever is given for the names of other packages (WIT, Items, Use).
pub fn law_resolved_scopes_are_in_the_arena()
    ensures { ResolvedScopesAreIn }
{}

/// Each type that is brought into an arena with a scope belongs to it, and then its table has it, or is a form without a name
/// that is made of other types and belongs nowhere (WIT, Items, Types).
pub fn law_resolved_scopes_list_their_types()
    ensures { ResolvedScopesListTheirTypes }
{}
