//! The law of modules that are handed in.

ghost use Rattle.handed_modules.specs.Law.{ModulesAreKept};

/// A module that is handed in is there, with those that were, less the one that it replaces, and none is there twice; the main module is the last
/// that was handed in.
pub fn law_modules_are_kept()
    ensures { ModulesAreKept }
{}
