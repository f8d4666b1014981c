//! Laws of what is imported, and of items under names.

ghost use Rattle.type_sinks.specs.Imports.{ItemsAreFound, EntriesAreApart};
ghost use Rattle.type_sinks.specs.Placing.{KnownIsWhatStands};
ghost use Rattle.type_sinks.specs.Root.{ImportsAreNamed};

/// The names under which entries import something are those of what they import, as indices stand for it (Component Model, Explainer,
/// Import and Export Definitions).
pub fn law_imports_are_named()
    ensures { ImportsAreNamed }
{}

/// Where no name stands twice, each item is the one under its name, and there is one entry of a name (Component Model, Explainer, Import
/// and Export Definitions).
pub fn law_items_are_found()
    ensures items { ItemsAreFound }
    ensures entries { EntriesAreApart }
{}

/// Where each entry of a component may stand behind those before it, as many of each sort are counted behind them as indices stand for
/// something, and the names that are there are those of imports and exports (Component Model, Explainer, Index Spaces; Component Model
/// Binary, Component Definitions).
pub fn law_known_is_what_stands()
    ensures { KnownIsWhatStands }
{}
