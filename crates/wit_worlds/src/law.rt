//! Laws of what is listed in worlds.

ghost use Rattle.wit_worlds.specs.Laws.{ListedWorldsStandForTheirTexts, EntriesHaveKeysOfTheirOwn, MadeWorldsStandForTheirTexts};

/// Where paths lead to what they name, what is listed of a world stands for its text: each function for the function that its
/// world declares, each interface for the one that its label or its path names, each `include` for the world that it names (WIT,
/// Item: `world`).
pub fn law_listed_worlds_stand_for_their_texts()
    ensures { ListedWorldsStandForTheirTexts }
{}

/// Where no two names of one side of a world have one key and no path stands there twice, no two entries of that side are known
/// by one key.
pub fn law_entries_have_keys_of_their_own()
    ensures { EntriesHaveKeysOfTheirOwn }
{}

/// Where paths lead to what they name, a world that is made of a scope which stands in the arena stands there as the text has
/// it: its types in their order and first among its imports, its functions and interfaces, and the worlds that it includes, with
/// their meaning, whatever is given for the names of other packages (WIT, Item: `world`).
pub fn law_made_worlds_stand_for_their_texts()
    ensures { MadeWorldsStandForTheirTexts }
{}
