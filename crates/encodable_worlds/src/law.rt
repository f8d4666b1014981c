//! A law of worlds of a graph.

ghost use Rattle.encodable_worlds.specs.Encodable.{WorldsAreEncodable};

use component_imports::law_earlier_types_are_apart;
use linked_worlds::{
    law_asked_are_imported, law_functions_are_there, law_own_are_imported,
    law_own_types_are_listed, law_remembered_may_be_taken, law_types_use_earlier,
    law_worlds_are_writable, law_worlds_have_texts_apart,
};

/// Where interfaces and worlds of a graph take types of others by use alone, and names that have to tell things apart do, each of its worlds
/// is as `component_encoding::encode` asks, for each module that has a link table with it: the world lists all that the table needs, and
/// nothing but sizes and memory stands in the way of importing that (WIT, Worlds; Component Model, Build Targets, Explainer, Import and
/// Export Definitions).
pub fn law_worlds_are_encodable()
    ensures { WorldsAreEncodable }
{
    law_earlier_types_are_apart();
    law_types_use_earlier();
    law_functions_are_there();
    law_worlds_have_texts_apart();
    law_asked_are_imported();
    law_own_types_are_listed();
    law_worlds_are_writable();
    law_own_are_imported();
    law_remembered_may_be_taken();
}
