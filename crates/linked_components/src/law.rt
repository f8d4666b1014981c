//! Laws of link tables, and of what is built.

ghost use Rattle.linked_components.specs.Build.{LinkedHaveNoCause};
ghost use Rattle.linked_components.specs.Order.{UsedStandBefore};

use encodable_worlds::{law_functions_are_there, law_tables_are_one, law_types_use_earlier};

/// Where a world of a graph has a link table with a module, no cause holds that one is refused for, want of memory aside.
pub fn law_linked_has_no_cause()
    ensures { LinkedHaveNoCause }
{
    law_tables_are_one();
    law_functions_are_there();
}

/// Where a component is right for the link table of a world of a graph, and a type of one interface that is needed is made of a type of
/// another, the component imports both interfaces, and the other before it (WIT, Use; Component Model, Explainer, Index Spaces).
pub fn law_used_stand_before()
    ensures { UsedStandBefore }
{
    law_types_use_earlier();
}
