//! Laws of what worlds import in the end.

ghost use Rattle.wit_elaborated.specs.Staying.{ElaboratedWorldsAreThere, ElaboratedWorldsStay};

use wit_reach::{law_elaborated_are_there, law_lists_are_there};

/// What a world imports in the end stays so where more types and interfaces come behind those that are there.
pub fn law_elaborated_worlds_stay()
    ensures { ElaboratedWorldsStay }
{
    law_lists_are_there();
    law_elaborated_are_there();
}

/// All that a world is made of with what it imports in the end is there, where all is that it lists.
pub fn law_elaborated_worlds_are_there()
    ensures { ElaboratedWorldsAreThere }
{
    law_lists_are_there();
    law_elaborated_are_there();
}
