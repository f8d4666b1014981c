//! Laws of what is written.

ghost use Rattle.std.specs.Prelude.{◌≡◌, true};
ghost use Rattle.wit_component.specs.Cause.{IsLinkable, IsLinkCause, IsEncodeCause, IsTooLarge};
ghost use Rattle.wit_component.specs.Component.{component_of};
ghost use Rattle.wit_component.specs.Linking.{Linking};
ghost use Rattle.wit_component.specs.Meaning.{meaning};
ghost use Rattle.wit_component.specs.Right.{MeetsAll};
ghost use Rattle.wit_component.specs.Table.{IsLinked};

use crate::fault::Fault;

/// What is written for a linking stands for what meets all conditions.
pub fn law_written_meets_all()
    ensures { (l : Linking) → IsLinked l → MeetsAll l (meaning l.main (component_of l)) }
{}

/// Where every entry is there and nothing is asked for that is still to come, no cause holds that links are refused for, and
/// where 32 bits say the component besides, none that it isn't encoded for, want of memory aside.
pub fn law_linkable_has_no_cause()
    ensures links { (l : Linking) → IsLinkable l → (fault : Fault) → IsLinkCause l fault → fault ≡ Fault.OutOfMemory }
    ensures component { (l : Linking) → IsLinkable l → (IsTooLarge l → ⊥) → (fault : Fault) → IsEncodeCause l fault → fault ≡ Fault.OutOfMemory }
{}
