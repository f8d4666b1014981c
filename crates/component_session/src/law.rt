//! Laws of the public calls.

ghost use Rattle.std.specs.Prelude.{◌≡◌, ◌⊎◌, ℕ, Bool, List, MatchResult};
ghost use Rattle.wit_component.specs.Passed.known_definitions-Component.{IsComponent};
ghost use Rattle.component_session.specs.Input as inputs;
ghost use Rattle.linked_components.specs.Passed.link_table-Linking.{Linking as WideLinking};
ghost use Rattle.wit_component.specs.Linking.{Linking};
ghost use Rattle.wit_component.specs.Table.{IsLinked};
ghost use Rattle.wit_component.specs.Component.{component_of};
ghost use Rattle.wit_component.specs.declared.fault.Fault.TheVariants.{TooLarge};
ghost use Rattle.linked_components.specs.Passed.wit_graph-Graph.{IsGraph};
ghost use Rattle.component_session.specs.Headline as headline;
ghost use Rattle.component_session.specs.Refusals as refusals;
ghost use Rattle.component_session.specs.Switches as switches;

use crate::fault::Fault;
use crate::linking::audit;
use crate::session::Session;
use component_audit::Verdict;
use linked_components::law_linked_has_no_cause;

/// What is written for a linking of plain functions is right for its input, whatever bytes the grammar relates to it.
pub fn law_written_is_right()
    ensures { (input : inputs.Input) (l : Linking) (bytes : List ℕ) → inputs.IsLinkingOf input l → IsLinked l → IsComponent bytes (component_of l) → headline.IsRight input bytes }
{}

/// An input links one world and one module in one way; where nothing stands in the way of its plain functions, no cause of a refusal
/// holds, want of memory aside.
pub fn law_ready_has_no_cause()
    ensures one { (input : inputs.Input) (l m : Linking) → inputs.IsLinkingOf input l → inputs.IsLinkingOf input m → l ≡ m }
    ensures none { (input : inputs.Input) (l : Linking) → refusals.IsReady input l → (fault : Fault) → refusals.IsCause input fault → fault ≡ Fault.OutOfMemory }
{}

/// So it is where all that its world has is linked, of the packages of any session, which are a graph.
pub fn law_wide_ready_has_no_cause()
    ensures one { (input : inputs.Input) (l m : WideLinking) → inputs.IsWideLinkingOf input l → inputs.IsWideLinkingOf input m → l ≡ m }
    ensures none { (input : inputs.Input) (l : WideLinking) → IsGraph input.resolved.graph → refusals.IsWideReady input l → (fault : Fault) → refusals.IsCause input fault → fault ≡ Fault.OutOfMemory }
{
    law_linked_has_no_cause();
}

/// Where a component of plain functions is answered, no cause holds that one is refused for, want of memory aside; where one of all that a
/// world has is, B25 aside, too.
pub fn law_built_has_no_cause()
    ensures plain { (input : inputs.Input) (bytes : List ℕ) → headline.IsPlainlyBuilt input bytes → (fault : Fault) → refusals.IsBuildCause input fault → fault ≡ Fault.OutOfMemory }
    ensures wide { (input : inputs.Input) (bytes : List ℕ) → IsGraph input.resolved.graph → headline.IsWidelyBuilt input bytes → (fault : Fault) → refusals.IsBuildCause input fault → (fault ≡ Fault.OutOfMemory) ⊎ (fault ≡ Fault.Linking TooLarge) }
{
    law_linked_has_no_cause();
}

/// Whether stand-ins call through references, whether generated modules carry names, and whether what was built is looked at, changes no answer
/// and no refusal: for inputs that differ in these alone, lines, bytes, verdicts and causes are the same.
pub fn law_switches_change_nothing()
    ensures { (input : inputs.Input) (references names validates : Bool) → switches.IsAnsweredAlike input (switches.with_switches input references names validates) }
{}

/// The auditor is exact: of bytes that are right for an input in whose way nothing stands, every verdict is yes, and no
/// cause of a refusal holds, want of memory aside.
pub fn law_right_is_judged_yes()
    ensures verdict { (input : inputs.Input) (bytes : List ℕ) → headline.IsRight input bytes → (verdict : Verdict) → headline.IsJudged input bytes verdict → verdict ≡ Verdict.Yes }
    ensures cause { (input : inputs.Input) (bytes : List ℕ) (l : Linking) → refusals.IsReady input l → headline.IsRight input bytes → (fault : Fault) → refusals.IsAuditCause input bytes fault → fault ≡ Fault.OutOfMemory }
{}

/// The auditor says yes to what was built of plain functions, want of memory aside: `Session::build` answers bytes that meet the `requires`
/// wherever the input links these alone.
pub fn law_audit_of_what_was_built(session: &Session, bytes: &[u8]) -> Result<Verdict, Fault>
    requires { headline.IsPlainlyBuilt session.now bytes.now }
    ensures { MatchResult result (λ v. v ≡ Verdict.Yes) (λ e. e ≡ Fault.OutOfMemory) }
{
    audit(session, bytes)
}
