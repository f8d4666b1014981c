//! Laws of packages that a graph takes: none had a cause to be refused.

ghost use Rattle.wit_push_causes.specs.Causes.{PushedPackagesHaveNoCause, PushedPackagesHaveNoCauseElsewhere, PushedGraphsSayTheSame, SayingTheSameIsAnEquivalence, GroupsTogetherHaveNoCause, GroupsTogetherSayTheSame};

/// Where `Graph::push` has answered for a package, no fault of a push has a cause in that graph, but for want of memory: what a graph refuses it
/// always refuses (WIT, Packages, Use, Feature Gates; Component Model, WIT, Worlds).
pub fn law_pushed_packages_have_no_cause()
    ensures { PushedPackagesHaveNoCause }
{}

/// Nor has one in any graph that says the same.
pub fn law_pushed_packages_have_no_cause_elsewhere()
    ensures { PushedPackagesHaveNoCauseElsewhere }
{}

/// Graphs that say the same still do when `Graph::push` has answered for a package in both, and it has one id in both.
pub fn law_pushed_graphs_say_the_same()
    ensures { PushedGraphsSayTheSame }
{}

/// To say the same is an equivalence of graphs.
pub fn law_saying_the_same_is_an_equivalence()
    ensures { SayingTheSameIsAnEquivalence }
{}

/// Where `push_together` has answered for packages, none of its faults has a cause, but for want of memory (WIT, Packages).
pub fn law_groups_together_have_no_cause()
    ensures { GroupsTogetherHaveNoCause }
{}

/// Packages that are pushed together into a graph leave graphs that say the same, and the first of them has one id in all.
pub fn law_groups_together_say_the_same()
    ensures { GroupsTogetherSayTheSame }
{}
