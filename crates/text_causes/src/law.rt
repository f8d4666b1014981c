//! Laws of packages and texts that are there: none had a cause to be refused.

ghost use Rattle.text_causes.specs.Causes.{PushedPackagesHaveNoCause, PushedGroupsHaveNoCause, PushedTextsHaveNoCause};

/// Where a package that asks for each interface and each world of others under one name is there, its texts beginning at a place, no error of that
/// push has a cause, but want of memory (WIT, Packages).
pub fn law_pushed_packages_have_no_cause()
    ensures { PushedPackagesHaveNoCause }
{}

/// Where `Resolve::push_groups` has answered for groups of packages that ask so, none of its errors has a cause, but want of memory (WIT, Packages).
pub fn law_pushed_groups_have_no_cause()
    ensures { PushedGroupsHaveNoCause }
{}

/// Where `Resolve::push_texts` has answered for texts, none of its errors has a cause in them or in the groups that they were resolved to, but want
/// of memory: they are of the grammar, break no rule, and are small enough, and the graph had no reason to refuse them (WIT, Packages, Nested
/// Packages).
pub fn law_pushed_texts_have_no_cause()
    ensures { PushedTextsHaveNoCause }
{}
