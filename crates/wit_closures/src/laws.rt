//! Laws of what interfaces depend on.

ghost use Rattle.wit_closures.specs.Closures.{NextIsReached, ReachedStay};

/// Where what is kept of each interface is all that paths of uses from it reach, what is kept of the next one is so too.
pub fn law_next_is_reached()
    ensures { NextIsReached }
{}

/// It stays so where more interfaces come behind.
pub fn law_reached_stay()
    ensures { ReachedStay }
{}
