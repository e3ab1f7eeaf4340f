//! Laws of plans: each is the contract of a function without a body.

ghost use Rattle.eds_plan.specs.Alike.{AlikeEnds};
ghost use Rattle.eds_plan.specs.Matching.{MatchingIsExact, TimersAreExact};

/// The positions that match are exactly those of the transitions from the state with the trigger, in document order.
pub fn matching_is_exact()
    ensures { MatchingIsExact }
{}

/// The waiting times that the timers of a state have are exactly those of the transitions from the state with a timer.
pub fn timers_are_exact()
    ensures { TimersAreExact }
{}

/// Plans that differ at most in the room of their vectors have the same ends under the same texts.
pub fn alike_plans_have_the_same_ends()
    ensures { AlikeEnds }
{}
