//! Laws of machines: each is the contract of a function without a body.

ghost use Rattle.eds_machine.specs.Laws.{AlikeMoments, AlikeReactions, AlikeStarts, UntakenChangesNothing, MomentsAreLater, MomentsPass, ReactionsArePunctual, ReactionsSendWell, SendsStandBehind, StartSendsStandBehind, StartsArePunctual, StartsSendWell};

/// Where a machine takes no transition, nothing changes, but that a timer's moment has passed.
pub fn untaken_changes_nothing()
    ensures { UntakenChangesNothing }
{}

/// A moment of a machine comes at most once for each time that its state is entered: what came has passed, and what is to
/// come is later than what has passed.
pub fn timers_fire_once()
    ensures later { MomentsAreLater }
    ensures pass { MomentsPass }
{}

/// What a component makes of an event doesn't rest on what was sent before, and what it sends stands behind that.
pub fn sends_stand_behind()
    ensures event { SendsStandBehind }
    ensures start { StartSendsStandBehind }
{}

/// What a component that fits sends stands at one of its ends, goes the way that leaves there, and has a value that packs for
/// each that the member carries so.
pub fn components_send_well()
    ensures event { ReactionsSendWell }
    ensures start { StartsSendWell }
{}

/// After an event, no moment that is to come has been passed over: the machines wait for later moments than now, or for those
/// for which they waited before.
pub fn moments_are_not_passed_over()
    ensures event { ReactionsArePunctual }
    ensures start { StartsArePunctual }
{}

/// Components that differ at most in the room of their vectors start alike, make the same of each event, and wait for the same
/// moments.
pub fn alike_components_react_alike()
    ensures event { AlikeReactions }
    ensures start { AlikeStarts }
    ensures moments { AlikeMoments }
{}
