//! Laws of runs.

ghost use Rattle.eds_host.specs.Alike.{AlikeReadings, AlikeRuns, AlikeSystems, AlikeWires};
ghost use Rattle.eds_host.specs.Firings.{FirstFires, OthersStay, TimersReachOne, UntakenTimersPass};
ghost use Rattle.eds_host.specs.Halts.{ActionsKeep, HaltsKeep};
ghost use Rattle.eds_host.specs.Hosts.{ComponentsArePunctual, FirstMayBeHandled, FramesHaveOneOutcome, LinesTakeTheirTime, PlansReadOne, RunsGoOn, RunsHaveOneOutcome, RunsJoin, TimersFireOnce, UnnamedEndsAreOutside};
ghost use Rattle.eds_host.specs.Laws.{ArrivalsSendOn, CoursesAreChains, CoursesGoOnOrStorm, EachIsDelivered, EachLeaves, NoneIsLate, SendingsAreSent, StartsSendOn, TicksAdd, TimeGoesOn, TimersAreOnTime};
ghost use Rattle.eds_host.specs.Resuming.{EndsMayResume, JoinedRunsResume, LaterMachinesWait, ResumedEndsMayResume, RunsTakeTheirTime, WiresTieAlike};
ghost use Rattle.eds_host.specs.Worlds.{LinesHaveCourses, LinesKeepSound};

use eds_overlap::law::one_outcome;
use eds_types::packs::packed_sizes;

/// A tick is two ticks of the same time together, unless it is a storm.
pub fn ticks_add()
    ensures { TicksAdd }
{}

/// The course of a line is a chain of happenings, each being next, after which nothing is next; or a storm.
pub fn courses_are_chains()
    ensures chains { CoursesAreChains }
    ensures one { CoursesGoOnOrStorm }
{}

/// Every primitive that is sent at a wired end is delivered exactly once and in order, unless the line is a storm.
pub fn each_is_delivered()
    ensures { EachIsDelivered }
{}

/// Every primitive that is sent at an end that isn't wired, and every halt, leaves the run exactly once, in order and at its
/// time, and nothing else does: in the course of a line, at the start, and where a primitive arrives. What is sent at wired
/// ends waits, in order, behind what waited.
pub fn each_leaves()
    ensures course { EachLeaves }
    ensures sends { SendingsAreSent }
    ensures start { StartsSendOn }
    ensures arrival { ArrivalsSendOn }
{}

/// Time never goes back, where components wait for later moments once they have reacted; and no moment is passed over.
pub fn time_goes_on()
    ensures goes_on { TimeGoesOn }
    ensures late { NoneIsLate }
{}

/// The components of every plan are such: once they have reacted they wait for later moments, or for those of before.
pub fn components_are_punctual()
    ensures { ComponentsArePunctual }
{}

/// No timer fires early or late: a machine fires at the moment for which its component waits, which time hasn't passed and
/// which has come. What is delivered takes no time.
pub fn timers_are_on_time()
    ensures { TimersAreOnTime }
{}

/// Of equal moments that of the first component comes, and in it that of the first machine; no moment comes before a lesser
/// one.
pub fn first_fires()
    ensures { FirstFires }
{}

/// A timer reaches its machine alone: the other machines of its component stay as they are, with what has passed for them; where
/// its machine takes no transition, nothing else changes. What comes to a component leaves the other components as they are.
pub fn timers_reach_one()
    ensures machine { TimersReachOne }
    ensures untaken { UntakenTimersPass }
    ensures others { OthersStay }
{}

/// A halt keeps what was stored, sent and begun before it, and nothing of what follows it is done; where the activity of a machine
/// halts, its component goes on from there.
pub fn halts_keep()
    ensures activity { HaltsKeep }
    ensures machine { ActionsKeep }
{}

/// No timer fires twice: a machine that has fired waits for later moments alone.
pub fn timers_fire_once()
    ensures { TimersFireOnce }
{}

/// Time goes on by ticks alone, and is 0 after the start.
pub fn lines_take_their_time()
    ensures { LinesTakeTheirTime }
{}

/// Where lines may be handed to a host one after another, the first of them may be handed to it now.
pub fn first_may_be_handled()
    ensures { FirstMayBeHandled }
{}

/// Where wires tie what they name, an end that none of them names is tied to none.
pub fn unnamed_ends_are_outside()
    ensures { UnnamedEndsAreOutside }
{}

/// Lines that are joined are the first ones and then the second ones, unless one of the first is a storm; and what they come
/// to is one thing.
pub fn runs_join()
    ensures join { RunsJoin }
    ensures more { RunsGoOn }
    ensures one { RunsHaveOneOutcome }
{
    one_outcome();
}

/// A frame comes to one thing alone, and so do all frames of a plan that fits.
pub fn frames_have_one_outcome()
    ensures frame { FramesHaveOneOutcome }
    ensures plan { PlansReadOne }
{
    one_outcome();
}

/// Plans that differ at most in the room of their vectors run alike: their components are one system, wires tie the same in
/// them, frames are read alike, and lines make the same of each world.
pub fn alike_plans_run_alike()
    ensures systems { AlikeSystems }
    ensures wires { AlikeWires }
    ensures readings { AlikeReadings }
    ensures runs { AlikeRuns }
{}

/// Where a plan fits, each line that may come has a course. After it all variables have values that pack, and what is still to be
/// delivered may arrive; and each primitive that left the run goes the way that leaves at its end, with the values that its
/// member carries so.
pub fn lines_keep_sound()
    ensures sound { LinesKeepSound }
    ensures some { LinesHaveCourses }
{
    packed_sizes();
    one_outcome();
}

/// Where a run has ended without a storm, nothing is to be delivered, and lines may go on from its time and states; what they
/// come to is what they come to behind the lines of that run.
pub fn runs_resume()
    ensures ends { EndsMayResume }
    ensures further { ResumedEndsMayResume }
    ensures join { JoinedRunsResume }
{
    packed_sizes();
    one_outcome();
}

/// A component whose machines all wait for later moments than a time waits for none up to it.
pub fn later_machines_wait()
    ensures { LaterMachinesWait }
{}

/// Wires tie the same in whatever lines they stand; and the time at the end of a run is that to which its lines lead.
pub fn ends_are_told_by_lines()
    ensures wires { WiresTieAlike }
    ensures time { RunsTakeTheirTime }
{}
