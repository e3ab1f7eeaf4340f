//! Judges.

ghost use Rattle.std.specs.Prelude.{◌≡◌, ◌≤◌, length};
ghost use Rattle.eds_replay.specs.Sessions.{RiseFrom, begin, end, recorded_for};

use crate::compare::compare;
use crate::differs::Differs;
use crate::session::Recorded;
use crate::{Recordings, Session};
use eds_base::Memory;
use eds_plan::{Outs, Plan};
use eds_types::TypeTable;
use eds_unpack::Segments;
use std::alloc::Global;
use std::marker::Model;

/// The recordings of a session, which are compared line by line with what leaves a run. Contracts see it as the recordings, how many
/// of them agreed so far, how many of these were spelled otherwise, and the number of the last line.
#[derive(Drop)]
pub struct Judge {
    recorded: Recordings,
    place: usize,
    agreed: u32,
    otherwise: u32,
    last: Option<u32>,
}

impl Model for Judge {
    ghost use Rattle.std.specs.Prelude.{◌≤◌, length};
    ghost use Rattle.eds_replay.specs.Judges.{AreBehind, JudgeNow};

    ghost Value = { JudgeNow };

    ghost view = { λ j. record { recorded = j.recorded; agreed = j.agreed; otherwise = j.otherwise; last = j.last } };

    ghost invariant = { λ j. (j.place ≤ length j.recorded) × AreBehind j.last j.place j.recorded };
}

// The place of the first recording that belongs to the line of a number or a later one.
fn begin_of(recorded: &[Recorded], line: u32) -> usize
    ensures place { result ≡ begin line recorded.now }
    ensures front { result ≤ end line recorded.now }
    ensures within { result ≤ length recorded.now }
{
    let mut place: usize = 0;
    let mut rest = recorded;
    while let [first, after @ ..] = rest {
        if line <= first.owner {
            return place;
        }
        place += 1;
        rest = after;
    }
    place
}

// The place of the first recording that belongs to a later line.
fn end_of(recorded: &[Recorded], line: u32) -> usize
    ensures place { result ≡ end line recorded.now }
    ensures within { result ≤ length recorded.now }
{
    let mut place: usize = 0;
    let mut rest = recorded;
    while let [first, after @ ..] = rest {
        if line < first.owner {
            return place;
        }
        place += 1;
        rest = after;
    }
    place
}

// The recordings of a line among those that belong to it or to later lines, and how many there are in front of those of later lines.
fn own_of(recorded: &[Recorded], line: u32) -> (&[Recorded], usize)
    requires { RiseFrom 0 recorded.now }
    ensures own { result.0.now ≡ recorded_for line recorded.now }
    ensures seen { result.1 ≡ end line recorded.now }
    ensures within { result.1 ≤ length recorded.now }
{
    let from = begin_of(recorded, line);
    let to = end_of(recorded, line);
    let own = &recorded[from..to];
    (own, to)
}

impl Judge {
    ghost use Rattle.std.specs.Prelude.{◌≡◌, IfOk, None, Some, map};
    ghost use Rattle.std.specs.List.{AllByRecursion};
    ghost use Rattle.eds_plan.specs.Outs.{report};
    ghost use Rattle.eds_replay.specs.Agreement.{ArgumentsAreClear};
    ghost use Rattle.eds_script.specs.Fitting.{FitsPlan};
    ghost use Rattle.eds_script.specs.Known.{KnowsTypes};
    ghost use Rattle.eds_replay.specs.Judges.{IsLater, Judged};

    /// A judge of a session's recordings, before the first line.
    pub fn new(session: Session) -> Judge
        ensures recorded { result.recorded ≡ session.recorded }
        ensures agreed { result.agreed ≡ 0 }
        ensures otherwise { result.otherwise ≡ 0 }
        ensures last { result.last ≡ None }
    {
        let Session { recorded, .. } = session;
        Judge {
            recorded,
            place: 0,
            agreed: 0,
            otherwise: 0,
            last: None,
        }
    }

    /// How many recordings agreed with an event in the lines so far, and how many of these were spelled otherwise.
    pub fn counts(&self) -> (u32, u32)
        ensures agreed { result.0 ≡ self.now.agreed }
        ensures otherwise { result.1 ≡ self.now.otherwise }
    {
        (self.agreed, self.otherwise)
    }

    /// Compares the recordings of a line with the events of that line, one by one and in number, exactly as `line` does; frames
    /// that are spelled otherwise are read by the segments of the table. These are made once, and pay where many lines are judged.
    pub fn line_by(
        &mut self,
        alloc: Global,
        table: &TypeTable,
        segments: &Segments<'_>,
        plan: &Plan,
        line: u32,
        events: &Outs,
    ) -> Result<Option<Differs>, Memory>
        requires later { IsLater self.old.last line }
        requires segments { segments.now ≡ table.now }
        requires known { KnowsTypes table.now plan.now }
        requires clear { ArgumentsAreClear table.now plan.now }
        requires fits { AllByRecursion (FitsPlan table.now plan.now) (map report events.now) }
        ensures judged { IfOk result (λ d. Judged table.now plan.now line (map report events.now) self.old self.new d) }
        ensures recorded { self.new.recorded ≡ self.old.recorded }
        ensures last { IfOk result (λ d. self.new.last ≡ Some line) }
    {
        let rest = &self.recorded.as_slice()[self.place..];
        let (own, seen) = own_of(rest, line);
        let compared = compare(alloc, table, segments, plan, line, own, events.as_slice())?;
        let agreed = self.agreed.checked_add(compared.agreed).ok_or(Memory)?;
        let otherwise = self
            .otherwise
            .checked_add(compared.otherwise)
            .ok_or(Memory)?;
        self.place += seen;
        self.agreed = agreed;
        self.otherwise = otherwise;
        self.last = Some(line);
        Ok(compared.differs)
    }

    /// Compares the recordings of a line with the events of that line, one by one and in number: the first difference, None exactly
    /// where they agree. The line is later than that of the call before. After a difference, or want of memory, the judge isn't used
    /// again.
    pub fn line(
        &mut self,
        alloc: Global,
        table: &TypeTable,
        plan: &Plan,
        line: u32,
        events: &Outs,
    ) -> Result<Option<Differs>, Memory>
        requires later { IsLater self.old.last line }
        requires known { KnowsTypes table.now plan.now }
        requires clear { ArgumentsAreClear table.now plan.now }
        requires fits { AllByRecursion (FitsPlan table.now plan.now) (map report events.now) }
        ensures judged { IfOk result (λ d. Judged table.now plan.now line (map report events.now) self.old self.new d) }
        ensures recorded { self.new.recorded ≡ self.old.recorded }
        ensures last { IfOk result (λ d. self.new.last ≡ Some line) }
    {
        let segments = Segments::of(alloc, table)?;
        self.line_by(alloc, table, &segments, plan, line, events)
    }
}
