//! The recordings of a line beside what left the run in it.

ghost use Rattle.std.specs.Prelude.{◌≡◌, IfOk, codes, map};
ghost use Rattle.std.specs.List.{AllByRecursion};
ghost use Rattle.eds_plan.specs.Outs.{report};
ghost use Rattle.eds_replay.specs.Agreement.{ArgumentsAreClear};
ghost use Rattle.eds_script.specs.Fitting.{FitsPlan};
ghost use Rattle.eds_script.specs.Known.{KnowsTypes};
ghost use Rattle.eds_replay.specs.Differences.{IsUnrecorded, IsUnseen};
ghost use Rattle.eds_replay.specs.Pairs.{AreCompared, IsNext, LeavesFirst};

use crate::differs::Differs;
use crate::pair::{Pair, event_text, pair_of};
use crate::session::Recorded;
use eds_base::{Memory, Text};
use eds_plan::{Out, Plan};
use eds_types::TypeTable;
use eds_unpack::Segments;
use std::alloc::Global;

/// What comes of the next event.
#[derive(Drop)]
pub(crate) enum Next<'a> {
    /// The first recording agrees with it, so many times spelled otherwise, and these are the others.
    Agrees(&'a [Recorded], u32),
    /// It doesn't.
    Differs(Differs),
}

/// How many recordings agree, how many of these are spelled otherwise, and the first difference.
#[derive(Drop)]
pub(crate) struct Compared {
    pub(crate) agreed: u32,
    pub(crate) otherwise: u32,
    pub(crate) differs: Option<Differs>,
}

// What stands for what isn't there.
fn nothing(alloc: Global) -> Result<Text, Memory>
    ensures { IfOk result (λ t. t ≡ codes "nothing") }
{
    Text::of(alloc, "nothing")
}

fn copied(alloc: Global, text: &Text) -> Result<Text, Memory>
    ensures { IfOk result (λ t. t ≡ text.now) }
{
    Text::of(alloc, text.as_str())
}

// Nothing is recorded of an event.
fn unrecorded(
    alloc: Global,
    table: &TypeTable,
    plan: &Plan,
    owner: u32,
    event: &Out,
) -> Result<Differs, Memory>
    requires fits { FitsPlan table.now plan.now (report event.now) }
    ensures { IfOk result (λ d. IsUnrecorded table.now plan.now owner (report event.now) d) }
{
    let want = nothing(alloc)?;
    let got = event_text(alloc, table, plan, event)?;
    Ok(Differs {
        line: owner,
        want,
        got,
    })
}

// Nothing left the run in the place of a recording.
fn unseen(alloc: Global, recorded: &Recorded) -> Result<Differs, Memory>
    ensures { IfOk result (λ d. IsUnseen recorded.now d) }
{
    let want = copied(alloc, &recorded.text)?;
    let got = nothing(alloc)?;
    Ok(Differs {
        line: recorded.line,
        want,
        got,
    })
}

// What comes of the next event, beside the recordings that are left.
fn next_of<'a>(
    alloc: Global,
    table: &TypeTable,
    segments: &Segments<'_>,
    plan: &Plan,
    owner: u32,
    left: &'a [Recorded],
    event: &Out,
) -> Result<Next<'a>, Memory>
    requires segments { segments.now ≡ table.now }
    requires known { KnowsTypes table.now plan.now }
    requires clear { ArgumentsAreClear table.now plan.now }
    requires fits { FitsPlan table.now plan.now (report event.now) }
    ensures { IfOk result (λ n. IsNext table.now plan.now owner left.now (report event.now) n) }
{
    match left {
        [] => Ok(Next::Differs(unrecorded(alloc, table, plan, owner, event)?)),
        [first, others @ ..] => match pair_of(
            alloc,
            table,
            segments,
            plan,
            first.text.as_str(),
            event,
        )? {
            Pair::Same => Ok(Next::Agrees(others, 0)),
            Pair::Otherwise => Ok(Next::Agrees(others, 1)),
            Pair::Other(got) => {
                let want = copied(alloc, &first.text)?;
                Ok(Next::Differs(Differs {
                    line: first.line,
                    want,
                    got,
                }))
            }
        },
    }
}

// The first of the recordings that are left, when all events have been seen.
fn first_left(alloc: Global, left: &[Recorded]) -> Result<Option<Differs>, Memory>
    ensures { IfOk result (λ d. LeavesFirst left.now d) }
{
    match left {
        [] => Ok(None),
        [first, ..] => Ok(Some(unseen(alloc, first)?)),
    }
}

/// The recordings of the line of a number beside the events of that line.
pub(crate) fn compare(
    alloc: Global,
    table: &TypeTable,
    segments: &Segments<'_>,
    plan: &Plan,
    owner: u32,
    recorded: &[Recorded],
    events: &[Out],
) -> Result<Compared, Memory>
    requires segments { segments.now ≡ table.now }
    requires known { KnowsTypes table.now plan.now }
    requires clear { ArgumentsAreClear table.now plan.now }
    requires fits { AllByRecursion (FitsPlan table.now plan.now) (map report events.now) }
    ensures { IfOk result (λ c. AreCompared table.now plan.now owner recorded.now (map report events.now) c.agreed c.otherwise c.differs) }
{
    let mut agreed: u32 = 0;
    let mut otherwise: u32 = 0;
    let mut left = recorded;
    let mut rest = events;
    while let [event, after @ ..] = rest {
        match next_of(alloc, table, segments, plan, owner, left, event)? {
            Next::Agrees(others, more) => {
                agreed = agreed.checked_add(1).ok_or(Memory)?;
                otherwise = otherwise.checked_add(more).ok_or(Memory)?;
                left = others;
            }
            Next::Differs(differs) => {
                return Ok(Compared {
                    agreed,
                    otherwise,
                    differs: Some(differs),
                });
            }
        }
        rest = after;
    }
    let differs = first_left(alloc, left)?;
    Ok(Compared {
        agreed,
        otherwise,
        differs,
    })
}
