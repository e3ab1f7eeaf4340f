//! A recording beside an event.

ghost use Rattle.std.specs.Prelude.{◌≡◌, ◌++◌, IfOk, IsTrue, codes};
ghost use Rattle.std.specs.Str.{IsUtf8};
ghost use Rattle.eds_plan.specs.Outs.{report};
ghost use Rattle.eds_script.specs.Events.{IsTextLine};
ghost use Rattle.eds_script.specs.Fitting.{FitsPlan};
ghost use Rattle.eds_script.specs.Known.{KnowsTypes};
ghost use Rattle.eds_replay.specs.Agreement.{ArgumentsAreClear, IsEventText, IsRespelled};
ghost use Rattle.eds_replay.specs.Pairs.{IsPair};

use crate::hex_text::are_same;
use crate::spelling::respells;
use eds_base::{Memory, Text};
use eds_plan::{Out, Plan};
use eds_script::law::one_line;
use eds_script::{frame_of, print_event};
use eds_types::TypeTable;
use eds_unpack::Segments;
use std::alloc::Global;

/// How a recording stands beside an event.
#[derive(Drop)]
pub(crate) enum Pair {
    /// Its text is the event's.
    Same,
    /// It spells the event's frame otherwise.
    Otherwise,
    /// It doesn't agree with the event, whose text this is.
    Other(Text),
}

// The text of a line, which a line feed ends.
fn without_feed(line: &[u8]) -> &[u8]
    requires { IsTextLine line.now }
    ensures line { line.now ≡ result.now ++ codes "\n" }
    ensures text { IsUtf8 result.now }
{
    &line[..line.len() - 1]
}

fn text_of(alloc: Global, octets: &[u8]) -> Result<Text, Memory>
    requires { IsUtf8 octets.now }
    ensures { IfOk result (λ t. t ≡ octets.now) }
{
    match std::str::from_utf8(octets) {
        Ok(text) => Text::of(alloc, text),
        Err(_) => unreachable!(),
    }
}

/// The text of an event: its line without the line feed.
pub(crate) fn event_text(
    alloc: Global,
    table: &TypeTable,
    plan: &Plan,
    event: &Out,
) -> Result<Text, Memory>
    requires fits { FitsPlan table.now plan.now (report event.now) }
    ensures { IfOk result (λ x. IsEventText table.now plan.now (report event.now) x) }
{
    let line = print_event(alloc, table, plan, event)?;
    text_of(alloc, without_feed(line.as_slice()))
}

// Whether a recording spells the frame of an event otherwise, where this is the event's text.
fn is_respelled(
    alloc: Global,
    table: &TypeTable,
    segments: &Segments<'_>,
    plan: &Plan,
    event: &Out,
    line: &[u8],
    text: &[u8],
) -> Result<bool, Memory>
    requires segments { segments.now ≡ table.now }
    requires known { KnowsTypes table.now plan.now }
    requires clear { ArgumentsAreClear table.now plan.now }
    requires fits { FitsPlan table.now plan.now (report event.now) }
    requires line { IsEventText table.now plan.now (report event.now) line.now }
    ensures holds { IfOk result (λ b. IsTrue b → IsRespelled table.now plan.now (report event.now) text.now) }
    ensures only { IfOk result (λ b. IsRespelled table.now plan.now (report event.now) text.now → IsTrue b) }
{
    table.keeps_rules();
    match frame_of(plan, event) {
        None => Ok(false),
        Some(frame) => respells(alloc, table, segments, &frame, line, text),
    }
}

/// How a recording stands beside an event.
pub(crate) fn pair_of(
    alloc: Global,
    table: &TypeTable,
    segments: &Segments<'_>,
    plan: &Plan,
    text: &str,
    event: &Out,
) -> Result<Pair, Memory>
    requires segments { segments.now ≡ table.now }
    requires known { KnowsTypes table.now plan.now }
    requires clear { ArgumentsAreClear table.now plan.now }
    requires fits { FitsPlan table.now plan.now (report event.now) }
    ensures { IfOk result (λ p. IsPair table.now plan.now text.now (report event.now) p) }
{
    table.keeps_rules();
    one_line();
    let line = print_event(alloc, table, plan, event)?;
    let got = without_feed(line.as_slice());
    let recorded = text.as_bytes();
    if are_same(got, recorded) {
        return Ok(Pair::Same);
    }
    if is_respelled(alloc, table, segments, plan, event, got, recorded)? {
        return Ok(Pair::Otherwise);
    }
    Ok(Pair::Other(text_of(alloc, got)?))
}
