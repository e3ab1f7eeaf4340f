//! What a line means.

ghost use Rattle.std.specs.Prelude.{◌≡◌, ◌<◌, ◌+◌, ◌^◌, IfOk, ℕ, List, map, string_bytes};
ghost use Rattle.std.specs.HashMap.{get_by_text};
ghost use Rattle.eds_base.specs.Answering.{Answers};
ghost use Rattle.eds_plan.specs.Lines.{told};
ghost use Rattle.eds_script.specs.Arrivals.{arrival_told};
ghost use Rattle.eds_script.specs.Carries.{plan_fields};
ghost use Rattle.eds_plan.specs.Ends.{end_named};
ghost use Rattle.eds_script.specs.Known.{KnowsTypes};
ghost use Rattle.eds_script.specs.Meaning.{is_wire as wire_form, ticks_by, saying_meaning as meaning_of_saying, tie_meaning as meaning_of_tie, tick_meaning as meaning_of_tick};
ghost use Rattle.eds_script.specs.Seen.{is_among, meaning_of, said_of as saying_of};

use crate::LineWhy;
use crate::arrival::{fits, member_line};
use crate::carries::{Facing, PlanFields, fields_at};
use crate::number::tick_of;
use crate::wired::{EndSet, is_held};
use crate::words::{Saying, Verb};
use eds_base::Fail;
use eds_plan::{EndIndex, Line, Plan, find_end};
use eds_types::TypeTable;
use std::alloc::Global;

/// What a line means.
#[derive(Drop)]
pub(crate) enum Meaning<'a> {
    /// A required end is tied to a provided one.
    Wire(&'a str, &'a str),
    /// So many nanoseconds pass.
    Tick(u64),
    /// Something arrives at an end.
    Comes(Line),
}

impl Meaning<'_> {
    /// Whether it is a wire.
    pub(crate) fn is_wire(&self) -> bool
        ensures { result ≡ wire_form (meaning_of self.now) }
    {
        match self {
            Meaning::Wire(_, _) => true,
            Meaning::Tick(_) => false,
            Meaning::Comes(_) => false,
        }
    }

    /// How many nanoseconds pass by it.
    pub(crate) fn ticks(&self) -> u64
        ensures { result ≡ ticks_by (meaning_of self.now) }
    {
        match self {
            Meaning::Wire(_, _) => 0,
            Meaning::Tick(n) => *n,
            Meaning::Comes(_) => 0,
        }
    }
}

/// What a line is judged by: the table and plan, the plan's ends by their texts, what arrives at them, and the ends in wire
/// lines.
#[derive(Clone, Copy)]
pub(crate) struct Setting<'a> {
    pub(crate) table: &'a TypeTable,
    pub(crate) plan: &'a Plan,
    pub(crate) ends: &'a EndIndex,
    pub(crate) fields: &'a PlanFields,
    pub(crate) wired: &'a EndSet,
}

// What arrives at the end of a text.
#[tactic(auto, unfolding(crate::specs::Arrivals::arrival_told))]
fn arrival_line(
    alloc: Global,
    setting: &Setting<'_>,
    verb: Verb,
    end: &str,
    name: &str,
    rest: &str,
) -> Result<Line, Fail<LineWhy>>
    requires ends { (q : List ℕ) → get_by_text setting.now.ends.now q ≡ end_named setting.now.plan.now q }
    requires fields { setting.now.fields.now ≡ plan_fields setting.now.plan.now }
    requires known { KnowsTypes setting.now.table.now setting.now.plan.now }
    ensures { Answers told result (arrival_told setting.now.table.now setting.now.plan.now (is_among (map string_bytes setting.now.wired.now.keys)) verb end.now name.now rest.now) }
{
    let Some((place, plan)) = find_end(setting.ends, setting.plan, end) else {
        return Err(Fail::Named(LineWhy::End));
    };
    if is_held(setting.wired, end) {
        return Err(Fail::Named(LineWhy::Wired));
    }
    if !fits(verb, plan.required) {
        return Err(Fail::Named(LineWhy::Way));
    }
    let Some(fields) = fields_at(setting.fields, place) else {
        unreachable!()
    };
    let facing = Facing {
        end: place,
        plan,
        fields,
    };
    member_line(alloc, setting.table, verb, &facing, name, rest)
}

fn tie_meaning<'a>(late: bool, lower: &'a str, upper: &'a str) -> Result<Meaning<'a>, Fail<LineWhy>>
    ensures value { Answers meaning_of result (meaning_of_tie late lower.now upper.now) }
    ensures at_once { IfOk result (λ m. ticks_by (meaning_of m) ≡ 0) }
{
    if late {
        Err(Fail::Named(LineWhy::Late))
    } else {
        Ok(Meaning::Wire(lower, upper))
    }
}

fn tick_meaning<'a>(time: u64, number: &'a str) -> Result<Meaning<'a>, Fail<LineWhy>>
    requires { time < 2 ^ 63 }
    ensures value { Answers meaning_of result (meaning_of_tick time number.now) }
    ensures in_time { IfOk result (λ m. time + ticks_by (meaning_of m) < 2 ^ 63) }
{
    let tick = tick_of(time, number).map_err(Fail::Named)?;
    Ok(Meaning::Tick(tick))
}

/// What a line means that says this, after so much time, and after another line than a wire line or after none.
pub(crate) fn saying_meaning<'a>(
    alloc: Global,
    setting: &Setting<'_>,
    late: bool,
    time: u64,
    saying: Saying<'a>,
) -> Result<Meaning<'a>, Fail<LineWhy>>
    requires ends { (q : List ℕ) → get_by_text setting.now.ends.now q ≡ end_named setting.now.plan.now q }
    requires fields { setting.now.fields.now ≡ plan_fields setting.now.plan.now }
    requires known { KnowsTypes setting.now.table.now setting.now.plan.now }
    requires time { time < 2 ^ 63 }
    ensures value { Answers meaning_of result (meaning_of_saying setting.now.table.now setting.now.plan.now (is_among (map string_bytes setting.now.wired.now.keys)) late time (saying_of saying.entry)) }
    ensures in_time { IfOk result (λ m. time + ticks_by (meaning_of m) < 2 ^ 63) }
{
    match saying {
        Saying::Ties(lower, upper) => tie_meaning(late, lower, upper),
        Saying::Ticks(number) => tick_meaning(time, number),
        Saying::Arrives(verb, end, name, rest) => {
            let line = arrival_line(alloc, setting, verb, end, name, rest)?;
            Ok(Meaning::Comes(line))
        }
    }
}
