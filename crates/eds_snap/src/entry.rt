//! What a line tells.

ghost use Rattle.std.specs.Prelude.{◌≡◌, ◌<◌, ◌^◌, ℕ, List, IfOk, length, map, slice_get};
ghost use Rattle.std.specs.HashMap.{get_by_text};
ghost use Rattle.eds_act.specs.Does.{Conforms};
ghost use Rattle.eds_base.specs.Answering.{Answers};
ghost use Rattle.eds_machine.specs.Moments.{HasTimers};
ghost use Rattle.eds_plan.specs.Ends.{end_named};
ghost use Rattle.eds_plan.specs.Fitting.{PlanFits};
ghost use Rattle.eds_plan.specs.Plans.{component_at};
ghost use Rattle.eds_snap.specs.Seen.{IsEarly, entry_now, said_of, told_now, why_in};
ghost use Rattle.eds_types.specs.Plain.{plain};
ghost use Rattle.eds_snap.specs.Entries.{comes_by as comes_by_of, entry_of, given_value as value_given, in_time as in_time_of, is_due as is_due_of, machine_entry as machine_told, stands_at as stands_there, time_entry as time_told, type_of, variable_entry as variable_told, wait_entry as wait_told};

use crate::SnapWhy;
use crate::names::{component_in, machine_place, variable_in, variable_place, wait_place};
use crate::told::{Told, is_machine_told, is_variable_told, is_wait_told};
use crate::words::Saying;
use eds_base::{CompId, Fail, Memory, TypeId};
use eds_machine::next_moment;
use eds_plan::{EndIndex, Machine, MachineState, Outstanding, Plan};
use eds_script::{number_of, packs};
use eds_types::{TypeTable, Value};
use eds_value::{ValueFail, from_json};
use std::alloc::Global;

/// What a line tells: nothing, the time, a wire, where a machine stands, what a variable holds, or a transaction under way.
#[derive(Drop)]
pub(crate) enum Entry<'a> {
    Begin,
    Time(u64),
    Wire(&'a str, &'a str),
    Machine(usize, usize, MachineState),
    Variable(usize, usize, Value),
    Wait(usize, Outstanding),
}

/// What a line is judged by: the table and plan, and the plan's ends by their texts.
#[derive(Clone, Copy)]
pub(crate) struct Setting<'a> {
    pub(crate) table: &'a TypeTable,
    pub(crate) plan: &'a Plan,
    pub(crate) ends: &'a EndIndex,
}

/// The time ends before, in nanoseconds.
const TIME_LIMIT: u64 = 9_223_372_036_854_775_808;

// ---- the time

fn time_entry<'a>(number: &str) -> Result<Entry<'a>, Fail<SnapWhy>>
    ensures entry { Answers entry_now result (time_told number.now) }
    ensures early { IfOk result (λ e. IsEarly (entry_now e)) }
{
    let Some(n) = number_of(number) else {
        return Err(Fail::Named(SnapWhy::Number));
    };
    if n < TIME_LIMIT {
        Ok(Entry::Time(n))
    } else {
        Err(Fail::Named(SnapWhy::Time))
    }
}

// ---- machines

fn comes_by(now: u64, moment: Option<u64>) -> bool
    ensures { result ≡ comes_by_of now moment }
{
    match moment {
        None => false,
        Some(at) => at <= now,
    }
}

fn in_time(now: u64, state: MachineState) -> bool
    ensures { result ≡ in_time_of now state }
{
    state.entered <= state.passed && state.passed <= now
}

fn is_due(now: u64, state: MachineState, machine: &Machine) -> bool
    requires early { state.entered < 2 ^ 63 }
    requires timers { HasTimers machine.now }
    ensures { result ≡ is_due_of now state machine.now }
{
    comes_by(now, next_moment(state, &machine.transitions))
}

// Where a machine stands, of which no line told before.
fn stands_at<'a>(
    setting: &Setting<'_>,
    now: u64,
    told: &[Told],
    comp: usize,
    place: usize,
    state: MachineState,
) -> Result<Entry<'a>, Fail<SnapWhy>>
    requires now { now < 2 ^ 63 }
    requires comp { comp < length setting.now.plan.now }
    requires place { place < length (component_at setting.now.plan.now comp).machines }
    requires fits { PlanFits setting.now.table.now (Conforms setting.now.table.now) setting.now.plan.now }
    ensures early { IfOk result (λ e. IsEarly (entry_now e)) }
    ensures entry { Answers entry_now result (stands_there setting.now.table.now setting.now.plan.now now (map told_now told.now) comp place state) }
{
    if is_machine_told(told, comp, place) {
        return Err(Fail::Named(SnapWhy::Twice));
    }
    if !in_time(now, state) {
        return Err(Fail::Named(SnapWhy::Time));
    }
    let component = &setting.plan.as_slice()[comp];
    if is_due(now, state, &component.machines.as_slice()[place]) {
        return Err(Fail::Named(SnapWhy::Due));
    }
    Ok(Entry::Machine(comp, place, state))
}

// A place that a plan has.
fn small(place: usize) -> Result<u16, Memory>
    ensures { IfOk result (λ n. n ≡ place) }
{
    u16::try_from(place).map_err(|_| Memory)
}

fn number_small(place: usize) -> Result<u32, Memory>
    ensures { IfOk result (λ n. n ≡ place) }
{
    u32::try_from(place).map_err(|_| Memory)
}

#[tactic(auto, unfolding(crate::specs::Entries::machine_entry))]
fn machine_entry<'a>(
    setting: &Setting<'_>,
    now: u64,
    told: &[Told],
    component: &str,
    machine: &str,
    state: &str,
    entered: &str,
    passed: &str,
) -> Result<Entry<'a>, Fail<SnapWhy>>
    requires now { now < 2 ^ 63 }
    requires fits { PlanFits setting.now.table.now (Conforms setting.now.table.now) setting.now.plan.now }
    ensures early { IfOk result (λ e. IsEarly (entry_now e)) }
    ensures entry { Answers entry_now result (machine_told setting.now.table.now setting.now.plan.now now (map told_now told.now) component.now machine.now state.now entered.now passed.now) }
{
    let Some(entered) = number_of(entered) else {
        return Err(Fail::Named(SnapWhy::Number));
    };
    let Some(passed) = number_of(passed) else {
        return Err(Fail::Named(SnapWhy::Number));
    };
    let Some(place) = machine_place(setting.plan, component, machine, state) else {
        return Err(Fail::Named(SnapWhy::Name));
    };
    let at = small(place.at)?;
    let standing = MachineState {
        at,
        entered,
        passed,
    };
    stands_at(setting, now, told, place.comp, place.machine, standing)
}

// ---- variables

// What is wrong with JSON.
fn why_of(fail: Fail<ValueFail>) -> Fail<SnapWhy>
    ensures { result ≡ why_in fail }
{
    match fail {
        Fail::Named(ValueFail::NotJson) => Fail::Named(SnapWhy::Json),
        Fail::Named(ValueFail::WrongShape(_)) => Fail::Named(SnapWhy::Shape),
        Fail::Memory => Fail::Memory,
    }
}

// The value of a JSON text, which packs as its type.
fn given_value(
    alloc: Global,
    table: &TypeTable,
    id: TypeId,
    json: &str,
) -> Result<Value, Fail<SnapWhy>>
    requires known { id.0 < length table.now }
    ensures { Answers plain result (value_given table.now id.0 json.now) }
{
    let value = from_json(alloc, table, id, json.as_bytes()).map_err(why_of)?;
    if packs(table, id, &value) {
        Ok(value)
    } else {
        Err(Fail::Named(SnapWhy::Value))
    }
}

// The type of a variable of a component.
fn variable_type(table: &TypeTable, plan: &Plan, comp: usize, place: usize) -> TypeId
    requires fits { PlanFits table.now (Conforms table.now) plan.now }
    requires comp { comp < length plan.now }
    requires place { place < length (component_at plan.now comp).variables }
    ensures known { result.0 < length table.now }
    ensures id { result.0 ≡ type_of (slice_get (component_at plan.now comp).variables place) }
{
    let component = component_in(plan, comp);
    let variable = variable_in(component, place);
    variable.id
}

#[tactic(auto, unfolding(crate::specs::Entries::variable_entry))]
fn variable_entry<'a>(
    alloc: Global,
    setting: &Setting<'_>,
    now: u64,
    told: &[Told],
    component: &str,
    variable: &str,
    json: &str,
) -> Result<Entry<'a>, Fail<SnapWhy>>
    requires fits { PlanFits setting.now.table.now (Conforms setting.now.table.now) setting.now.plan.now }
    ensures early { IfOk result (λ e. IsEarly (entry_now e)) }
    ensures entry { Answers entry_now result (variable_told setting.now.table.now setting.now.plan.now now (map told_now told.now) component.now variable.now json.now) }
{
    let Some(place) = variable_place(setting.plan, component, variable) else {
        return Err(Fail::Named(SnapWhy::Name));
    };
    if is_variable_told(told, place.comp, place.variable) {
        return Err(Fail::Named(SnapWhy::Twice));
    }
    let id = variable_type(setting.table, setting.plan, place.comp, place.variable);
    let value = given_value(alloc, setting.table, id, json)?;
    Ok(Entry::Variable(place.comp, place.variable, value))
}

// ---- transactions

#[tactic(auto, unfolding(crate::specs::Entries::wait_entry))]
fn wait_entry<'a>(
    setting: &Setting<'_>,
    now: u64,
    told: &[Told],
    end: &str,
    member: &str,
    name: &str,
) -> Result<Entry<'a>, Fail<SnapWhy>>
    requires ends { (q : List ℕ) → get_by_text setting.now.ends.now q ≡ end_named setting.now.plan.now q }
    ensures early { IfOk result (λ e. IsEarly (entry_now e)) }
    ensures entry { Answers entry_now result (wait_told setting.now.table.now setting.now.plan.now now (map told_now told.now) end.now member.now name.now) }
{
    let Some(place) = wait_place(setting.ends, setting.plan, end, member, name) else {
        return Err(Fail::Named(SnapWhy::Name));
    };
    let waiting = Outstanding {
        face: place.face,
        member: small(place.member)?,
        name: number_small(place.name)?,
    };
    if is_wait_told(told, place.comp, waiting) {
        return Err(Fail::Named(SnapWhy::Twice));
    }
    Ok(Entry::Wait(place.comp, waiting))
}

// ---- all

/// What a line tells that says this, behind others.
pub(crate) fn entry_of<'a>(
    alloc: Global,
    setting: &Setting<'_>,
    now: u64,
    told: &[Told],
    saying: Saying<'a>,
) -> Result<Entry<'a>, Fail<SnapWhy>>
    requires now { now < 2 ^ 63 }
    requires fits { PlanFits setting.now.table.now (Conforms setting.now.table.now) setting.now.plan.now }
    requires ends { (q : List ℕ) → get_by_text setting.now.ends.now q ≡ end_named setting.now.plan.now q }
    ensures early { IfOk result (λ e. IsEarly (entry_now e)) }
    ensures entry { Answers entry_now result (entry_of setting.now.table.now setting.now.plan.now now (map told_now told.now) (said_of saying.entry)) }
{
    match saying {
        Saying::Begins => Ok(Entry::Begin),
        Saying::Ends(number) => time_entry(number),
        Saying::Ties(lower, upper) => Ok(Entry::Wire(lower, upper)),
        Saying::Stands(component, machine, state, entered, passed) => machine_entry(
            setting, now, told, component, machine, state, entered, passed,
        ),
        Saying::Holds(component, variable, json) => {
            variable_entry(alloc, setting, now, told, component, variable, json)
        }
        Saying::Waits(end, member, name) => wait_entry(setting, now, told, end, member, name),
    }
}
