//! The transitions of a machine, and an activity.

ghost use Rattle.std.specs.Prelude.{◌≡◌, ◌≤◌, ◌<◌, length, map};
ghost use Rattle.eds_types.specs.Plain.{plain};
ghost use Rattle.eds_plan.specs.Plans.{component_at, variable_types};
ghost use Rattle.eds_act.specs.Does.{AllConform, budget};
ghost use Rattle.eds_machine.specs.Conditions.{MachinesFit};
ghost use Rattle.eds_read_comp.specs.Together.{HoldsTogether};

use eds_act::{ActEnd, run_activity};
use eds_base::{CompId, Memory};
use eds_machine::start;
use eds_plan::{CompState, Op, Plan, Send, Sends, Trigger, Values, Way};
use eds_types::{TypeTable, Value};
use std::alloc::Global;

// The heater, its one machine with two states and its one activity: there the end `ctl` comes first, where the command `On`
// stands behind a parameter; then the end `bus`, whose first command sends.
const HEATER: CompId = CompId(0);

const MACHINE: u16 = 0;

const OFF: u16 = 0;

const RUN: u16 = 1;

const ON: Trigger = Trigger::Command(0, 1);

const BEAT: u16 = 0;

/// Whether the machine leaves the state Off on the command On and the state Run after 1,000 nanoseconds, and on nothing else.
pub(super) fn matches(plan: &Plan) -> bool {
    if plan.len() != 1 || plan.component(HEATER).machines.len() != 1 {
        return false;
    }
    let later = Trigger::Timer(1_000);
    plan.matching(HEATER, MACHINE, OFF, ON) == [0].as_slice()
        && plan.matching(HEATER, MACHINE, RUN, later) == [1].as_slice()
        && plan.matching(HEATER, MACHINE, OFF, later).is_empty()
        && plan.matching(HEATER, MACHINE, RUN, ON).is_empty()
}

// Whether a value is the number, or a container whose last field is.
fn ends_in(value: &Value, number: i128) -> bool {
    match value {
        Value::Num(n) => *n == number,
        Value::Fields(_, fields) => match fields.as_slice() {
            [.., Value::Num(n)] => *n == number,
            _ => false,
        },
        _ => false,
    }
}

// Whether a beat with the number was sent.
fn is_beat(sent: &Send, number: i128) -> bool {
    let Send::Prim(p) = sent else {
        return false;
    };
    let here = p.end.comp == HEATER && p.end.face == 1 && p.member == 0;
    let away = p.way == Way::Down && p.op == Op::Command;
    match p.arguments.as_slice() {
        [value] => here && away && ends_in(value, number),
        _ => false,
    }
}

fn are_two_beats(sends: &[Send]) -> bool {
    match sends {
        [one, two] => is_beat(one, 1) && is_beat(two, 2),
        _ => false,
    }
}

fn both_end_in(variables: &[Value], number: i128) -> bool {
    match variables {
        [one, two] => ends_in(one, number) && ends_in(two, number),
        _ => false,
    }
}

// Runs the activity once; whether it was done to its end.
fn beat(
    alloc: Global,
    table: &TypeTable,
    plan: &Plan,
    state: &mut CompState,
    out: &mut Sends,
    fuel: &mut u32,
) -> Result<bool, Memory>
    requires known { 0 < length plan.now }
    requires there { 0 < length (component_at plan.now 0).activities }
    requires fits { MachinesFit table.now (component_at plan.now 0) }
    requires fuel { fuel.old ≤ budget }
    requires variables { AllConform table.now (variable_types (component_at plan.now 0)) (map plain state.old.variables) }
    ensures fuel { fuel.new ≤ fuel.old }
    ensures variables { AllConform table.now (variable_types (component_at plan.now 0)) (map plain state.new.variables) }
{
    let none = Values::new(alloc);
    let end = run_activity(alloc, table, plan, HEATER, BEAT, &none, state, out, fuel)?;
    Ok(end == ActEnd::Done)
}

fn acts_by(alloc: Global, table: &TypeTable, plan: &Plan) -> Result<bool, Memory>
    requires known { 0 < length plan.now }
    requires there { 0 < length (component_at plan.now 0).activities }
    requires fits { MachinesFit table.now (component_at plan.now 0) }
{
    let mut out = Sends::new(alloc);
    let mut state = start(alloc, table, plan, HEATER, &mut out)?;
    let still = out.is_empty();
    let mut fuel = 100_000;
    let first = beat(alloc, table, plan, &mut state, &mut out, &mut fuel)?;
    let second = beat(alloc, table, plan, &mut state, &mut out, &mut fuel)?;
    Ok(
        still
            && first
            && second
            && fuel == 99_994
            && are_two_beats(out.as_slice())
            && both_end_in(state.variables.as_slice(), 2),
    )
}

/// Whether the activity, run twice from the first values, counts to two in both variables, sends two beats and starts six
/// statements.
pub(super) fn acts(alloc: Global, table: &TypeTable, plan: &Plan) -> Result<bool, Memory>
    requires { HoldsTogether table.now plan.now }
{
    if plan.len() != 1 || plan.component(HEATER).activities.len() != 1 {
        return Ok(false);
    }
    acts_by(alloc, table, plan)
}
