//! Snapshots.

ghost use Rattle.std.specs.Prelude.{◌≡◌, IfOk, map, option_map, unwrap_or};
ghost use Rattle.eds_types.specs.Plain.{plain};
ghost use Rattle.eds_plan.specs.States.{state_now};
ghost use Rattle.eds_snap.specs.Readings.{machines_told, state_told, states_told, values_told};
ghost use Rattle.eds_snap.specs.Seen.{reading_now, snap_now, told_now};

use crate::reading::Reading;
use crate::told::Told;
use eds_base::{Items, Memory};
use eds_plan::{
    CompState, ComponentPlan, Machine, MachineState, Plan, States, Values, VarPlan, Wires,
};
use eds_types::Value;
use std::alloc::Global;

/// A snapshot of a run: its time, its wires, and the state of each component.
#[derive(Drop)]
pub struct Snap {
    pub now: u64,
    pub wires: Wires,
    pub states: States,
}

fn value_or_first(alloc: Global, slot: Option<Value>, variable: &VarPlan) -> Result<Value, Memory>
    ensures { IfOk result (λ v. plain v ≡ unwrap_or (option_map plain slot) (plain variable.now.initial)) }
{
    match slot {
        Some(value) => Ok(value),
        None => variable.initial.copy(alloc),
    }
}

// The values that were told, and first values where none was.
fn finished_values(
    alloc: Global,
    variables: &[VarPlan],
    slots: Items<Option<Value>>,
) -> Result<Values, Memory>
    ensures { IfOk result (λ vs. map plain vs ≡ values_told variables.now (map (option_map plain) slots)) }
{
    let mut values = Values::new(alloc);
    let mut each = slots.into_vec().into_iter();
    for variable in variables {
        match each.next() {
            None => return Ok(values),
            Some(slot) => {
                let value = value_or_first(alloc, slot, variable)?;
                values.push(value)?;
            }
        }
    }
    Ok(values)
}

fn state_or_entry(now: u64, slot: Option<MachineState>, machine: &Machine) -> MachineState
    ensures { result ≡ unwrap_or slot (record { at = machine.now.entry; entered = now; passed = now }) }
{
    match slot {
        Some(state) => state,
        None => MachineState {
            at: machine.entry,
            entered: now,
            passed: now,
        },
    }
}

// Where machines stand, which is their entry states where nothing was told.
fn finished_machines(
    alloc: Global,
    now: u64,
    machines: &[Machine],
    slots: Items<Option<MachineState>>,
) -> Result<Items<MachineState>, Memory>
    ensures { IfOk result (λ ms. ms ≡ machines_told now machines.now slots) }
{
    let mut states = Items::new(alloc);
    let mut each = slots.into_vec().into_iter();
    for machine in machines {
        match each.next() {
            None => return Ok(states),
            Some(slot) => states.push(state_or_entry(now, slot, machine))?,
        }
    }
    Ok(states)
}

fn finished_state(
    alloc: Global,
    now: u64,
    component: &ComponentPlan,
    told: Told,
) -> Result<CompState, Memory>
    ensures { IfOk result (λ s. state_now s ≡ state_told now component.now (told_now told)) }
{
    let Told {
        variables,
        machines,
        outstanding,
    } = told;
    let variables = finished_values(alloc, component.variables.as_slice(), variables)?;
    let machines = finished_machines(alloc, now, component.machines.as_slice(), machines)?;
    Ok(CompState {
        variables,
        machines,
        outstanding,
    })
}

fn finished_states(alloc: Global, now: u64, plan: &Plan, told: Vec<Told>) -> Result<States, Memory>
    ensures { IfOk result (λ ss. ss ≡ states_told now plan.now (map told_now told.items)) }
{
    let mut states = States::new(alloc);
    let mut each = told.into_iter();
    for component in plan.as_slice() {
        match each.next() {
            None => return Ok(states),
            Some(own) => {
                let state = finished_state(alloc, now, component, own)?;
                states.push(state)?;
            }
        }
    }
    Ok(states)
}

/// The snapshot of what was read.
pub(crate) fn finished(alloc: Global, plan: &Plan, reading: Reading) -> Result<Snap, Memory>
    ensures { IfOk result (λ s. snap_now s ≡ record { now = reading.time; wires = reading.wires; states = states_told reading.time plan.now (map told_now reading.told.items) }) }
{
    let Reading {
        stage: _,
        time,
        wires,
        told,
    } = reading;
    let states = finished_states(alloc, time, plan, told)?;
    Ok(Snap {
        now: time,
        wires,
        states,
    })
}
