//! The text of a snapshot.

ghost use Rattle.std.specs.Prelude.{◌≡◌, ◌++◌, IfOk, OnOk, codes, decimal, map, string_bytes};
ghost use Rattle.std.specs.List.{flat_map};
ghost use Rattle.eds_snap.specs.Seen.{snap_now};
ghost use Rattle.eds_snap.specs.Texts.{StatesHaveValues, component_text as text_of_component, machine_line as line_of_machine, snap_text, time_line as line_of_time, wire_line as line_of_wire};
ghost use Rattle.eds_types.specs.Plain.{plain};
ghost use Rattle.eds_script.specs.Fitting.{HaveValues};
ghost use Rattle.eds_script.specs.Names.{state_name as name_of_state};
ghost use Rattle.eds_plan.specs.States.{state_now};
ghost use Rattle.eds_script.specs.Pairs.{texts_of};

use crate::snap::Snap;
use eds_base::{Items, Memory, Octets};
use eds_plan::{CompState, ComponentPlan, Machine, MachineState, Plan, States, Wire};
use eds_script::{add_variables, add_waits, push_octets, state_name};
use eds_types::TypeTable;
use std::alloc::{AllocError, Global};

// ---- lines

// `end T`.
fn time_line(alloc: Global, now: u64) -> Result<String, AllocError>
    ensures { IfOk result (λ s. string_bytes s ≡ line_of_time now) }
{
    Ok(format!(in alloc; "end {now}\n")?)
}

// `wire END END`.
fn wire_line(alloc: Global, wire: &Wire) -> Result<String, AllocError>
    ensures { IfOk result (λ s. string_bytes s ≡ line_of_wire wire.now) }
{
    let lower = wire.lower.as_str();
    let upper = wire.upper.as_str();
    Ok(format!(in alloc; "wire {lower} {upper}\n")?)
}

fn add_wires(alloc: Global, text: &mut Vec<u8>, wires: &[Wire]) -> Result<(), Memory>
    ensures { OnOk result (text.new.items ≡ text.old.items ++ flat_map line_of_wire wires.now) }
{
    for wire in wires {
        let line = wire_line(alloc, wire)?;
        push_octets(text, line.as_bytes())?;
    }
    Ok(())
}

// `machine COMPONENT MACHINE STATE `, in front of the times.
fn machine_front(
    alloc: Global,
    component: &ComponentPlan,
    machine: &Machine,
    at: u16,
) -> Result<String, AllocError>
    ensures { IfOk result (λ s. string_bytes s ≡ codes "machine " ++ component.now.name ++ codes " " ++ machine.now.name ++ codes " " ++ name_of_state machine.now at ++ codes " ") }
{
    let component = component.name.as_str();
    let name = machine.name.as_str();
    let at = state_name(machine, at);
    Ok(format!(in alloc; "machine {component} {name} {at} ")?)
}

// `ENTERED PASSED`.
fn machine_times(alloc: Global, entered: u64, passed: u64) -> Result<String, AllocError>
    ensures { IfOk result (λ s. string_bytes s ≡ decimal entered ++ codes " " ++ decimal passed ++ codes "\n") }
{
    Ok(format!(in alloc; "{entered} {passed}\n")?)
}

// `machine COMPONENT MACHINE STATE ENTERED PASSED`.
fn add_machine(
    alloc: Global,
    text: &mut Vec<u8>,
    component: &ComponentPlan,
    machine: &Machine,
    state: MachineState,
) -> Result<(), Memory>
    ensures { OnOk result (text.new.items ≡ text.old.items ++ line_of_machine component.now.name machine.now state) }
{
    let front = machine_front(alloc, component, machine, state.at)?;
    let times = machine_times(alloc, state.entered, state.passed)?;
    push_octets(text, front.as_bytes())?;
    push_octets(text, times.as_bytes())
}

fn add_machines(
    alloc: Global,
    text: &mut Vec<u8>,
    component: &ComponentPlan,
    states: &Items<MachineState>,
) -> Result<(), Memory>
    ensures { OnOk result (text.new.items ≡ text.old.items ++ texts_of (line_of_machine component.now.name) component.now.machines states.now) }
{
    let mut place: usize = 0;
    let mut rest = component.machines.as_slice();
    while let [machine, after @ ..] = rest {
        let Some(state) = states.get(place) else {
            return Ok(());
        };
        add_machine(alloc, text, component, machine, *state)?;
        place += 1;
        rest = after;
    }
    Ok(())
}

// ---- all

fn add_component(
    alloc: Global,
    text: &mut Vec<u8>,
    table: &TypeTable,
    component: &ComponentPlan,
    state: &CompState,
) -> Result<(), Memory>
    requires { HaveValues table.now component.now.variables (map plain state.now.variables) }
    ensures { OnOk result (text.new.items ≡ text.old.items ++ text_of_component table.now component.now (state_now state.now)) }
{
    add_machines(alloc, text, component, &state.machines)?;
    let values = state.variables.as_slice();
    add_variables(alloc, text, table, component, values)?;
    add_waits(alloc, text, component, state.outstanding.as_slice())?;
    Ok(())
}

fn add_components(
    alloc: Global,
    text: &mut Vec<u8>,
    table: &TypeTable,
    plan: &Plan,
    states: &States,
) -> Result<(), Memory>
    requires { StatesHaveValues table.now plan.now states.now }
    ensures { OnOk result (text.new.items ≡ text.old.items ++ texts_of (text_of_component table.now) plan.now states.now) }
{
    let mut place: usize = 0;
    let mut rest = plan.as_slice();
    while let [component, after @ ..] = rest {
        let Some(state) = states.get(place) else {
            return Ok(());
        };
        add_component(alloc, text, table, component, state)?;
        place += 1;
        rest = after;
    }
    Ok(())
}

/// The text of a snapshot: its time, its wires, and in document order the state of each component.
#[tactic(auto, unfolding(crate::specs::Texts::snap_text))]
pub fn print_snap(
    alloc: Global,
    table: &TypeTable,
    plan: &Plan,
    snap: &Snap,
) -> Result<Octets, Memory>
    requires { StatesHaveValues table.now plan.now snap.now.states }
    ensures { IfOk result (λ o. o ≡ snap_text table.now plan.now (snap_now snap.entry.now)) }
{
    let mut text = Vec::new(alloc);
    push_octets(&mut text, "snapshot 1\n".as_bytes())?;
    let time = time_line(alloc, snap.now)?;
    push_octets(&mut text, time.as_bytes())?;
    add_wires(alloc, &mut text, snap.wires.as_slice())?;
    add_components(alloc, &mut text, table, plan, &snap.states)?;
    Ok(Octets::from_vec(text))
}
