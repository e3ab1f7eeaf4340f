//! The lines of a component's state.

ghost use Rattle.std.specs.Prelude.{◌≡◌, ◌++◌, ◌<◌, IfOk, OnOk, length, map, slice_get, string_bytes};
ghost use Rattle.std.specs.List.{flat_map};
ghost use Rattle.eds_plan.specs.Plans.{component_at};
ghost use Rattle.eds_types.specs.Plain.{plain};
ghost use Rattle.eds_script.specs.Fitting.{HaveValues, IsValueOf};
ghost use Rattle.eds_script.specs.Names.{member_name as name_in_end};
ghost use Rattle.eds_script.specs.Pairs.{texts_of};
ghost use Rattle.eds_script.specs.States.{machine_line as line_of_machine, state_text, variable_line as line_of_variable, wait_line as line_of_wait};

use crate::names::{end_name, member_name, state_name, transaction_name};
use crate::print::{push_octets, value_at};
use eds_base::{CompId, Items, Memory, Octets};
use eds_plan::{
    CompState, ComponentPlan, Machine, MachineState, Outstanding, Plan, VarPlan, end_text,
};
use eds_types::{TypeTable, Value};
use eds_value::to_json;
use std::alloc::{AllocError, Global};

// ---- machines

// `state COMPONENT MACHINE STATE`.
fn machine_line(
    alloc: Global,
    component: &ComponentPlan,
    machine: &Machine,
    state: MachineState,
) -> Result<String, AllocError>
    ensures { IfOk result (λ s. string_bytes s ≡ line_of_machine component.now.name machine.now state) }
{
    let component = component.name.as_str();
    let name = machine.name.as_str();
    let at = state_name(machine, state.at);
    Ok(format!(in alloc; "state {component} {name} {at}\n")?)
}

fn add_machines(
    alloc: Global,
    text: &mut Vec<u8>,
    component: &ComponentPlan,
    states: &Items<MachineState>,
) -> Result<(), Memory>
    ensures { OnOk result (text.new.items ≡ text.old.items ++ texts_of (line_of_machine component.now.name) component.now.machines states.now) }
{
    let mut place: usize = 0;
    let mut rest = component.machines.as_slice();
    while let [machine, after @ ..] = rest {
        let Some(state) = states.get(place) else {
            return Ok(());
        };
        let line = machine_line(alloc, component, machine, *state)?;
        push_octets(text, line.as_bytes())?;
        place += 1;
        rest = after;
    }
    Ok(())
}

// ---- variables

// `var COMPONENT VARIABLE JSON`.
fn add_variable(
    alloc: Global,
    text: &mut Vec<u8>,
    table: &TypeTable,
    component: &ComponentPlan,
    variable: &VarPlan,
    value: &Value,
) -> Result<(), Memory>
    requires { IsValueOf table.now variable.now.id.0 (plain value.now) }
    ensures { OnOk result (text.new.items ≡ text.old.items ++ line_of_variable table.now component.now.name variable.now (plain value.now)) }
{
    let component = component.name.as_str();
    let name = variable.name.as_str();
    let front = format!(in alloc; "var {component} {name} ")?;
    let json = to_json(alloc, table, variable.id, value)?;
    push_octets(text, front.as_bytes())?;
    push_octets(text, json.as_slice())?;
    push_octets(text, "\n".as_bytes())
}

/// Puts a line `var COMPONENT VARIABLE JSON` for each variable of a component last, in document order.
pub fn add_variables(
    alloc: Global,
    text: &mut Vec<u8>,
    table: &TypeTable,
    component: &ComponentPlan,
    values: &[Value],
) -> Result<(), Memory>
    requires { HaveValues table.now component.now.variables (map plain values.now) }
    ensures { OnOk result (text.new.items ≡ text.old.items ++ texts_of (line_of_variable table.now component.now.name) component.now.variables (map plain values.now)) }
{
    let mut place: usize = 0;
    let mut rest = component.variables.as_slice();
    while let [variable, after @ ..] = rest {
        let Some(value) = value_at(values, place) else {
            return Ok(());
        };
        add_variable(alloc, text, table, component, variable, value)?;
        place += 1;
        rest = after;
    }
    Ok(())
}

// ---- transactions

// The name of a member of an end of a component.
fn awaited(component: &ComponentPlan, waiting: Outstanding) -> &str
    ensures { result.now ≡ name_in_end (slice_get component.now.ends waiting.face) waiting.member }
{
    match component.ends.get(waiting.face as usize) {
        Some(end) => member_name(end, waiting.member),
        None => "",
    }
}

// `wait END MEMBER NAME`.
fn wait_line(
    alloc: Global,
    component: &ComponentPlan,
    waiting: Outstanding,
) -> Result<String, AllocError>
    ensures { IfOk result (λ s. string_bytes s ≡ line_of_wait component.now waiting) }
{
    let end = end_text(
        alloc,
        component.name.as_str(),
        end_name(component, waiting.face),
    )?;
    let end = end.as_str();
    let member = awaited(component, waiting);
    let name = transaction_name(component, waiting.name);
    Ok(format!(in alloc; "wait {end} {member} {name}\n")?)
}

/// Puts a line `wait END MEMBER NAME` for each transaction under way of a component last, in the order in which they began.
pub fn add_waits(
    alloc: Global,
    text: &mut Vec<u8>,
    component: &ComponentPlan,
    outstanding: &[Outstanding],
) -> Result<(), Memory>
    ensures { OnOk result (text.new.items ≡ text.old.items ++ flat_map (line_of_wait component.now) outstanding.now) }
{
    for waiting in outstanding {
        let line = wait_line(alloc, component, *waiting)?;
        push_octets(text, line.as_bytes())?;
    }
    Ok(())
}

// ---- all

/// The lines of a component at the end of a run: `state` for each of its machines and `var` for each of its variables, in
/// document order, and then `wait` for each transaction under way, in the order in which they began.
pub fn print_state(
    alloc: Global,
    table: &TypeTable,
    plan: &Plan,
    comp: CompId,
    state: &CompState,
) -> Result<Octets, Memory>
    requires comp { comp.0 < length plan.now }
    requires values { HaveValues table.now (component_at plan.now comp.0).variables (map plain state.now.variables) }
    ensures { IfOk result (λ o. o ≡ state_text table.now (component_at plan.now comp.0) state.now.machines (map plain state.now.variables) state.now.outstanding) }
{
    let component = plan.component(comp);
    let mut text = Vec::new(alloc);
    add_machines(alloc, &mut text, component, &state.machines)?;
    let values = state.variables.as_slice();
    add_variables(alloc, &mut text, table, component, values)?;
    add_waits(alloc, &mut text, component, state.outstanding.as_slice())?;
    Ok(Octets::from_vec(text))
}
