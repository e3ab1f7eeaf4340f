//! The start of a component.

ghost use Rattle.std.specs.Prelude.{◌≡◌, ◌<◌, [], length, map, OnOk, IfOk};
ghost use Rattle.eds_types.specs.PackedSizes.{packs};
ghost use Rattle.eds_types.specs.Plain.{Plain, plain};
ghost use Rattle.eds_plan.specs.declared.component.VarPlan.{VarPlan};
ghost use Rattle.eds_plan.specs.Plans.{component_at};
ghost use Rattle.eds_plan.specs.Sends.{sent};
ghost use Rattle.eds_act.specs.Acting.{world_of};
ghost use Rattle.eds_plan.specs.Plans.{variable_types};
ghost use Rattle.eds_act.specs.Does.{AllConform};
ghost use Rattle.eds_machine.specs.Conditions.{MachinesFit, IsStateAt};
ghost use Rattle.eds_machine.specs.Reactions.{begins, first_values as first_values_of, starts};

use crate::reaction::{BUDGET, all_react};
use eds_base::{CompId, Items, Memory};
use eds_plan::{
    CompState, ComponentPlan, Machine, MachineState, Plan, Sends, Trigger, Values, VarPlan,
};
use eds_types::{TypeTable, Value};
use std::alloc::Global;

// The first values of variables.
fn first_values(alloc: Global, variables: &[VarPlan]) -> Result<Values, Memory>
    ensures { IfOk result (λ vs. map plain vs ≡ map (λ (x : VarPlan). plain x.initial) variables.now) }
{
    let mut values = Items::new(alloc);
    for variable in variables {
        let value = variable.initial.copy(alloc)?;
        values.push(value)?;
    }
    Ok(values)
}

// Where machines begin.
fn beginnings(alloc: Global, machines: &[Machine]) -> Result<Items<MachineState>, Memory>
    ensures { IfOk result (λ ms. ms ≡ map begins machines.now) }
{
    let mut states = Items::new(alloc);
    for machine in machines {
        states.push(MachineState {
            at: machine.entry,
            entered: 0,
            passed: 0,
        })?;
    }
    Ok(states)
}

// A component before it starts.
fn fresh(alloc: Global, component: &ComponentPlan) -> Result<CompState, Memory>
    ensures variables { IfOk result (λ s. map plain s.variables ≡ first_values_of component.now) }
    ensures machines { IfOk result (λ s. s.machines ≡ map begins component.now.machines) }
    ensures waiting { IfOk result (λ s. s.outstanding ≡ []) }
{
    let variables = first_values(alloc, component.variables.as_slice())?;
    let machines = beginnings(alloc, component.machines.as_slice())?;
    Ok(CompState {
        variables,
        machines,
        outstanding: Items::new(alloc),
    })
}

/// The state of a component before it starts: its variables have their first values, its machines are in their entry states
/// since time 0, and no transaction is under way.
pub fn fresh_state(alloc: Global, plan: &Plan, comp: CompId) -> Result<CompState, Memory>
    requires { comp.0 < length plan.now }
    ensures variables { IfOk result (λ s. map plain s.variables ≡ first_values_of (component_at plan.now comp.0)) }
    ensures machines { IfOk result (λ s. s.machines ≡ map begins (component_at plan.now comp.0).machines) }
    ensures waiting { IfOk result (λ s. s.outstanding ≡ []) }
{
    fresh(alloc, plan.component(comp))
}

// A component starts.
#[tactic(auto, using(crate::proofs::StartLaws::initial_conform, crate::proofs::StartLaws::begin_count))]
fn begin(
    alloc: Global,
    table: &TypeTable,
    comp: CompId,
    component: &ComponentPlan,
    out: &mut Sends,
) -> Result<CompState, Memory>
    requires fits { MachinesFit table.now component.now }
    ensures variables { IfOk result (λ s. AllConform table.now (variable_types component.now) (map plain s.variables)) }
    ensures world { IfOk result (λ s. world_of comp.0 s out.new ≡ (starts (packs table.now) table.now component.now comp.0 (map sent out.old)).world) }
    ensures machines { IfOk result (λ s. s.machines ≡ (starts (packs table.now) table.now component.now comp.0 (map sent out.old)).machines) }
{
    let mut state = fresh(alloc, component)?;
    let mut fuel = BUDGET;
    let none: &[Value] = &[];
    all_react(
        alloc,
        table,
        comp,
        component,
        0,
        Trigger::Start,
        none,
        &mut state,
        out,
        &mut fuel,
    )?;
    Ok(state)
}

/// A component starts: its state then. What is sent stands behind what `out` has.
pub fn start(
    alloc: Global,
    table: &TypeTable,
    plan: &Plan,
    comp: CompId,
    out: &mut Sends,
) -> Result<CompState, Memory>
    requires known { comp.0 < length plan.now }
    requires fits { MachinesFit table.now (component_at plan.now comp.0) }
    ensures world { IfOk result (λ s. world_of comp.0 s out.new ≡ (starts (packs table.now) table.now (component_at plan.now comp.0) comp.0 (map sent out.old)).world) }
    ensures machines { IfOk result (λ s. s.machines ≡ (starts (packs table.now) table.now (component_at plan.now comp.0) comp.0 (map sent out.old)).machines) }
    ensures keeps { IfOk result (λ s. IsStateAt table.now (component_at plan.now comp.0) 0 s) }
{
    begin(alloc, table, comp, plan.component(comp), out)
}
