//! What the names in a snapshot tell.

ghost use Rattle.std.specs.Prelude.{◌≡◌, ℕ, ◌<◌, List, IfSome, Some, length, option_map, slice_get};
ghost use Rattle.std.specs.HashMap.{get_by_text};
ghost use Rattle.eds_plan.specs.Ends.{end_named};
ghost use Rattle.eds_plan.specs.Plans.{component_at};
ghost use Rattle.eds_snap.specs.Seen.{machine_seen, variable_seen, wait_seen};
ghost use Rattle.eds_plan.specs.Names.{name_of_member};
ghost use Rattle.eds_snap.specs.Places.{component_named as component_of_name, machine_named as machine_of_name, machine_place as machine_of_names, member_named as member_of_name, state_named as state_of_name, transaction_named as transaction_of_name, variable_named as variable_of_name, variable_place as variable_of_names, wait_place as wait_of_names};

use eds_plan::{ComponentPlan, EndIndex, EndPlan, Machine, Plan, VarPlan, find_end};
use eds_script::name_of_member;

// ---- what stands at a place

/// The component at a place.
pub(crate) fn component_in(plan: &Plan, comp: usize) -> &ComponentPlan
    requires { comp < length plan.now }
    ensures { result.now ≡ component_at plan.now comp }
{
    &plan.as_slice()[comp]
}

/// The variable at a place.
pub(crate) fn variable_in(component: &ComponentPlan, place: usize) -> &VarPlan
    requires { place < length component.now.variables }
    ensures { slice_get component.now.variables place ≡ Some result.now }
{
    &component.variables.as_slice()[place]
}

// ---- places by names

fn component_named(plan: &Plan, name: &str) -> Option<usize>
    ensures place { result ≡ component_of_name plan.now name.now }
    ensures there { IfSome result (λ i. i < length plan.now) }
{
    plan.as_slice()
        .iter()
        .position(|component| component.name.as_str() == name)
}

fn machine_named(component: &ComponentPlan, name: &str) -> Option<usize>
    ensures place { result ≡ machine_of_name component.now name.now }
    ensures there { IfSome result (λ i. i < length component.now.machines) }
{
    component
        .machines
        .as_slice()
        .iter()
        .position(|machine| machine.name.as_str() == name)
}

fn state_named(machine: &Machine, name: &str) -> Option<usize>
    ensures { result ≡ state_of_name machine.now name.now }
{
    machine
        .states
        .as_slice()
        .iter()
        .position(|state| state.name.as_str() == name)
}

fn variable_named(component: &ComponentPlan, name: &str) -> Option<usize>
    ensures place { result ≡ variable_of_name component.now name.now }
    ensures there { IfSome result (λ i. i < length component.now.variables) }
{
    component
        .variables
        .as_slice()
        .iter()
        .position(|variable| variable.name.as_str() == name)
}

fn member_named(end: &EndPlan, name: &str) -> Option<usize>
    ensures { result ≡ member_of_name end.now name.now }
{
    end.instance
        .members
        .as_slice()
        .iter()
        .position(|member| name_of_member(member) == name)
}

fn transaction_named(component: &ComponentPlan, name: &str) -> Option<usize>
    ensures { result ≡ transaction_of_name component.now name.now }
{
    component
        .transactions
        .as_slice()
        .iter()
        .position(|own| own.as_str() == name)
}

// ---- what names tell

/// A machine of a component, and one of its states.
#[derive(Clone, Copy)]
pub(crate) struct MachinePlace {
    pub(crate) comp: usize,
    pub(crate) machine: usize,
    pub(crate) at: usize,
}

/// A variable of a component.
#[derive(Clone, Copy)]
pub(crate) struct VariablePlace {
    pub(crate) comp: usize,
    pub(crate) variable: usize,
}

/// A transaction of a component.
#[derive(Clone, Copy)]
pub(crate) struct WaitPlace {
    pub(crate) comp: usize,
    pub(crate) face: u16,
    pub(crate) member: usize,
    pub(crate) name: usize,
}

/// The machine and state that names tell.
pub(crate) fn machine_place(
    plan: &Plan,
    component: &str,
    machine: &str,
    state: &str,
) -> Option<MachinePlace>
    ensures place { option_map machine_seen result ≡ machine_of_names plan.now component.now machine.now state.now }
    ensures comp { IfSome result (λ p. p.comp < length plan.now) }
    ensures machine { IfSome result (λ p. p.machine < length (component_at plan.now p.comp).machines) }
{
    let comp = component_named(plan, component)?;
    let own = &plan.as_slice()[comp];
    let place = machine_named(own, machine)?;
    let at = state_named(&own.machines.as_slice()[place], state)?;
    Some(MachinePlace {
        comp,
        machine: place,
        at,
    })
}

/// The variable that names tell.
pub(crate) fn variable_place(plan: &Plan, component: &str, variable: &str) -> Option<VariablePlace>
    ensures place { option_map variable_seen result ≡ variable_of_names plan.now component.now variable.now }
    ensures comp { IfSome result (λ p. p.comp < length plan.now) }
    ensures variable { IfSome result (λ p. p.variable < length (component_at plan.now p.comp).variables) }
{
    let comp = component_named(plan, component)?;
    let variable = variable_named(&plan.as_slice()[comp], variable)?;
    Some(VariablePlace { comp, variable })
}

/// The transaction that the text of an end and names tell.
pub(crate) fn wait_place(
    index: &EndIndex,
    plan: &Plan,
    end: &str,
    member: &str,
    name: &str,
) -> Option<WaitPlace>
    requires { (q : List ℕ) → get_by_text index.now q ≡ end_named plan.now q }
    ensures { option_map wait_seen result ≡ wait_of_names plan.now end.now member.now name.now }
{
    let (end, own) = find_end(index, plan, end)?;
    let member = member_named(own, member)?;
    let component = plan.get(end.comp.0 as usize)?;
    let name = transaction_named(component, name)?;
    Some(WaitPlace {
        comp: end.comp.0 as usize,
        face: end.face,
        member,
        name,
    })
}
