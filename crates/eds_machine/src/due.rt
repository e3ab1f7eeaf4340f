//! The moments to come of machines.

ghost use Rattle.std.specs.Prelude.{◌≡◌, ◌≤◌, ◌<◌, ◌^◌, ℕ, length, Some, None, IfSome};
ghost use Rattle.std.specs.List.{AllByRecursion};
ghost use Rattle.eds_plan.specs.declared.machine.Transition.{Transition as transition_plan};
ghost use Rattle.eds_plan.specs.declared.machine.Trigger.TheVariants as trigger;
ghost use Rattle.eds_plan.specs.declared.run.MachineState.{MachineState as machine_state};
ghost use Rattle.eds_plan.specs.Plans.{component_at};
ghost use Rattle.eds_machine.specs.Moments.{moment_by, sooner as sooner_of, next_moment as next_moment_of, first_due as first_due_of, with_number as with_number_of, due_from, IsNear, HasTimers, HasMoment, IsNextDue};

use eds_base::CompId;
use eds_plan::{CompState, ComponentPlan, MachineState, Plan, Transitions};

fn moment(standing: MachineState, nanoseconds: u64) -> Option<u64>
    requires near { nanoseconds ≤ 10 ^ 18 }
    requires early { standing.entered < 2 ^ 63 }
    ensures { result ≡ moment_by (trigger.Timer nanoseconds) standing }
{
    let at = standing.entered + nanoseconds;
    if standing.passed < at { Some(at) } else { None }
}

fn sooner(a: Option<u64>, b: Option<u64>) -> Option<u64>
    ensures { result ≡ sooner_of a b }
{
    match (a, b) {
        (None, _) => b,
        (Some(_), None) => a,
        (Some(x), Some(y)) => if y < x { b } else { a },
    }
}

/// The least moment to come of a machine that stands so, in nanoseconds; None exactly where no timer of its state is to come.
#[tactic(auto, using(crate::proofs::MomentLaws::sooner_assoc, crate::proofs::MomentLaws::sooner_none))]
pub fn next_moment(standing: MachineState, transitions: &Transitions) -> Option<u64>
    requires near { AllByRecursion (λ (x : transition_plan). IsNear x.event) transitions.now }
    requires early { standing.entered < 2 ^ 63 }
    ensures { result ≡ next_moment_of standing transitions.now }
{
    let mut least = None;
    let timers = transitions.timers(standing.at);
    for nanoseconds in timers {
        least = sooner(least, moment(standing, *nanoseconds));
    }
    least
}

fn first_due(a: Option<(u64, u16)>, b: Option<(u64, u16)>) -> Option<(u64, u16)>
    ensures { result ≡ first_due_of a b }
{
    match (a, b) {
        (None, _) => b,
        (Some(_), None) => a,
        (Some(x), Some(y)) => if y.0 < x.0 { b } else { a },
    }
}

fn with_number(i: u16, at: Option<u64>) -> Option<(u64, u16)>
    ensures { result ≡ with_number_of i at }
{
    Some((at?, i))
}

// The least moment to come of these machines, and the first that has it.
#[tactic(auto, using(crate::proofs::MomentLaws::first_due_assoc, crate::proofs::MomentLaws::first_due_none))]
fn least_due(component: &ComponentPlan, state: &CompState) -> Option<(u64, u16)>
    requires count { length state.now.machines ≡ length component.now.machines }
    requires early { AllByRecursion (λ (m : machine_state). m.entered < 2 ^ 63) state.now.machines }
    requires timers { AllByRecursion HasTimers component.now.machines }
    requires few { length component.now.machines ≤ 65535 }
    ensures { result ≡ due_from 0 component.now.machines state.now.machines }
{
    let mut due = None;
    let records = state.machines.as_slice();
    for (i, machine) in component.machines.as_slice().iter().enumerate() {
        let next = next_moment(records[i], &machine.transitions);
        due = first_due(due, with_number(i as u16, next));
    }
    due
}

/// The least moment to come of a component's machines, in nanoseconds, and the first machine that has it; None exactly where
/// no timer is to come.
#[tactic(auto, using(crate::proofs::DueLaws::next_is_due, crate::proofs::DueLaws::none_is_due))]
pub fn next_due(plan: &Plan, comp: CompId, state: &CompState) -> Option<(u64, u16)>
    requires known { comp.0 < length plan.now }
    requires count { length state.now.machines ≡ length (component_at plan.now comp.0).machines }
    requires early { AllByRecursion (λ (m : machine_state). m.entered < 2 ^ 63) state.now.machines }
    requires timers { AllByRecursion HasTimers (component_at plan.now comp.0).machines }
    requires few { length (component_at plan.now comp.0).machines ≤ 65535 }
    ensures due { result ≡ due_from 0 (component_at plan.now comp.0).machines state.now.machines }
    ensures least { IfSome result (IsNextDue (component_at plan.now comp.0).machines state.now.machines) }
    ensures none { result ≡ None → (i t : ℕ) → HasMoment (component_at plan.now comp.0).machines state.now.machines i t → ⊥ }
{
    least_due(plan.component(comp), state)
}
