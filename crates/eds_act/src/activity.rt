//! Activities, run.

ghost use Rattle.std.specs.Prelude.{◌≡◌, ◌≤◌, ◌<◌, map, length, IfOk};
ghost use Rattle.eds_types.specs.Plain.{plain};
ghost use Rattle.eds_plan.specs.Plans.{component_at, activity_at};
ghost use Rattle.eds_plan.specs.Sends.{sent};
ghost use Rattle.eds_plan.specs.Plans.{variable_types};
ghost use Rattle.eds_act.specs.Does.{AllConform, budget};
ghost use Rattle.eds_act.specs.Running.{Fits, HasConforming, Runs};

use crate::ActEnd;
use crate::event::Event;
use crate::run::{frame_of, run_frames};
use eds_base::{CompId, Items, Memory};
use eds_plan::{Activity, CompState, ComponentPlan, Plan, Sends, Values};
use eds_types::{TypeTable, Value, copy_all, law};
use std::alloc::Global;
use std::mem;

// The component of a number.
fn component_of(plan: &Plan, comp: CompId) -> &ComponentPlan
    requires { comp.0 < length plan.now }
    ensures { result.now ≡ component_at plan.now comp.0 }
{
    &plan.as_slice()[comp.0 as usize]
}

// The activity of a number.
fn activity_of(component: &ComponentPlan, activity: u16) -> &Activity
    requires { activity < length component.now.activities }
    ensures { result.now ≡ activity_at component.now activity }
{
    &component.activities.as_slice()[activity as usize]
}

// Runs the body of an activity.
fn run_body(
    alloc: Global,
    table: &TypeTable,
    component: &ComponentPlan,
    activity: &Activity,
    arguments: &[Value],
    event: &mut Event,
) -> Result<ActEnd, Memory>
    requires fits { Fits table.now component.now }
    requires left { event.old.left ≤ budget }
    requires conform { HasConforming table.now component.now event.old }
    ensures conform { HasConforming table.now component.now event.new }
    ensures left { event.new.left ≤ event.old.left }
    ensures comp { event.new.comp ≡ event.old.comp }
    ensures does { IfOk result (λ e. Runs table.now event.old.comp.0 component.now activity.now (map plain arguments.now) (map plain event.old.variables.items) event.old.waiting (map sent event.old.out) event.old.left (map plain event.new.variables.items) event.new.waiting (map sent event.new.out) event.new.left e) }
{
    table.keeps_rules();
    law::packing_is_decided();
    let arguments = copy_all(alloc, arguments)?;
    let frame = frame_of(alloc, arguments, activity)?;
    run_frames(alloc, table, component, frame, event)
}

/// Runs an activity of a component. `fuel` is the number of statements and turns that may still start in this event.
pub fn run_activity(
    alloc: Global,
    table: &TypeTable,
    plan: &Plan,
    comp: CompId,
    activity: u16,
    arguments: &Values,
    state: &mut CompState,
    out: &mut Sends,
    fuel: &mut u32,
) -> Result<ActEnd, Memory>
    requires known { comp.0 < length plan.now }
    requires there { activity < length (component_at plan.now comp.0).activities }
    requires fits { Fits table.now (component_at plan.now comp.0) }
    requires fuel { fuel.old ≤ budget }
    requires variables { AllConform table.now (variable_types (component_at plan.now comp.0)) (map plain state.old.variables) }
    ensures variables { AllConform table.now (variable_types (component_at plan.now comp.0)) (map plain state.new.variables) }
    ensures machines { state.new.machines ≡ state.old.machines }
    ensures fuel { fuel.new ≤ fuel.old }
    ensures does { IfOk result (λ e. Runs table.now comp.0 (component_at plan.now comp.0) (activity_at (component_at plan.now comp.0) activity) (map plain arguments.now) (map plain state.old.variables) state.old.outstanding (map sent out.old) fuel.old (map plain state.new.variables) state.new.outstanding (map sent out.new) fuel.new e) }
{
    let component = component_of(plan, comp);
    let activity = activity_of(component, activity);
    let mut event = Event {
        comp,
        variables: mem::replace(&mut state.variables, Items::new(alloc)).into_vec(),
        waiting: mem::replace(&mut state.outstanding, Items::new(alloc)),
        out: mem::replace(out, Items::new(alloc)),
        left: *fuel,
        numbers: Vec::new(alloc),
    };
    let arguments = arguments.as_slice();
    let end = run_body(alloc, table, component, activity, arguments, &mut event);
    let Event {
        comp: _,
        variables,
        waiting,
        out: sent,
        left,
        numbers: _,
    } = event;
    state.variables = Items::from_vec(variables);
    state.outstanding = waiting;
    *out = sent;
    *fuel = left;
    end
}
