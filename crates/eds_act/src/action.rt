//! Actions of transitions and states.

ghost use Rattle.std.specs.Prelude.{◌≡◌, ◌≤◌, ◌++◌, [], ◌∷◌, ℕ, Bool, map, IfOk, OnOk};
ghost use Rattle.eds_types.specs.PackedSizes.{packs};
ghost use Rattle.eds_types.specs.Plain.{Plain, plain};
ghost use Rattle.eds_act.specs.Acting.{noted, acting, world_of};
ghost use Rattle.eds_plan.specs.Plans.{variable_types};
ghost use Rattle.eds_act.specs.Does.{Tells, AllConform};
ghost use Rattle.eds_act.specs.Running.{world, Fits, HasConforming};

use crate::ActEnd;
use crate::arguments::{argument_types, arguments_of};
use crate::event::Event;
use crate::run::{frame_of, run_frames};
use eds_base::{CompId, Items, Memory};
use eds_plan::{Action, Activity, CompState, ComponentPlan, Halt, Send, Sends};
use eds_types::packs::packed_sizes;
use eds_types::{TypeTable, Value};
use std::alloc::Global;
use std::mem;

// Notes that an activity of a machine halted.
fn note(event: &mut Event, machine: u16, halt: Halt) -> Result<(), Memory>
    ensures noted { OnOk result (world event.new ≡ noted machine halt (world event.old)) }
    ensures variables { event.new.variables ≡ event.old.variables }
    ensures comp { event.new.comp ≡ event.old.comp }
    ensures left { event.new.left ≡ event.old.left }
{
    event.out.push(Send::Halted(machine, halt))?;
    Ok(())
}

// Does an action of a machine, where its operands see these arguments.
fn act(
    alloc: Global,
    table: &TypeTable,
    comp: &ComponentPlan,
    machine: u16,
    action: &Action,
    arguments: &[Value],
    event: &mut Event,
) -> Result<(), Memory>
    requires fits { Fits table.now comp.now }
    requires conform { HasConforming table.now comp.now event.old }
    ensures conform { HasConforming table.now comp.now event.new }
    ensures comp { event.new.comp ≡ event.old.comp }
    ensures left { event.new.left ≤ event.old.left }
    ensures acts { OnOk result ((packs : ℕ → Plain → Bool) → Tells table.now packs → (event.new.left, world event.new) ≡ acting packs table.now comp.now machine action.now (map plain arguments.now) event.old.left (world event.old)) }
{
    match comp.activities.get(action.activity as usize) {
        None => note(event, machine, Halt::BadArgument),
        Some(activity) => {
            let types = argument_types(alloc, activity)?;
            let values = arguments_of(
                alloc,
                table,
                types.as_slice(),
                arguments,
                event.variables.as_slice(),
                action.operands.as_slice(),
            )?;
            match values {
                None => note(event, machine, Halt::BadArgument),
                Some(values) => {
                    let frame = frame_of(alloc, values, activity)?;
                    match run_frames(alloc, table, comp, frame, event)? {
                        ActEnd::Done => Ok(()),
                        ActEnd::Halted(halt) => note(event, machine, halt),
                    }
                }
            }
        }
    }
}

/// Does an action of a transition or state of a machine: runs its activity with its operands, which see these arguments of
/// the event. A halt stands behind what was sent, with the machine; so does BadArgument where an operand doesn't pack as
/// the activity's argument, and then nothing starts. `fuel` is the number of statements and turns that may still start in
/// this event.
pub fn run_action(
    alloc: Global,
    table: &TypeTable,
    comp: CompId,
    component: &ComponentPlan,
    machine: u16,
    action: &Action,
    arguments: &[Value],
    state: &mut CompState,
    out: &mut Sends,
    fuel: &mut u32,
) -> Result<(), Memory>
    requires fits { Fits table.now component.now }
    requires variables { AllConform table.now (variable_types component.now) (map plain state.old.variables) }
    ensures variables { AllConform table.now (variable_types component.now) (map plain state.new.variables) }
    ensures machines { state.new.machines ≡ state.old.machines }
    ensures fuel { fuel.new ≤ fuel.old }
    ensures left { OnOk result (fuel.new ≡ (acting (packs table.now) table.now component.now machine action.now (map plain arguments.now) fuel.old (world_of comp.0 state.old out.old)).0) }
    ensures world { OnOk result (world_of comp.0 state.new out.new ≡ (acting (packs table.now) table.now component.now machine action.now (map plain arguments.now) fuel.old (world_of comp.0 state.old out.old)).1) }
{
    table.keeps_rules();
    packed_sizes();
    let mut event = Event {
        comp,
        variables: mem::replace(&mut state.variables, Items::new(alloc)).into_vec(),
        waiting: mem::replace(&mut state.outstanding, Items::new(alloc)),
        out: mem::replace(out, Items::new(alloc)),
        left: *fuel,
        numbers: Vec::new(alloc),
    };
    let done = act(
        alloc, table, component, machine, action, arguments, &mut event,
    );
    let Event {
        comp: _,
        variables,
        waiting,
        out: sent,
        left,
        numbers: _,
    } = event;
    state.variables = Items::from_vec(variables);
    state.outstanding = waiting;
    *out = sent;
    *fuel = left;
    done
}
