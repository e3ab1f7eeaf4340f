//! The transition that a machine takes.

ghost use Rattle.std.specs.Prelude.{◌≡◌, map};
ghost use Rattle.std.specs.Option.{option_copied};
ghost use Rattle.eds_types.specs.Plain.{plain};
ghost use Rattle.eds_machine.specs.Places.{open_at as open_place, first_at};
ghost use Rattle.eds_machine.specs.Reactions.{passes as passes_of, is_open as open_of, taken as taken_of, at_entry as entry_of, at_exit as exit_of, trigger_of as trigger_by, standing as standing_of};

use crate::waiting::answers;
use eds_act::holds;
use eds_plan::{
    Action, CompState, ComponentPlan, Guard, Machine, MachineState, Op, Outstanding, Transition,
    Trigger,
};
use eds_types::{TypeTable, Value};

fn passes(
    table: &TypeTable,
    guard: &Option<Guard>,
    arguments: &[Value],
    variables: &[Value],
) -> bool
    ensures { result ≡ passes_of table.now (map plain arguments.now) (map plain variables.now) guard.now }
{
    guard
        .as_ref()
        .is_none_or(|guard| holds(guard, table, arguments, variables))
}

fn is_open(
    table: &TypeTable,
    component: &ComponentPlan,
    arguments: &[Value],
    variables: &[Value],
    waiting: &[Outstanding],
    transition: &Transition,
) -> bool
    ensures { result ≡ open_of table.now component.now (map plain arguments.now) (map plain variables.now) waiting.now transition.now }
{
    answers(component, waiting, transition.event, transition.transaction)
        && passes(table, &transition.guard, arguments, variables)
}

// The transition at a place, where it is open.
fn open_at<'a>(
    table: &TypeTable,
    component: &ComponentPlan,
    machine: &'a Machine,
    arguments: &[Value],
    variables: &[Value],
    waiting: &[Outstanding],
    place: u16,
) -> Option<&'a Transition>
    ensures { option_copied result ≡ open_place machine.now.transitions (open_of table.now component.now (map plain arguments.now) (map plain variables.now) waiting.now) place }
{
    let transition = machine.transitions.get(usize::from(place))?;
    if is_open(table, component, arguments, variables, waiting, transition) {
        Some(transition)
    } else {
        None
    }
}

// The first of some places whose transition is open.
#[tactic(auto, using(crate::proofs::Found::here_is, crate::proofs::Found::next_is))]
fn first_open<'a>(
    table: &TypeTable,
    component: &ComponentPlan,
    machine: &'a Machine,
    arguments: &[Value],
    variables: &[Value],
    waiting: &[Outstanding],
    places: &[u16],
) -> Option<&'a Transition>
    ensures { option_copied result ≡ first_at machine.now.transitions (open_of table.now component.now (map plain arguments.now) (map plain variables.now) waiting.now) places.now }
{
    let mut rest = places;
    while let [place, after @ ..] = rest {
        let found = open_at(
            table, component, machine, arguments, variables, waiting, *place,
        );
        if let Some(transition) = found {
            return Some(transition);
        }
        rest = after;
    }
    None
}

/// The first transition in document order that leaves the state on the trigger, whose transaction is under way and whose
/// guard is true.
pub(crate) fn taken<'a>(
    table: &TypeTable,
    component: &ComponentPlan,
    machine: &'a Machine,
    at: u16,
    trigger: Trigger,
    arguments: &[Value],
    variables: &[Value],
    waiting: &[Outstanding],
) -> Option<&'a Transition>
    ensures { option_copied result ≡ taken_of table.now component.now machine.now at trigger (map plain arguments.now) (map plain variables.now) waiting.now }
{
    let places = machine.transitions.matching(at, trigger);
    first_open(
        table, component, machine, arguments, variables, waiting, places,
    )
}

/// What is done where a state is entered.
pub(crate) fn at_entry(machine: &Machine, at: u16) -> Option<&Action>
    ensures { option_copied result ≡ entry_of machine.now at }
{
    let state = machine.states.get(usize::from(at))?;
    state.at_entry.as_ref()
}

/// What is done where a state is left.
pub(crate) fn at_exit(machine: &Machine, at: u16) -> Option<&Action>
    ensures { option_copied result ≡ exit_of machine.now at }
{
    let state = machine.states.get(usize::from(at))?;
    state.at_exit.as_ref()
}

/// The trigger that a primitive is.
pub(crate) fn trigger_of(op: Op, face: u16, member: u16) -> Trigger
    ensures { result ≡ trigger_by op face member }
{
    match op {
        Op::Command => Trigger::Command(face, member),
        Op::Get => Trigger::Param(face, member, Op::Get),
        Op::Set => Trigger::Param(face, member, Op::Set),
        Op::Val => Trigger::Param(face, member, Op::Val),
    }
}

/// Where a machine stands.
pub(crate) fn standing(state: &CompState, machine: u16) -> MachineState
    ensures { result ≡ standing_of state.now.machines machine }
{
    match state.machines.get(usize::from(machine)) {
        Some(standing) => *standing,
        None => MachineState {
            at: 0,
            entered: 0,
            passed: 0,
        },
    }
}
