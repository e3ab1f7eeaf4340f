//! State machines.

ghost use Rattle.std.specs.Prelude.{◌≡◌, length, IfOk, option_map};
ghost use Rattle.std.specs.Option.{option_copied};
ghost use Rattle.eds_fits.specs.Deciding.{action_fits as action_fits_in, guard_fits as guard_fits_in, state_fits as state_fits_in, states_fit as states_fit_in, inner_fits as inner_fits_in, transition_fits as transition_fits_in, transitions_fit as transitions_fit_in, machine_fits as machine_fits_in, machines_fit as machines_fit_in};

use crate::condition::condition_fits;
use crate::event::brought;
use crate::operand::Scope;
use crate::statement::{called_fits, is_numbered};
use eds_base::{Memory, TypeId};
use eds_plan::{Action, ComponentPlan, Guard, Machine, State, Transition};
use eds_types::TypeTable;
use std::alloc::Global;

/// A component, with the table of its types.
#[derive(Clone, Copy)]
pub(crate) struct Whole<'a> {
    pub(crate) table: &'a TypeTable,
    pub(crate) component: &'a ComponentPlan,
}

fn action_fits(whole: &Whole, arguments: &[TypeId], action: &Option<Action>) -> bool
    ensures { result ≡ action_fits_in whole.now.table.now whole.now.component.now arguments.now action.now }
{
    match action {
        None => true,
        Some(action) => {
            let scope = Scope {
                table: whole.table,
                component: whole.component,
                arguments,
            };
            let called = whole.component.activities.get(action.activity as usize);
            called_fits(&scope, called, action.operands.as_slice())
        }
    }
}

fn guard_fits(whole: &Whole, arguments: &[TypeId], guard: &Option<Guard>) -> bool
    ensures { result ≡ guard_fits_in whole.now.table.now whole.now.component.now arguments.now guard.now }
{
    match guard {
        None => true,
        Some(guard) => {
            let scope = Scope {
                table: whole.table,
                component: whole.component,
                arguments,
            };
            condition_fits(guard, &scope)
        }
    }
}

fn state_fits(whole: &Whole, state: &State) -> bool
    ensures { result ≡ state_fits_in whole.now.table.now whole.now.component.now state.now }
{
    action_fits(whole, &[], &state.at_entry) && action_fits(whole, &[], &state.at_exit)
}

fn states_fit(whole: &Whole, states: &[State]) -> bool
    ensures { result ≡ states_fit_in whole.now.table.now whole.now.component.now states.now }
{
    for state in states {
        if !state_fits(whole, state) {
            return false;
        }
    }
    true
}

fn inner_fits(whole: &Whole, brought: &Option<Vec<TypeId>>, transition: &Transition) -> bool
    ensures { result ≡ inner_fits_in whole.now.table.now whole.now.component.now (option_map (λ v. v.items) brought.now) transition.now }
{
    match brought {
        None => false,
        Some(ids) => {
            guard_fits(whole, ids.as_slice(), &transition.guard)
                && action_fits(whole, ids.as_slice(), &transition.action)
        }
    }
}

fn transition_fits(
    alloc: Global,
    whole: &Whole,
    states: usize,
    transition: &Transition,
) -> Result<bool, Memory>
    ensures { IfOk result (λ b. b ≡ transition_fits_in whole.now.table.now whole.now.component.now states transition.now) }
{
    let brought = brought(alloc, whole.component.ends.as_slice(), transition.event)?;
    let states_are_there = (transition.from as usize) < states && (transition.to as usize) < states;
    let is_numbered = is_numbered(whole.component.transactions.len(), transition.transaction);
    Ok(states_are_there && (is_numbered && inner_fits(whole, &brought, transition)))
}

fn transitions_fit(
    alloc: Global,
    whole: &Whole,
    states: usize,
    transitions: &[Transition],
) -> Result<bool, Memory>
    ensures { IfOk result (λ b. b ≡ transitions_fit_in whole.now.table.now whole.now.component.now states transitions.now) }
{
    for transition in transitions {
        if !transition_fits(alloc, whole, states, transition)? {
            return Ok(false);
        }
    }
    Ok(true)
}

fn machine_fits(alloc: Global, whole: &Whole, machine: &Machine) -> Result<bool, Memory>
    ensures { IfOk result (λ b. b ≡ machine_fits_in whole.now.table.now whole.now.component.now machine.now) }
{
    let states = machine.states.len();
    let transitions = transitions_fit(alloc, whole, states, machine.transitions.as_slice())?;
    let begins = (machine.entry as usize) < states;
    Ok(begins && (states_fit(whole, machine.states.as_slice()) && transitions))
}

/// Whether some machines fit.
pub(crate) fn machines_fit(
    alloc: Global,
    whole: &Whole,
    machines: &[Machine],
) -> Result<bool, Memory>
    ensures { IfOk result (λ b. b ≡ machines_fit_in whole.now.table.now whole.now.component.now machines.now) }
{
    for machine in machines {
        if !machine_fits(alloc, whole, machine)? {
            return Ok(false);
        }
    }
    Ok(true)
}
