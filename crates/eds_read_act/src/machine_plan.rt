//! The state machines that elements stand for.

ghost use Rattle.std.specs.Prelude.{◌≡◌, [], codes, IfOk, map, option_map};
ghost use Rattle.std.specs.Option.{option_copied};
ghost use Rattle.eds_tree.specs.Trees.{name_at};
ghost use Rattle.eds_plan.specs.Statements.{condition};
ghost use Rattle.eds_names.specs.Positions.{place_among};
ghost use Rattle.eds_read_act.specs.Inside.{child_named as child_in};
ghost use Rattle.eds_read_act.specs.MachinePlans.{planned_transition, planned_machine, action_in as action_of, state_at as state_in, position as position_of, entry_number as entry_in, guard_at as guard_of, transition_in, transition_at as transition_of, machine_at as machine_in, machines_at};
ghost use Rattle.eds_read_act.specs.Scopes.{scope_of, with_known, with_arguments};
ghost use Rattle.eds_read_act.specs.Events.{carried_at};
ghost use Rattle.eds_read_act.specs.States.{TellsStates};

use crate::action::action_at;
use crate::condition::condition_under;
use crate::event::{event_of, is_command, transaction_if, trigger_if, value_carried};
use crate::fields::Fields;
use crate::inside::{child_named, text_at};
use crate::machine::{lent, transitions_of};
use crate::naming::short;
use crate::scope::Scope;
use crate::sending::received_by;
use crate::state::States;
use eds_base::{Items, Memory, Text};
use eds_plan::{Action, Guard, Machine, State, Transition, Transitions};
use eds_tree::Tree;
use std::alloc::Global;

/// The most transitions of a machine: no element has more children.
const TRANSITIONS: usize = 65536;

// What a child of a name does, which sees these arguments.
fn action_in(
    alloc: Global,
    scope: &Scope,
    arguments: Option<&Fields>,
    name: &str,
    node: u32,
) -> Result<Option<Action>, Memory>
    ensures { IfOk result (λ a. a ≡ action_of (with_known (scope_of scope.now) (option_copied arguments.entry)) name.now node) }
{
    let inner = scope.with(arguments);
    match child_named(scope.tree, node, name) {
        None => Ok(None),
        Some(child) => Ok(Some(action_at(alloc, &inner, child)?)),
    }
}

// ---- states

fn state_at(alloc: Global, scope: &Scope, none: &Fields, node: u32) -> Result<State, Memory>
    requires { none.now ≡ [] }
    ensures { IfOk result (λ s. s ≡ state_in (scope_of scope.now) node) }
{
    let name = Text::of(alloc, text_at(scope.tree, node, "name"))?;
    let at_entry = action_in(alloc, scope, Some(none), "OnEntry", node)?;
    let at_exit = action_in(alloc, scope, Some(none), "OnExit", node)?;
    Ok(State {
        name,
        at_entry,
        at_exit,
    })
}

fn read_states(alloc: Global, scope: &Scope, nodes: &[u32]) -> Result<Items<State>, Memory>
    ensures { IfOk result (λ ss. ss ≡ map (state_in (scope_of scope.now)) nodes.now) }
{
    let none = Fields::of(alloc, Items::new(alloc))?;
    let mut states = Items::new(alloc);
    for node in nodes {
        let state = state_at(alloc, scope, &none, *node)?;
        states.push(state)?;
    }
    Ok(states)
}

fn position(number: Option<usize>) -> u16
    ensures { result ≡ position_of number }
{
    short(number.unwrap_or(0))
}

fn first_entry(tree: &Tree, states: &[u32]) -> Option<usize>
    ensures { result ≡ place_among (map (name_at tree.now) states.now) (codes "EntryState") }
{
    for at in 0..states.len() {
        if tree.name_at(states[at]) == "EntryState" {
            return Some(at);
        }
    }
    None
}

// ---- transitions

// The condition under which a transition is taken, which sees these arguments.
fn guard_in(
    alloc: Global,
    scope: &Scope,
    arguments: Option<&Fields>,
    node: u32,
) -> Result<Option<Guard>, Memory>
    ensures { IfOk result (λ g. option_map condition g ≡ option_map (guard_of (with_known (scope_of scope.now) (option_copied arguments.entry))) (child_in scope.now.tree.now node (codes "Guard"))) }
{
    let inner = scope.with(arguments);
    match child_named(scope.tree, node, "Guard") {
        None => Ok(None),
        Some(guard) => Ok(Some(condition_under(alloc, &inner, Some(guard))?)),
    }
}

// The transition that an element is, whose guard and action see these arguments.
fn transition_with(
    alloc: Global,
    scope: &Scope,
    states: &States,
    arguments: Option<&Fields>,
    node: u32,
) -> Result<Transition, Memory>
    requires { TellsStates scope.now.tree.now states.now }
    ensures { IfOk result (λ x. planned_transition x ≡ transition_in (scope_of scope.now) (with_known (scope_of scope.now) (option_copied arguments.entry)) states.now.machine node) }
{
    let event = event_of(scope.tree, node);
    let action = action_in(alloc, scope, arguments, "Do", node)?;
    let guard = guard_in(alloc, scope, arguments, node)?;
    Ok(Transition {
        from: position(states.number(scope.tree, node, "fromState")),
        to: position(states.number(scope.tree, node, "toState")),
        event: trigger_if(scope, event),
        transaction: transaction_if(scope, event),
        guard,
        action,
    })
}

// The transition that an element is, which waits for an event.
fn transition_on(
    alloc: Global,
    scope: &Scope,
    states: &States,
    event: u32,
    node: u32,
) -> Result<Transition, Memory>
    requires { TellsStates scope.now.tree.now states.now }
    ensures { IfOk result (λ x. planned_transition x ≡ transition_in (scope_of scope.now) (with_known (scope_of scope.now) (carried_at (scope_of scope.now) event)) states.now.machine node) }
{
    if is_command(scope.tree, event) {
        return transition_with(alloc, scope, states, received_by(scope, event), node);
    }
    let value = value_carried(alloc, scope, event)?;
    transition_with(alloc, scope, states, lent(&value), node)
}

// The transition that an element is, which waits for the start.
fn transition_at_start(
    alloc: Global,
    scope: &Scope,
    states: &States,
    node: u32,
) -> Result<Transition, Memory>
    requires { TellsStates scope.now.tree.now states.now }
    ensures { IfOk result (λ x. planned_transition x ≡ transition_in (scope_of scope.now) (with_arguments (scope_of scope.now) []) states.now.machine node) }
{
    let none = Fields::of(alloc, Items::new(alloc))?;
    transition_with(alloc, scope, states, Some(&none), node)
}

fn transition_at(
    alloc: Global,
    scope: &Scope,
    states: &States,
    node: u32,
) -> Result<Transition, Memory>
    requires { TellsStates scope.now.tree.now states.now }
    ensures { IfOk result (λ x. planned_transition x ≡ transition_of (scope_of scope.now) states.now.machine node) }
{
    match event_of(scope.tree, node) {
        None => transition_at_start(alloc, scope, states, node),
        Some(event) => transition_on(alloc, scope, states, event, node),
    }
}

fn read_transitions(
    alloc: Global,
    scope: &Scope,
    states: &States,
    nodes: &[u32],
) -> Result<Transitions, Memory>
    requires { TellsStates scope.now.tree.now states.now }
    ensures { IfOk result (λ xs. map planned_transition xs ≡ map (transition_of (scope_of scope.now) states.now.machine) nodes.now) }
{
    if nodes.len() > TRANSITIONS {
        return Err(Memory);
    }
    let mut transitions = Items::new(alloc);
    for node in nodes {
        let transition = transition_at(alloc, scope, states, *node)?;
        transitions.push(transition)?;
    }
    Transitions::of(alloc, transitions)
}

// ---- machines

fn machine_at(alloc: Global, scope: &Scope, node: u32) -> Result<Machine, Memory>
    ensures { IfOk result (λ m. planned_machine m ≡ machine_in (scope_of scope.now) node) }
{
    let places = States::of(alloc, scope.tree, node)?;
    let name = Text::of(alloc, text_at(scope.tree, node, "name"))?;
    let states = read_states(alloc, scope, places.nodes.as_slice())?;
    let entry = position(first_entry(scope.tree, places.nodes.as_slice()));
    let nodes = transitions_of(alloc, scope.tree, node)?;
    let transitions = read_transitions(alloc, scope, &places, nodes.as_slice())?;
    Ok(Machine {
        name,
        states,
        entry,
        transitions,
    })
}

/// The state machines that elements stand for.
pub fn read_machines(alloc: Global, scope: &Scope, nodes: &[u32]) -> Result<Items<Machine>, Memory>
    ensures { IfOk result (λ ms. map planned_machine ms ≡ machines_at (scope_of scope.now) nodes.now) }
{
    let mut machines = Items::new(alloc);
    for node in nodes {
        let machine = machine_at(alloc, scope, *node)?;
        machines.push(machine)?;
    }
    Ok(machines)
}
