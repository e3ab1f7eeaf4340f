//! The rules on state machines: what they name is there, what they do fits, they begin in one state, and timers are in range.

ghost use Rattle.std.specs.Prelude.{◌≡◌, [], IfOk};
ghost use Rattle.std.specs.List.{flat_map};
ghost use Rattle.std.specs.Option.{option_copied};
ghost use Rattle.eds_base.specs.Refusals.{least};
ghost use Rattle.eds_read_act.specs.Activities.{bad_references_in, mismatches_in};
ghost use Rattle.eds_read_act.specs.Machines.{state_actions as state_actions_in, guarded_and_done as guarded_and_done_in, transitions_of as transitions_in};
ghost use Rattle.eds_read_act.specs.MachineBreaks.{lacks_state as state_lacks, cannot_leave as leaving_fails, is_bad_transition as transition_is_bad, event_breaks, mismatches_unless, breaks_inside, inner_breaks, transition_breaks, action_breaks, state_breaks, lacks_entry as entry_lacks, state_breaks_of, transition_breaks_of, machine_breaks_at, machine_breaks};
ghost use Rattle.eds_read_act.specs.Scopes.{scope_of, with_known, with_arguments};
ghost use Rattle.eds_read_act.specs.Events.{carried_at};
ghost use Rattle.eds_read_act.specs.States.{TellsStates};

use crate::activity::{least_break_in, least_mismatch_in, least_reference_in};
use crate::bad_reference::broken_if;
use crate::event::{
    event_of, is_bad_timer, is_command, is_missing, lacks_operation_if, value_carried,
};
use crate::fields::Fields;
use crate::scope::Scope;
use crate::sending::received_by;
use crate::state::States;
use eds_base::{Items, Memory, Refusal, Rule};
use eds_tree::Tree;
use std::alloc::Global;

// ---- elements

fn guarded_and_done(alloc: Global, tree: &Tree, transition: u32) -> Result<Vec<u32>, Memory>
    ensures { IfOk result (λ v. v.items ≡ guarded_and_done_in tree.now transition) }
{
    let mut nodes = Vec::new(alloc);
    for child in tree.children_at(transition) {
        let name = tree.name_at(*child);
        if name == "Guard" || name == "Do" {
            nodes.push(*child)?;
        }
    }
    Ok(nodes)
}

fn state_actions(alloc: Global, tree: &Tree, state: u32) -> Result<Vec<u32>, Memory>
    ensures { IfOk result (λ v. v.items ≡ state_actions_in tree.now state) }
{
    let mut nodes = Vec::new(alloc);
    for child in tree.children_at(state) {
        let name = tree.name_at(*child);
        if name == "OnEntry" || name == "OnExit" {
            nodes.push(*child)?;
        }
    }
    Ok(nodes)
}

/// The transitions of a machine, in document order.
pub(crate) fn transitions_of(alloc: Global, tree: &Tree, machine: u32) -> Result<Vec<u32>, Memory>
    ensures { IfOk result (λ v. v.items ≡ transitions_in tree.now machine) }
{
    let mut nodes = Vec::new(alloc);
    for child in tree.children_at(machine) {
        if tree.name_at(*child) == "Transition" {
            nodes.push(*child)?;
        }
    }
    Ok(nodes)
}

// ---- over several elements

fn references_over(
    alloc: Global,
    file: u16,
    scope: &Scope,
    nodes: &[u32],
) -> Result<Option<Refusal>, Memory>
    ensures { IfOk result (λ r. r ≡ least (flat_map (bad_references_in file (scope_of scope.now)) nodes.now)) }
{
    let mut found = None;
    for node in nodes {
        let here = least_reference_in(alloc, file, scope, *node)?;
        found = Refusal::first(found, here);
    }
    Ok(found)
}

// Below an element that breaks BadReference nothing is judged.
fn mismatches_over(
    alloc: Global,
    above: bool,
    file: u16,
    scope: &Scope,
    nodes: &[u32],
) -> Result<Option<Refusal>, Memory>
    ensures { IfOk result (λ r. r ≡ least (mismatches_unless above file (scope_of scope.now) nodes.now)) }
{
    if above {
        return Ok(None);
    }
    let mut found = None;
    for node in nodes {
        let here = least_mismatch_in(alloc, file, scope, *node)?;
        found = Refusal::first(found, here);
    }
    Ok(found)
}

// ---- transitions

fn lacks_state(states: &States, tree: &Tree, transition: u32) -> bool
    requires { TellsStates tree.now states.now }
    ensures { result ≡ state_lacks tree.now states.now.machine transition }
{
    states.number(tree, transition, "fromState").is_none()
        || states.number(tree, transition, "toState").is_none()
}

fn cannot_leave(tree: &Tree, event: Option<u32>, state: Option<u32>) -> bool
    ensures { result ≡ leaving_fails tree.now event state }
{
    match state {
        None => false,
        Some(state) => {
            let name = tree.name_at(state);
            name == "ExitState" || (event.is_none() && name != "EntryState")
        }
    }
}

fn is_bad_transition(scope: &Scope, states: &States, transition: u32) -> bool
    requires { TellsStates scope.now.tree.now states.now }
    ensures { result ≡ transition_is_bad (scope_of scope.now) states.now.machine transition }
{
    let event = event_of(scope.tree, transition);
    let from = states.named(scope.tree, transition, "fromState");
    cannot_leave(scope.tree, event, from) || lacks_operation_if(scope, event)
}

fn event_break(file: u16, scope: &Scope, event: Option<u32>) -> Option<Refusal>
    ensures { result ≡ least (event_breaks file (scope_of scope.now) event) }
{
    let event = event?;
    let missing = broken_if(Rule::BadReference, file, event, is_missing(scope, event));
    let timer = broken_if(Rule::BadTimer, file, event, is_bad_timer(scope.tree, event));
    Refusal::first(missing, timer)
}

/// What is kept, lent.
pub(crate) fn lent(carried: &Option<Fields>) -> Option<&Fields>
    ensures { option_copied result ≡ carried.now }
{
    carried.as_ref()
}

// The least break in some elements of a transition, which see these arguments.
fn break_inside(
    alloc: Global,
    above: bool,
    file: u16,
    scope: &Scope,
    arguments: Option<&Fields>,
    nodes: &[u32],
) -> Result<Option<Refusal>, Memory>
    ensures { IfOk result (λ r. r ≡ least (breaks_inside above file (with_known (scope_of scope.now) (option_copied arguments.entry)) nodes.now)) }
{
    let inner = scope.with(arguments);
    let references = references_over(alloc, file, &inner, nodes)?;
    let mismatches = mismatches_over(alloc, above, file, &inner, nodes)?;
    Ok(Refusal::first(references, mismatches))
}

// The least break in some elements of a transition that waits for an event.
fn break_on(
    alloc: Global,
    above: bool,
    file: u16,
    scope: &Scope,
    event: u32,
    nodes: &[u32],
) -> Result<Option<Refusal>, Memory>
    ensures { IfOk result (λ r. r ≡ least (breaks_inside above file (with_known (scope_of scope.now) (carried_at (scope_of scope.now) event)) nodes.now)) }
{
    if is_command(scope.tree, event) {
        return break_inside(alloc, above, file, scope, received_by(scope, event), nodes);
    }
    let value = value_carried(alloc, scope, event)?;
    break_inside(alloc, above, file, scope, lent(&value), nodes)
}

// The least break in some elements of a transition that waits for the start.
fn break_at_start(
    alloc: Global,
    above: bool,
    file: u16,
    scope: &Scope,
    nodes: &[u32],
) -> Result<Option<Refusal>, Memory>
    ensures { IfOk result (λ r. r ≡ least (breaks_inside above file (with_arguments (scope_of scope.now) []) nodes.now)) }
{
    let none = Fields::of(alloc, Items::new(alloc))?;
    break_inside(alloc, above, file, scope, Some(&none), nodes)
}

// The least break in the guard and the action of a transition.
fn inner_break(
    alloc: Global,
    above: bool,
    file: u16,
    scope: &Scope,
    transition: u32,
) -> Result<Option<Refusal>, Memory>
    ensures { IfOk result (λ r. r ≡ least (inner_breaks above file (scope_of scope.now) transition)) }
{
    let nodes = guarded_and_done(alloc, scope.tree, transition)?;
    match event_of(scope.tree, transition) {
        None => break_at_start(alloc, above, file, scope, nodes.as_slice()),
        Some(event) => break_on(alloc, above, file, scope, event, nodes.as_slice()),
    }
}

fn transition_break(
    alloc: Global,
    file: u16,
    scope: &Scope,
    states: &States,
    transition: u32,
) -> Result<Option<Refusal>, Memory>
    requires { TellsStates scope.now.tree.now states.now }
    ensures { IfOk result (λ r. r ≡ least (transition_breaks file (scope_of scope.now) states.now.machine transition)) }
{
    let lacks = lacks_state(states, scope.tree, transition);
    let inner = inner_break(alloc, lacks, file, scope, transition)?;
    let missing = broken_if(Rule::BadReference, file, transition, lacks);
    let wrong = is_bad_transition(scope, states, transition);
    let bad = broken_if(Rule::BadMachine, file, transition, wrong);
    let own = Refusal::first(missing, bad);
    let event = event_break(file, scope, event_of(scope.tree, transition));
    let found = Refusal::first(own, event);
    Ok(Refusal::first(found, inner))
}

// ---- states

fn action_break(
    alloc: Global,
    file: u16,
    scope: &Scope,
    none: &Fields,
    node: u32,
) -> Result<Option<Refusal>, Memory>
    requires { none.now ≡ [] }
    ensures { IfOk result (λ r. r ≡ least (action_breaks file (scope_of scope.now) node)) }
{
    let inner = scope.with(Some(none));
    least_break_in(alloc, file, &inner, node)
}

fn actions_over(
    alloc: Global,
    file: u16,
    scope: &Scope,
    none: &Fields,
    nodes: &[u32],
) -> Result<Option<Refusal>, Memory>
    requires { none.now ≡ [] }
    ensures { IfOk result (λ r. r ≡ least (flat_map (action_breaks file (scope_of scope.now)) nodes.now)) }
{
    let mut found = None;
    for node in nodes {
        let here = action_break(alloc, file, scope, none, *node)?;
        found = Refusal::first(found, here);
    }
    Ok(found)
}

fn state_break(
    alloc: Global,
    file: u16,
    scope: &Scope,
    none: &Fields,
    state: u32,
) -> Result<Option<Refusal>, Memory>
    requires { none.now ≡ [] }
    ensures { IfOk result (λ r. r ≡ least (state_breaks file (scope_of scope.now) state)) }
{
    let actions = state_actions(alloc, scope.tree, state)?;
    actions_over(alloc, file, scope, none, actions.as_slice())
}

fn least_over_states(
    alloc: Global,
    file: u16,
    scope: &Scope,
    states: &[u32],
) -> Result<Option<Refusal>, Memory>
    ensures { IfOk result (λ r. r ≡ least (flat_map (state_breaks file (scope_of scope.now)) states.now)) }
{
    let none = Fields::of(alloc, Items::new(alloc))?;
    let mut found = None;
    for state in states {
        let here = state_break(alloc, file, scope, &none, *state)?;
        found = Refusal::first(found, here);
    }
    Ok(found)
}

// ---- machines

fn least_over_transitions(
    alloc: Global,
    file: u16,
    scope: &Scope,
    states: &States,
    transitions: &[u32],
) -> Result<Option<Refusal>, Memory>
    requires { TellsStates scope.now.tree.now states.now }
    ensures { IfOk result (λ r. r ≡ least (flat_map (transition_breaks file (scope_of scope.now) states.now.machine) transitions.now)) }
{
    let mut found = None;
    for transition in transitions {
        let here = transition_break(alloc, file, scope, states, *transition)?;
        found = Refusal::first(found, here);
    }
    Ok(found)
}

fn lacks_entry(alloc: Global, tree: &Tree, machine: u32) -> Result<bool, Memory>
    ensures { IfOk result (λ b. b ≡ entry_lacks tree.now machine) }
{
    let mut entries = Vec::new(alloc);
    for child in tree.children_at(machine) {
        if tree.name_at(*child) == "EntryState" {
            entries.push(*child)?;
        }
    }
    Ok(entries.len() != 1)
}

// The least break in the states of a machine, of which it begins in exactly one.
fn least_of_states(
    alloc: Global,
    file: u16,
    scope: &Scope,
    states: &States,
) -> Result<Option<Refusal>, Memory>
    requires { TellsStates scope.now.tree.now states.now }
    ensures { IfOk result (λ r. r ≡ least (state_breaks_of file (scope_of scope.now) states.now.machine)) }
{
    let lacks = lacks_entry(alloc, scope.tree, states.machine)?;
    let at_states = least_over_states(alloc, file, scope, states.nodes.as_slice())?;
    let entry = broken_if(Rule::BadMachine, file, states.machine, lacks);
    Ok(Refusal::first(entry, at_states))
}

// The least break in the transitions of a machine.
fn least_of_transitions(
    alloc: Global,
    file: u16,
    scope: &Scope,
    states: &States,
) -> Result<Option<Refusal>, Memory>
    requires { TellsStates scope.now.tree.now states.now }
    ensures { IfOk result (λ r. r ≡ least (transition_breaks_of file (scope_of scope.now) states.now.machine)) }
{
    let transitions = transitions_of(alloc, scope.tree, states.machine)?;
    least_over_transitions(alloc, file, scope, states, transitions.as_slice())
}

fn least_at(
    alloc: Global,
    file: u16,
    scope: &Scope,
    machine: u32,
) -> Result<Option<Refusal>, Memory>
    ensures { IfOk result (λ r. r ≡ least (machine_breaks_at file (scope_of scope.now) machine)) }
{
    let states = States::of(alloc, scope.tree, machine)?;
    let at_states = least_of_states(alloc, file, scope, &states)?;
    let at_transitions = least_of_transitions(alloc, file, scope, &states)?;
    Ok(Refusal::first(at_states, at_transitions))
}

/// The least break of BadReference, TypeMismatch, BadMachine and BadTimer in the state machines of a component, whose elements are
/// given.
pub fn least_machine_break(
    alloc: Global,
    file: u16,
    scope: &Scope,
    nodes: &[u32],
) -> Result<Option<Refusal>, Memory>
    ensures { IfOk result (λ r. r ≡ least (machine_breaks file (scope_of scope.now) nodes.now)) }
{
    let mut found = None;
    for machine in nodes {
        let here = least_at(alloc, file, scope, *machine)?;
        found = Refusal::first(found, here);
    }
    Ok(found)
}
