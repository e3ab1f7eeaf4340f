//! The events that transitions wait for.

ghost use Rattle.std.specs.Prelude.{◌≡◌, IfOk, codes, is_none, option_map};
ghost use Rattle.eds_tree.specs.Trees.{is_named};
ghost use Rattle.eds_plan.specs.Carried.{arriving};
ghost use Rattle.eds_read_act.specs.Machines.{is_event as event_is, event_of as event_in};
ghost use Rattle.eds_read_act.specs.Events.{carries_value as value_is_carried, sets_read_only as read_only_is_set, value_of as value_in, value_if as value_in_if, value_carried as value_carried_in, carried_at as carried_in, is_provided as end_is_provided, lacks_operation as operation_lacks, lacks_operation_if as operation_lacks_if, nanoseconds as nanoseconds_of, nanoseconds_at as nanoseconds_in, is_bad_timer as timer_is_bad, op_arriving as op_that_arrives, command_trigger as trigger_of_command, parameter_trigger as trigger_of_parameter, trigger_at as trigger_in, trigger_if as trigger_in_if, transaction_if as transaction_in_if};
ghost use Rattle.eds_read_act.specs.Scopes.{scope_of};
ghost use Rattle.eds_read_act.specs.Sending.{command_at_end, command_of};

use crate::fields::Fields;
use crate::inside::text_at;
use crate::naming::short;
use crate::scope::Scope;
use crate::sending::{Held, command_among, end_of, has_command, parameter_of};
use crate::statement::transaction_at;
use eds_base::{Items, Memory, Text, whole_number};
use eds_plan::{EndPlan, Op, Trigger};
use eds_tree::Tree;
use std::alloc::Global;

/// The most nanoseconds of a timer.
const LONGEST: i128 = 1000000000000000000;

fn is_event(tree: &Tree, node: u32) -> bool
    ensures { result ≡ event_is tree.now node }
{
    let name = tree.name_at(node);
    name == "OnCommandPrimitive" || name == "OnParameterPrimitive" || name == "OnTimer"
}

/// What a transition waits for, where it waits for an event.
pub(crate) fn event_of(tree: &Tree, transition: u32) -> Option<u32>
    ensures { result ≡ event_in tree.now transition }
{
    for child in tree.children_at(transition) {
        if is_event(tree, *child) {
            return Some(*child);
        }
    }
    None
}

// ---- what an event carries

fn carries_value(operation: &str, held: Held) -> bool
    ensures { result ≡ value_is_carried operation.now held }
{
    held.required || operation == "set"
}

fn sets_read_only(operation: &str, held: Held) -> bool
    ensures { result ≡ read_only_is_set operation.now held }
{
    !held.required && held.read_only && operation == "set"
}

fn value_of(alloc: Global, operation: &str, held: Held) -> Result<Fields, Memory>
    ensures { IfOk result (λ fs. fs ≡ value_in operation.now held) }
{
    let mut fields = Items::new(alloc);
    if carries_value(operation, held) {
        fields.push((Text::of(alloc, "value")?, held.id))?;
    }
    Fields::of(alloc, fields)
}

fn value_if(alloc: Global, operation: &str, held: Option<Held>) -> Result<Option<Fields>, Memory>
    ensures { IfOk result (λ fs. fs ≡ value_in_if operation.now held) }
{
    match held {
        None => Ok(None),
        Some(held) => {
            if sets_read_only(operation, held) {
                Ok(None)
            } else {
                Ok(Some(value_of(alloc, operation, held)?))
            }
        }
    }
}

/// Whether an event is a command that arrives.
pub(crate) fn is_command(tree: &Tree, event: u32) -> bool
    ensures { result ≡ is_named tree.now (codes "OnCommandPrimitive") event }
{
    tree.name_at(event) == "OnCommandPrimitive"
}

/// What an event carries that is no command, where what it names is there.
pub(crate) fn value_carried(
    alloc: Global,
    scope: &Scope,
    event: u32,
) -> Result<Option<Fields>, Memory>
    ensures { IfOk result (λ fs. fs ≡ value_carried_in (scope_of scope.now) event) }
{
    if scope.tree.name_at(event) == "OnParameterPrimitive" {
        let operation = text_at(scope.tree, event, "operation");
        value_if(alloc, operation, parameter_of(scope, event))
    } else {
        Ok(Some(Fields::of(alloc, Items::new(alloc))?))
    }
}

fn is_unreceivable(operation: &str, held: Option<Held>) -> bool
    ensures { result ≡ is_none (value_in_if operation.now held) }
{
    held.is_none_or(|held| sets_read_only(operation, held))
}

/// Whether an event names what is not there, or a read-only parameter that is to be set.
pub(crate) fn is_missing(scope: &Scope, event: u32) -> bool
    ensures { result ≡ is_none (carried_in (scope_of scope.now) event) }
{
    let name = scope.tree.name_at(event);
    if name == "OnCommandPrimitive" {
        !has_command(scope, event)
    } else if name == "OnParameterPrimitive" {
        is_unreceivable(
            text_at(scope.tree, event, "operation"),
            parameter_of(scope, event),
        )
    } else {
        false
    }
}

// ---- what an event lacks

fn is_provided(end: Option<(usize, &EndPlan)>) -> bool
    ensures { result ≡ end_is_provided (option_map (λ p. (p.0, p.1.now)) end.entry) }
{
    end.is_some_and(|(_, end)| !end.required)
}

fn lacks_operation(scope: &Scope, event: u32) -> bool
    ensures { result ≡ operation_lacks (scope_of scope.now) event }
{
    scope.tree.name_at(event) == "OnParameterPrimitive"
        && is_provided(end_of(scope, event))
        && scope.tree.attribute_at(event, "operation").is_none()
}

/// Whether the event of a parameter at a provided end does not say whether the parameter is asked for or set.
pub(crate) fn lacks_operation_if(scope: &Scope, event: Option<u32>) -> bool
    ensures { result ≡ operation_lacks_if (scope_of scope.now) event }
{
    match event {
        None => false,
        Some(event) => lacks_operation(scope, event),
    }
}

// ---- timers

fn nanoseconds(number: Option<i128>) -> Option<u64>
    ensures { result ≡ nanoseconds_of number }
{
    let number = number?;
    if number >= 1 && number <= LONGEST {
        Some(number as u64)
    } else {
        None
    }
}

fn nanoseconds_at(tree: &Tree, event: u32) -> Option<u64>
    ensures { result ≡ nanoseconds_in tree.now event }
{
    nanoseconds(whole_number(text_at(tree, event, "nanosecondsAfterEntry")))
}

/// Whether an event is a timer of a number that is not from 1 to 10^18.
pub(crate) fn is_bad_timer(tree: &Tree, event: u32) -> bool
    ensures { result ≡ timer_is_bad tree.now event }
{
    tree.name_at(event) == "OnTimer" && nanoseconds_at(tree, event).is_none()
}

// ---- as plan data

fn op_arriving(operation: &str, held: Held) -> Op
    ensures { result ≡ op_that_arrives operation.now held }
{
    if held.required {
        Op::Val
    } else if operation == "set" {
        Op::Set
    } else {
        Op::Get
    }
}

fn trigger_at_end(at: usize, end: &EndPlan, name: &str) -> Trigger
    ensures { result ≡ trigger_of_command (command_at_end arriving name.now (at, end.now)) }
{
    match command_among(end.instance.members.as_slice(), name) {
        None => Trigger::Command(0, 0),
        Some((member, _)) => Trigger::Command(short(at), short(member)),
    }
}

fn command_trigger(scope: &Scope, event: u32) -> Trigger
    ensures { result ≡ trigger_of_command (command_of arriving (scope_of scope.now) event) }
{
    match end_of(scope, event) {
        None => Trigger::Command(0, 0),
        Some((at, end)) => trigger_at_end(at, end, text_at(scope.tree, event, "command")),
    }
}

fn parameter_trigger(operation: &str, held: Option<Held>) -> Trigger
    ensures { result ≡ trigger_of_parameter operation.now held }
{
    match held {
        None => Trigger::Param(0, 0, Op::Get),
        Some(held) => Trigger::Param(held.end, held.member, op_arriving(operation, held)),
    }
}

fn trigger_at(scope: &Scope, event: u32) -> Trigger
    ensures { result ≡ trigger_in (scope_of scope.now) event }
{
    let name = scope.tree.name_at(event);
    if name == "OnCommandPrimitive" {
        command_trigger(scope, event)
    } else if name == "OnParameterPrimitive" {
        let operation = text_at(scope.tree, event, "operation");
        parameter_trigger(operation, parameter_of(scope, event))
    } else {
        Trigger::Timer(nanoseconds_at(scope.tree, event).unwrap_or(0))
    }
}

/// What a transition with such an event waits for.
pub(crate) fn trigger_if(scope: &Scope, event: Option<u32>) -> Trigger
    ensures { result ≡ trigger_in_if (scope_of scope.now) event }
{
    match event {
        None => Trigger::Start,
        Some(event) => trigger_at(scope, event),
    }
}

/// The transaction that an event has to answer.
pub(crate) fn transaction_if(scope: &Scope, event: Option<u32>) -> Option<u32>
    ensures { result ≡ transaction_in_if (scope_of scope.now) event }
{
    transaction_at(scope, event?)
}
