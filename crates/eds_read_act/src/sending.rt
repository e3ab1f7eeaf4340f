//! The ends, members and activities that elements name, and what these take.

ghost use Rattle.std.specs.Prelude.{◌≡◌, IfOk, Some, is_some, option_map, slice_get};
ghost use Rattle.std.specs.Option.{option_copied};
ghost use Rattle.eds_read_act.specs.Numbered.{numbered};
ghost use Rattle.eds_plan.specs.Carried.{leaving as leaving_at, arriving as arriving_at};
ghost use Rattle.eds_read_act.specs.Scopes.{scope_of};
ghost use Rattle.eds_read_act.specs.Sending.{as_command as command_as, as_parameter as parameter_as, end_of as end_in, command_at_end, command_of as command_in, parameter_at_end, parameter_of as parameter_in, activity_of as activity_in, taken_at as taken_of};

use crate::activity_sort::{ActivitySort, sort_at};
use crate::carrying::{carried, leaving};
use crate::fields::Fields;
use crate::inside::text_at;
use crate::naming::short;
use crate::scope::Scope;
use eds_base::{Items, Memory, Text, TypeId};
use eds_plan::{Argument, EndPlan, FieldList, Member, Way};
use std::alloc::Global;

/// A command at an end, and what it carries in one way.
#[derive(Drop)]
pub(crate) struct Taker {
    pub(crate) end: u16,
    pub(crate) member: u16,
    pub(crate) fields: FieldList,
}

/// A parameter at an end, with its type and whether it is read-only.
#[derive(Clone, Copy)]
pub(crate) struct Held {
    pub(crate) end: u16,
    pub(crate) member: u16,
    pub(crate) required: bool,
    pub(crate) id: TypeId,
    pub(crate) read_only: bool,
}

/// The same fields once more.
pub(crate) fn copied(alloc: Global, fields: &[(Text, TypeId)]) -> Result<FieldList, Memory>
    ensures { IfOk result (λ fs. fs ≡ fields.now) }
{
    let mut copies = Items::new(alloc);
    for (name, id) in fields {
        let name = Text::of(alloc, name.as_str())?;
        copies.push((name, *id))?;
    }
    Ok(copies)
}

fn as_command<'a>(name: &str, member: &'a Member) -> Option<&'a [Argument]>
    ensures { option_map (λ a. a.now) result ≡ command_as name.now member.now }
{
    match member {
        Member::Parameter(_, _, _) => None,
        Member::Command(own, arguments) => {
            if own.as_str() == name {
                Some(arguments.as_slice())
            } else {
                None
            }
        }
    }
}

fn as_parameter(name: &str, member: &Member) -> Option<(TypeId, bool)>
    ensures { result ≡ parameter_as name.now member.now }
{
    match member {
        Member::Parameter(own, id, read_only) => {
            if own.as_str() == name {
                Some((*id, *read_only))
            } else {
                None
            }
        }
        Member::Command(_, _) => None,
    }
}

/// The command of a name among members, with its position.
pub(crate) fn command_among<'a>(
    members: &'a [Member],
    name: &str,
) -> Option<(usize, &'a [Argument])>
    ensures { option_map (λ p. (p.0, p.1.now)) result ≡ numbered (command_as name.now) 0 members.now }
{
    for (at, member) in members.iter().enumerate() {
        if let Some(arguments) = as_command(name, member) {
            return Some((at, arguments));
        }
    }
    None
}

fn parameter_among(members: &[Member], name: &str) -> Option<(usize, (TypeId, bool))>
    ensures { result ≡ numbered (parameter_as name.now) 0 members.now }
{
    for (at, member) in members.iter().enumerate() {
        if let Some(parameter) = as_parameter(name, member) {
            return Some((at, parameter));
        }
    }
    None
}

/// The end that an element names.
pub(crate) fn end_of<'a>(scope: &Scope<'a>, node: u32) -> Option<(usize, &'a EndPlan)>
    ensures { option_map (λ p. (p.0, p.1.now)) result ≡ end_in (scope_of scope.now) node }
{
    scope.component.end(text_at(scope.tree, node, "interface"))
}

fn command_at(
    alloc: Global,
    way: Way,
    at: usize,
    end: &EndPlan,
    name: &str,
) -> Result<Option<Taker>, Memory>
    ensures { IfOk result (λ c. c ≡ command_at_end (λ required. way) name.now (at, end.now)) }
{
    match command_among(end.instance.members.as_slice(), name) {
        None => Ok(None),
        Some((member, arguments)) => {
            let fields = carried(alloc, way, arguments)?;
            Ok(Some(Taker {
                end: short(at),
                member: short(member),
                fields,
            }))
        }
    }
}

/// The command that an element sends, with what it carries.
pub(crate) fn sent_command(alloc: Global, scope: &Scope, node: u32) -> Result<Option<Taker>, Memory>
    ensures { IfOk result (λ c. c ≡ command_in leaving_at (scope_of scope.now) node) }
{
    let name = text_at(scope.tree, node, "command");
    match end_of(scope, node) {
        None => Ok(None),
        Some((at, end)) => command_at(alloc, leaving(end.required), at, end, name),
    }
}

/// Whether the command that an element waits for is there.
pub(crate) fn has_command(scope: &Scope, node: u32) -> bool
    ensures { result ≡ is_some (command_in arriving_at (scope_of scope.now) node) }
{
    match end_of(scope, node) {
        None => false,
        Some((_, end)) => {
            let name = text_at(scope.tree, node, "command");
            command_among(end.instance.members.as_slice(), name).is_some()
        }
    }
}

fn parameter_at(at: usize, end: &EndPlan, name: &str) -> Option<Held>
    ensures { result ≡ parameter_at_end name.now (at, end.now) }
{
    let (member, (id, read_only)) = parameter_among(end.instance.members.as_slice(), name)?;
    Some(Held {
        end: short(at),
        member: short(member),
        required: end.required,
        id,
        read_only,
    })
}

/// The parameter that an element names.
pub(crate) fn parameter_of(scope: &Scope, node: u32) -> Option<Held>
    ensures { result ≡ parameter_in (scope_of scope.now) node }
{
    let (at, end) = end_of(scope, node)?;
    parameter_at(at, end, text_at(scope.tree, node, "parameter"))
}

/// The activity that an element names, with its arguments.
pub(crate) fn activity_of<'a>(scope: &Scope<'a>, node: u32) -> Option<(usize, &'a Fields)>
    ensures { option_map (λ p. (p.0, p.1.now)) result ≡ activity_in (scope_of scope.now) node }
{
    let name = text_at(scope.tree, node, "activity");
    let (at, head) = scope.component.activity(name)?;
    Some((at, &head.arguments))
}

// ---- what takes arguments

fn taken_by_call<'a>(scope: &Scope<'a>, node: u32) -> Option<&'a Fields>
    ensures { option_copied result ≡ option_map (λ a. a.1) (activity_in (scope_of scope.now) node) }
{
    let (_, fields) = activity_of(scope, node)?;
    Some(fields)
}

// The arguments that the command of a name carries at an end, where the end sends.
fn sent_fields<'a>(scope: &Scope<'a>, at: usize, end: &EndPlan, name: &str) -> Option<&'a Fields>
    ensures { slice_get scope.now.component.now.ends.now at ≡ Some end.now → option_copied result ≡ option_map (λ c. c.fields) (command_at_end leaving_at name.now (at, end.now)) }
{
    let (member, _) = command_among(end.instance.members.as_slice(), name)?;
    scope.component.sent(at, member)
}

fn taken_by_command<'a>(scope: &Scope<'a>, node: u32) -> Option<&'a Fields>
    ensures { option_copied result ≡ option_map (λ c. c.fields) (command_in leaving_at (scope_of scope.now) node) }
{
    let (at, end) = end_of(scope, node)?;
    sent_fields(scope, at, end, text_at(scope.tree, node, "command"))
}

/// The arguments to which an element gives values, if it names something that takes some.
pub(crate) fn taken_at<'a>(scope: &Scope<'a>, node: u32) -> Option<&'a Fields>
    ensures { option_copied result ≡ taken_of (scope_of scope.now) node }
{
    match sort_at(scope.tree, node) {
        ActivitySort::Call | ActivitySort::Action => taken_by_call(scope, node),
        ActivitySort::SendCommand => taken_by_command(scope, node),
        _ => None,
    }
}

// The arguments that the command of a name carries at an end, where the end receives.
fn received_fields<'a>(
    scope: &Scope<'a>,
    at: usize,
    end: &EndPlan,
    name: &str,
) -> Option<&'a Fields>
    ensures { slice_get scope.now.component.now.ends.now at ≡ Some end.now → option_copied result ≡ option_map (λ c. c.fields) (command_at_end arriving_at name.now (at, end.now)) }
{
    let (member, _) = command_among(end.instance.members.as_slice(), name)?;
    scope.component.received(at, member)
}

/// The arguments that the command which an element waits for carries.
pub(crate) fn received_by<'a>(scope: &Scope<'a>, node: u32) -> Option<&'a Fields>
    ensures { option_copied result ≡ option_map (λ c. c.fields) (command_in arriving_at (scope_of scope.now) node) }
{
    let (at, end) = end_of(scope, node)?;
    received_fields(scope, at, end, text_at(scope.tree, node, "command"))
}
