//! What the events of triggers bring.

ghost use Rattle.std.specs.Prelude.{◌≡◌, ◌++◌, [], ◌∷◌, Some, IfOk, OnOk, option_map};
ghost use Rattle.eds_plan.specs.Carried.{arriving as arriving_in};
ghost use Rattle.eds_fits.specs.Deciding.{carried_ids as carried_ids_of, carried_if, command_brings as command_brings_in, brought_by as brought_by_in, parameter_brings as parameter_brings_in, command_brought as command_brought_in, parameter_brought as parameter_brought_in, brought as brought_in};

use crate::operand::goes;
use crate::statement::member_of;
use eds_base::{Memory, TypeId};
use eds_plan::{Argument, EndPlan, Member, Op, Trigger, Way};
use std::alloc::Global;

fn push_carried(ids: &mut Vec<TypeId>, way: Way, argument: &Argument) -> Result<(), Memory>
    ensures { OnOk result (ids.new.items ≡ ids.old.items ++ carried_if way argument.now) }
{
    if goes(way, argument.mode) {
        ids.push(argument.id)?;
    }
    Ok(())
}

fn carried_ids(alloc: Global, way: Way, arguments: &[Argument]) -> Result<Vec<TypeId>, Memory>
    ensures { IfOk result (λ ids. ids.items ≡ carried_ids_of way arguments.now) }
{
    let mut ids = Vec::new(alloc);
    for argument in arguments {
        push_carried(&mut ids, way, argument)?;
    }
    Ok(ids)
}

fn arriving(required: bool) -> Way
    ensures { result ≡ arriving_in required }
{
    if required { Way::Up } else { Way::Down }
}

fn command_brings(alloc: Global, way: Way, member: &Member) -> Result<Option<Vec<TypeId>>, Memory>
    ensures { IfOk result (λ o. option_map (λ v. v.items) o ≡ command_brings_in way member.now) }
{
    match member {
        Member::Parameter(_, _, _) => Ok(None),
        Member::Command(_, arguments) => Ok(Some(carried_ids(alloc, way, arguments.as_slice())?)),
    }
}

fn only_one(alloc: Global, id: TypeId) -> Result<Option<Vec<TypeId>>, Memory>
    ensures { IfOk result (λ o. option_map (λ v. v.items) o ≡ Some (id ∷ [])) }
{
    let mut ids = Vec::new(alloc);
    ids.push(id)?;
    Ok(Some(ids))
}

fn brought_by(alloc: Global, op: Op, way: Way, id: TypeId) -> Result<Option<Vec<TypeId>>, Memory>
    ensures { IfOk result (λ o. option_map (λ v. v.items) o ≡ brought_by_in op way id) }
{
    match op {
        Op::Command => Ok(None),
        Op::Get => match way {
            Way::Down => Ok(Some(Vec::new(alloc))),
            Way::Up => Ok(None),
        },
        Op::Set => match way {
            Way::Down => only_one(alloc, id),
            Way::Up => Ok(None),
        },
        Op::Val => match way {
            Way::Down => Ok(None),
            Way::Up => only_one(alloc, id),
        },
    }
}

fn parameter_brings(
    alloc: Global,
    op: Op,
    way: Way,
    member: &Member,
) -> Result<Option<Vec<TypeId>>, Memory>
    ensures { IfOk result (λ o. option_map (λ v. v.items) o ≡ parameter_brings_in op way member.now) }
{
    match member {
        Member::Command(_, _) => Ok(None),
        Member::Parameter(_, id, _) => brought_by(alloc, op, way, *id),
    }
}

fn command_brought(
    alloc: Global,
    member: Option<(bool, &Member)>,
) -> Result<Option<Vec<TypeId>>, Memory>
    ensures { IfOk result (λ o. option_map (λ v. v.items) o ≡ command_brought_in (option_map (λ m. (m.0, m.1.now)) member.entry)) }
{
    match member {
        None => Ok(None),
        Some((required, member)) => command_brings(alloc, arriving(required), member),
    }
}

fn parameter_brought(
    alloc: Global,
    op: Op,
    member: Option<(bool, &Member)>,
) -> Result<Option<Vec<TypeId>>, Memory>
    ensures { IfOk result (λ o. option_map (λ v. v.items) o ≡ parameter_brought_in op (option_map (λ m. (m.0, m.1.now)) member.entry)) }
{
    match member {
        None => Ok(None),
        Some((required, member)) => parameter_brings(alloc, op, arriving(required), member),
    }
}

/// The types of what a trigger's event carries, where the trigger fits.
pub(crate) fn brought(
    alloc: Global,
    ends: &[EndPlan],
    trigger: Trigger,
) -> Result<Option<Vec<TypeId>>, Memory>
    ensures { IfOk result (λ o. option_map (λ v. v.items) o ≡ brought_in ends.now trigger) }
{
    match trigger {
        Trigger::Start => Ok(Some(Vec::new(alloc))),
        Trigger::Command(face, number) => command_brought(alloc, member_of(ends, face, number)),
        Trigger::Param(face, number, op) => {
            parameter_brought(alloc, op, member_of(ends, face, number))
        }
        Trigger::Timer(nanoseconds) => {
            if nanoseconds <= 1_000_000_000_000_000_000 {
                Ok(Some(Vec::new(alloc)))
            } else {
                Ok(None)
            }
        }
    }
}
