//! The values that an activity or a primitive is given.

ghost use Rattle.std.specs.Prelude.{◌≡◌, ℕ, ◌<◌, length, Bool, map, List, [], ◌∷◌, ◌++◌, Option, option_map, IfOk, OnOk};
ghost use Rattle.std.specs.Option.{option_copied};
ghost use Rattle.eds_types.specs.Plain.{Plain, plain};
ghost use Rattle.eds_plan.specs.Carried.{carried, carried_of, goes as is_carried_in};
ghost use Rattle.eds_plan.specs.Plans.{argument_types};
ghost use Rattle.eds_act.specs.Does.{Tells, value_of, argument_of, arguments_of};
ghost use Rattle.eds_act.specs.Running.{IsKnown, types_of};

use crate::check::packs;
use crate::operand::copy_of;
use eds_base::{Memory, TypeId};
use eds_plan::{Activity, Argument, Member, Mode, Op, Operand, Way};
use eds_types::{TypeTable, Value};
use std::alloc::Global;

// The value of an operand, where it packs as the type.
fn argument_of(
    alloc: Global,
    table: &TypeTable,
    id: TypeId,
    arguments: &[Value],
    variables: &[Value],
    operand: &Operand,
) -> Result<Option<Value>, Memory>
    requires known { id.0 < length table.now }
    ensures { IfOk result (λ v. (packs : ℕ → Plain → Bool) → Tells table.now packs → option_map plain v ≡ argument_of packs id.0 (value_of table.now (map plain arguments.now) (map plain variables.now) operand.now)) }
{
    match copy_of(alloc, table, arguments, variables, operand)? {
        None => Ok(None),
        Some(value) => {
            if packs(table, id, &value) {
                Ok(Some(value))
            } else {
                Ok(None)
            }
        }
    }
}

/// The values of operands, where there is one for each type, and each packs.
pub(crate) fn arguments_of(
    alloc: Global,
    table: &TypeTable,
    types: &[TypeId],
    arguments: &[Value],
    variables: &[Value],
    operands: &[Operand],
) -> Result<Option<Vec<Value>>, Memory>
    requires known { IsKnown table.now (types_of types.now) }
    ensures { IfOk result (λ vs. (packs : ℕ → Plain → Bool) → Tells table.now packs → option_map (λ v. map plain v.items) vs ≡ arguments_of packs (types_of types.now) (map (value_of table.now (map plain arguments.now) (map plain variables.now)) operands.now)) }
{
    if types.len() != operands.len() {
        return Ok(None);
    }
    let mut values = Vec::new(alloc);
    for (i, operand) in operands.iter().enumerate() {
        match argument_of(alloc, table, types[i], arguments, variables, operand)? {
            None => return Ok(None),
            Some(value) => values.push(value)?,
        }
    }
    Ok(Some(values))
}

// The types of an activity's arguments.
pub(crate) fn argument_types(alloc: Global, activity: &Activity) -> Result<Vec<TypeId>, Memory>
    ensures { IfOk result (λ ids. types_of ids.items ≡ argument_types activity.now) }
{
    let mut types = Vec::new(alloc);
    for (_, id) in activity.arguments.as_slice() {
        types.push(*id)?;
    }
    Ok(types)
}

fn is_carried(way: Way, mode: Mode) -> bool
    ensures { result ≡ is_carried_in way mode }
{
    match way {
        Way::Down => match mode {
            Mode::In => true,
            Mode::Out => false,
            Mode::InOut => true,
            Mode::Notify => false,
        },
        Way::Up => match mode {
            Mode::In => false,
            Mode::Out => true,
            Mode::InOut => true,
            Mode::Notify => true,
        },
    }
}

fn carried_of(alloc: Global, way: Way, arguments: &[Argument]) -> Result<Vec<TypeId>, Memory>
    ensures { IfOk result (λ ids. types_of ids.items ≡ carried_of way arguments.now) }
{
    let mut types = Vec::new(alloc);
    for argument in arguments {
        push_carried(&mut types, way, argument)?;
    }
    Ok(types)
}

fn push_carried(types: &mut Vec<TypeId>, way: Way, argument: &Argument) -> Result<(), Memory>
    ensures { OnOk result (types_of types.new.items ≡ types_of types.old.items ++ carried_of way (argument.now ∷ [])) }
{
    if is_carried(way, argument.mode) {
        types.push(argument.id)?;
        Ok(())
    } else {
        Ok(())
    }
}

fn one_type(alloc: Global, id: TypeId) -> Result<Vec<TypeId>, Memory>
    ensures { IfOk result (λ ids. types_of ids.items ≡ id.0 ∷ []) }
{
    let mut types = Vec::new(alloc);
    types.push(id)?;
    Ok(types)
}

/// The types of the values that a member carries in a way.
pub(crate) fn carried(
    alloc: Global,
    op: Op,
    way: Way,
    member: Option<&Member>,
) -> Result<Vec<TypeId>, Memory>
    ensures { IfOk result (λ ids. types_of ids.items ≡ carried op way (option_copied member.entry)) }
{
    match member {
        None => Ok(Vec::new(alloc)),
        Some(Member::Parameter(_, id, _)) => match op {
            Op::Command => Ok(Vec::new(alloc)),
            Op::Get => Ok(Vec::new(alloc)),
            Op::Set => one_type(alloc, *id),
            Op::Val => one_type(alloc, *id),
        },
        Some(Member::Command(_, arguments)) => match op {
            Op::Command => carried_of(alloc, way, arguments.as_slice()),
            Op::Get => Ok(Vec::new(alloc)),
            Op::Set => Ok(Vec::new(alloc)),
            Op::Val => Ok(Vec::new(alloc)),
        },
    }
}
