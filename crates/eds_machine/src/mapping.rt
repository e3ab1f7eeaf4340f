//! The parameter map.

ghost use Rattle.std.specs.Prelude.{◌≡◌, ◌++◌, ◌∷◌, [], ℕ, map, slice_get, slice_set, option_to_list, option_map, OnOk, OnErr, IfOk};
ghost use Rattle.std.specs.List.{find};
ghost use Rattle.std.specs.Option.{option_copied};
ghost use Rattle.eds_types.specs.Plain.{plain};
ghost use Rattle.eds_plan.specs.declared.activity.Op.TheVariants as op;
ghost use Rattle.eds_plan.specs.declared.run.Way.TheVariants.{Up};
ghost use Rattle.eds_plan.specs.Sends.{sent, primitive};
ghost use Rattle.eds_machine.specs.Reactions.{reacting, maps_to as maps, stored, mapped as mapped_as, map_reacts as map_makes};

use crate::waiting::is_required;
use eds_base::{CompId, Items, Memory};
use eds_plan::{CompState, ComponentPlan, End, MapPlan, Op, Primitive, Send, Sends, Values, Way};
use eds_types::Value;
use std::alloc::Global;

// The map of an end and member, if there is one.
fn map_of(component: &ComponentPlan, face: u16, member: u16) -> Option<&MapPlan>
    ensures { option_copied result ≡ find (maps face member) component.now.maps }
{
    for map in component.maps.as_slice() {
        if map.face == face && map.member == member {
            return Some(map);
        }
    }
    None
}

// Puts a value at a place, if it is there.
fn put(values: &mut Values, at: usize, value: Value)
    ensures { map plain values.new ≡ slice_set (map plain values.old) at (plain value) }
{
    if at < values.len() {
        values.set(at, value);
    }
}

// The first value goes to a variable.
fn store(
    alloc: Global,
    variable: u16,
    arguments: &[Value],
    variables: &mut Values,
) -> Result<(), Memory>
    ensures ok { OnOk result (map plain variables.new ≡ stored variable (map plain arguments.now) (map plain variables.old)) }
    ensures err { OnErr result (variables.new ≡ variables.old) }
{
    match arguments {
        [] => Ok(()),
        [first, ..] => {
            let value = first.copy(alloc)?;
            put(variables, variable as usize, value);
            Ok(())
        }
    }
}

// The value at a place, as a list.
fn value_at(alloc: Global, values: &Values, at: u16) -> Result<Values, Memory>
    ensures { IfOk result (λ vs. map plain vs ≡ option_to_list (slice_get (map plain values.now) at)) }
{
    let mut list = Items::new(alloc);
    match values.get(usize::from(at)) {
        None => Ok(list),
        Some(value) => {
            list.push(value.copy(alloc)?)?;
            Ok(list)
        }
    }
}

// The variable's value is sent at the end.
fn reply(
    alloc: Global,
    comp: CompId,
    face: u16,
    member: u16,
    variable: u16,
    state: &CompState,
    out: &mut Sends,
) -> Result<(), Memory>
    ensures { OnOk result (map sent out.new ≡ map sent out.old ++ primitive comp.0 face member Up op.Val (option_to_list (slice_get (map plain state.now.variables) variable)) ∷ []) }
{
    let arguments = value_at(alloc, &state.variables, variable)?;
    out.push(Send::Prim(Primitive {
        end: End { comp, face },
        member,
        way: Way::Up,
        op: Op::Val,
        arguments,
    }))?;
    Ok(())
}

// What a map makes of a primitive at an end, which is required or not.
fn mapped(
    alloc: Global,
    comp: CompId,
    required: bool,
    primitive: &Primitive,
    variable: u16,
    state: &mut CompState,
    out: &mut Sends,
) -> Result<(), Memory>
    ensures machines { state.new.machines ≡ state.old.machines }
    ensures kept { OnErr result (state.new.variables ≡ state.old.variables) }
    ensures ok { (left : ℕ) → OnOk result (reacting comp.0 state.new out.new left ≡ mapped_as required primitive.now.op (map plain primitive.now.arguments) primitive.now.end.face primitive.now.member variable (reacting comp.0 state.old out.old left)) }
{
    let arguments = primitive.arguments.as_slice();
    match primitive.op {
        Op::Command => Ok(()),
        Op::Get => {
            if !required {
                reply(
                    alloc,
                    comp,
                    primitive.end.face,
                    primitive.member,
                    variable,
                    state,
                    out,
                )?;
            }
            Ok(())
        }
        Op::Set => {
            if !required {
                store(alloc, variable, arguments, &mut state.variables)?;
            }
            Ok(())
        }
        Op::Val => {
            if required {
                store(alloc, variable, arguments, &mut state.variables)?;
            }
            Ok(())
        }
    }
}

/// What the parameter map makes of a primitive.
pub(crate) fn map_reacts(
    alloc: Global,
    comp: CompId,
    component: &ComponentPlan,
    primitive: &Primitive,
    state: &mut CompState,
    out: &mut Sends,
) -> Result<(), Memory>
    ensures machines { state.new.machines ≡ state.old.machines }
    ensures kept { OnErr result (state.new.variables ≡ state.old.variables) }
    ensures ok { (left : ℕ) → OnOk result (reacting comp.0 state.new out.new left ≡ map_makes component.now primitive.now.end.face primitive.now.member primitive.now.op (map plain primitive.now.arguments) (reacting comp.0 state.old out.old left)) }
{
    let face = primitive.end.face;
    match map_of(component, face, primitive.member) {
        None => Ok(()),
        Some(map) => {
            let required = is_required(component, face);
            mapped(alloc, comp, required, primitive, map.variable, state, out)?;
            Ok(())
        }
    }
}
