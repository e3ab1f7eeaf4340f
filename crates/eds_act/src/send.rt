//! What is sent.

ghost use Rattle.std.specs.Prelude.{◌≡◌, ◌≤◌, ℕ, ◌++◌, [], ◌∷◌, Bool, Some, List, map, slice_get, IfOk, OnOk};
ghost use Rattle.eds_types.specs.Plain.{Plain, plain};
ghost use Rattle.eds_plan.specs.Sends.{sent, primitive};
ghost use Rattle.eds_plan.specs.Statements.{send_command, send_parameter};
ghost use Rattle.eds_act.specs.Does.{Tells, way_of, sending, waits, begun, value_of, statement};
ghost use Rattle.eds_act.specs.Running.{world, stored, Starts, Fits, HasConforming, OnHalted};

use crate::ActEnd;
use crate::arguments::{arguments_of, carried};
use crate::event::Event;
use eds_base::{Items, Memory};
use eds_plan::{ComponentPlan, End, EndPlan, Halt, Op, Operand, Outstanding, Primitive, Send, Way};
use eds_types::{TypeTable, Value};
use std::alloc::Global;
use std::slice;

fn way_of(end: &EndPlan) -> Way
    ensures { result ≡ way_of end.now }
{
    if end.required { Way::Down } else { Way::Up }
}

/// Whether the transaction is among those under way.
pub fn waits(waiting: &[Outstanding], face: u16, member: u16, name: u32) -> bool
    ensures { result ≡ waits waiting.now face member name }
{
    for one in waiting {
        if one.face == face && (one.member == member && one.name == name) {
            return true;
        }
    }
    false
}

// Notes the transaction of a send at an end, which is required or not.
fn begin(
    event: &mut Event,
    required: bool,
    face: u16,
    member: u16,
    name: Option<u32>,
) -> Result<(), Memory>
    ensures waiting { OnOk result (event.new.waiting ≡ begun required face member name event.old.waiting) }
    ensures variables { event.new.variables ≡ event.old.variables }
    ensures sent { event.new.out ≡ event.old.out }
    ensures comp { event.new.comp ≡ event.old.comp }
    ensures left { event.new.left ≡ event.old.left }
{
    if !required {
        return Ok(());
    }
    match name {
        None => Ok(()),
        Some(name) => {
            if waits(event.waiting.as_slice(), face, member, name) {
                return Ok(());
            }
            event.waiting.push(Outstanding { face, member, name })?;
            Ok(())
        }
    }
}

// Sends values at an end of the component.
fn emit(
    event: &mut Event,
    face: u16,
    member: u16,
    way: Way,
    op: Op,
    values: Vec<Value>,
) -> Result<(), Memory>
    ensures sent { OnOk result (map sent event.new.out ≡ map sent event.old.out ++ primitive event.old.comp.0 face member way op (map plain values.items) ∷ []) }
    ensures variables { event.new.variables ≡ event.old.variables }
    ensures waiting { event.new.waiting ≡ event.old.waiting }
    ensures comp { event.new.comp ≡ event.old.comp }
    ensures left { event.new.left ≡ event.old.left }
{
    let end = End {
        comp: event.comp,
        face,
    };
    event.out.push(Send::Prim(Primitive {
        end,
        member,
        way,
        op,
        arguments: Items::from_vec(values),
    }))?;
    Ok(())
}

/// Sends the values of operands at an end of the component, where each packs.
pub(crate) fn send(
    alloc: Global,
    table: &TypeTable,
    comp: &ComponentPlan,
    arguments: &[Value],
    face: u16,
    member: u16,
    op: Op,
    operands: &[Operand],
    name: Option<u32>,
    event: &mut Event,
) -> Result<ActEnd, Memory>
    requires fits { Fits table.now comp.now }
    requires conform { HasConforming table.now comp.now event.old }
    ensures conform { HasConforming table.now comp.now event.new }
    ensures comp { event.new.comp ≡ event.old.comp }
    ensures left { event.new.left ≡ event.old.left }
    ensures kept { IfOk result (λ e. OnHalted e (world event.new ≡ world event.old)) }
    ensures sent { IfOk result (λ e. (packs : ℕ → Plain → Bool) → Tells table.now packs → sending packs op face member name (slice_get comp.now.ends face) (map (value_of table.now (map plain arguments.now) (world event.old).variables) operands.now) (world event.old) ≡ stored e [] (world event.new)) }
{
    match comp.ends.get(face as usize) {
        None => Ok(ActEnd::Halted(Halt::BadArgument)),
        Some(end) => {
            let way = way_of(end);
            let types = carried(alloc, op, way, end.instance.members.get(member as usize))?;
            match arguments_of(
                alloc,
                table,
                types.as_slice(),
                arguments,
                event.variables.as_slice(),
                operands,
            )? {
                None => Ok(ActEnd::Halted(Halt::BadArgument)),
                Some(values) => {
                    begin(event, end.required, face, member, name)?;
                    emit(event, face, member, way, op, values)?;
                    Ok(ActEnd::Done)
                }
            }
        }
    }
}

/// Sends a command.
pub(crate) fn send_command(
    alloc: Global,
    table: &TypeTable,
    comp: &ComponentPlan,
    arguments: &[Value],
    face: u16,
    member: u16,
    operands: &[Operand],
    name: Option<u32>,
    event: &mut Event,
) -> Result<ActEnd, Memory>
    requires fits { Fits table.now comp.now }
    requires conform { HasConforming table.now comp.now event.old }
    ensures conform { HasConforming table.now comp.now event.new }
    ensures comp { event.new.comp ≡ event.old.comp }
    ensures left { event.new.left ≤ event.old.left }
    ensures runs { IfOk result (λ e. Starts table.now comp.now e (statement (map plain arguments.now) (send_command face member operands.now name)) [] event.old event.new) }
{
    send(
        alloc,
        table,
        comp,
        arguments,
        face,
        member,
        Op::Command,
        operands,
        name,
        event,
    )
}

/// Sends a parameter.
pub(crate) fn send_parameter(
    alloc: Global,
    table: &TypeTable,
    comp: &ComponentPlan,
    arguments: &[Value],
    face: u16,
    member: u16,
    op: Op,
    operand: &Option<Operand>,
    name: Option<u32>,
    event: &mut Event,
) -> Result<ActEnd, Memory>
    requires fits { Fits table.now comp.now }
    requires conform { HasConforming table.now comp.now event.old }
    ensures conform { HasConforming table.now comp.now event.new }
    ensures comp { event.new.comp ≡ event.old.comp }
    ensures left { event.new.left ≤ event.old.left }
    ensures runs { IfOk result (λ e. Starts table.now comp.now e (statement (map plain arguments.now) (send_parameter face member op operand.now name)) [] event.old event.new) }
{
    match operand {
        None => send(
            alloc,
            table,
            comp,
            arguments,
            face,
            member,
            op,
            &[],
            name,
            event,
        ),
        Some(operand) => {
            let operands = slice::from_ref(operand);
            send(
                alloc, table, comp, arguments, face, member, op, operands, name, event,
            )
        }
    }
}
