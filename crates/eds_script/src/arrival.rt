//! What arrives at an end.

ghost use Rattle.std.specs.Prelude.{◌≡◌, not, map};
ghost use Rattle.eds_base.specs.Answering.{Answers};
ghost use Rattle.eds_plan.specs.Lines.{told};
ghost use Rattle.eds_types.specs.Plain.{plain};
ghost use Rattle.eds_script.specs.Arrivals.{arrived, command_told, fits as fits_end, frame_told, get_told, member_told, set_told, val_told};
ghost use Rattle.eds_script.specs.Carries.{end_fields};
ghost use Rattle.eds_script.specs.Known.{AreKnown};

use crate::LineWhy;
use crate::carries::{Facing, find_carrying};
use crate::given::{given_arguments, given_frame, given_value};
use crate::members::{arriving, find_parameter};
use crate::words::Verb;
use eds_base::Fail;
use eds_plan::{End, EndPlan, Line, Op, Primitive, Values};
use eds_types::TypeTable;
use std::alloc::Global;

/// Whether a first word fits an end, which is required or not.
pub(crate) fn fits(verb: Verb, required: bool) -> bool
    ensures { result ≡ fits_end verb required }
{
    match verb {
        Verb::Cmd => true,
        Verb::Frame => true,
        Verb::Get => !required,
        Verb::Set => !required,
        Verb::Val => required,
    }
}

// A primitive that arrives.
fn arrival(end: End, place: u16, required: bool, op: Op, arguments: Values) -> Line
    ensures { told result ≡ arrived end place required op (map plain arguments) }
{
    Line::Prim(Primitive {
        end,
        member: place,
        way: arriving(required),
        op,
        arguments,
    })
}

// A command with a JSON object of its arguments.
#[tactic(auto, unfolding(crate::specs::Arrivals::command_told))]
fn command_line(
    alloc: Global,
    table: &TypeTable,
    facing: &Facing<'_>,
    name: &str,
    json: &str,
) -> Result<Line, Fail<LineWhy>>
    requires known { AreKnown table.now facing.now.plan.now }
    requires fields { facing.now.fields.now ≡ end_fields facing.now.plan.now }
    ensures { Answers told result (command_told table.now facing.now.end facing.now.plan.now name.now json.now) }
{
    let Some(command) = find_carrying(facing, name)? else {
        return Err(Fail::Named(LineWhy::Member));
    };
    let values = given_arguments(alloc, table, command.fields, json)?;
    Ok(arrival(
        facing.end,
        command.place,
        facing.plan.required,
        Op::Command,
        values,
    ))
}

// A command with the octets of its one argument.
#[tactic(auto, unfolding(crate::specs::Arrivals::frame_told))]
fn frame_line(
    alloc: Global,
    facing: &Facing<'_>,
    name: &str,
    hex: &str,
) -> Result<Line, Fail<LineWhy>>
    requires { facing.now.fields.now ≡ end_fields facing.now.plan.now }
    ensures { Answers told result (frame_told facing.now.end facing.now.plan.now name.now hex.now) }
{
    let Some(command) = find_carrying(facing, name)? else {
        return Err(Fail::Named(LineWhy::Member));
    };
    if command.fields.len() != 1 {
        return Err(Fail::Named(LineWhy::Args));
    }
    let octets = given_frame(alloc, hex)?;
    Ok(Line::Frame(facing.end, command.place, octets))
}

// A parameter that is asked for.
#[tactic(auto, unfolding(crate::specs::Arrivals::get_told))]
fn get_line(alloc: Global, end: End, plan: &EndPlan, name: &str) -> Result<Line, Fail<LineWhy>>
    ensures { Answers told result (get_told end plan.now name.now) }
{
    let Some(parameter) = find_parameter(plan.instance.members.as_slice(), name)? else {
        return Err(Fail::Named(LineWhy::Member));
    };
    let none = Values::new(alloc);
    Ok(arrival(end, parameter.place, plan.required, Op::Get, none))
}

// A parameter that is set.
#[tactic(auto, unfolding(crate::specs::Arrivals::set_told))]
fn set_line(
    alloc: Global,
    table: &TypeTable,
    end: End,
    plan: &EndPlan,
    name: &str,
    json: &str,
) -> Result<Line, Fail<LineWhy>>
    requires known { AreKnown table.now plan.now }
    ensures { Answers told result (set_told table.now end plan.now name.now json.now) }
{
    let Some(parameter) = find_parameter(plan.instance.members.as_slice(), name)? else {
        return Err(Fail::Named(LineWhy::Member));
    };
    if parameter.read_only {
        return Err(Fail::Named(LineWhy::ReadOnly));
    }
    let values = given_value(alloc, table, parameter.id, json)?;
    Ok(arrival(end, parameter.place, plan.required, Op::Set, values))
}

// A parameter's value that comes.
#[tactic(auto, unfolding(crate::specs::Arrivals::val_told))]
fn val_line(
    alloc: Global,
    table: &TypeTable,
    end: End,
    plan: &EndPlan,
    name: &str,
    json: &str,
) -> Result<Line, Fail<LineWhy>>
    requires known { AreKnown table.now plan.now }
    ensures { Answers told result (val_told table.now end plan.now name.now json.now) }
{
    let Some(parameter) = find_parameter(plan.instance.members.as_slice(), name)? else {
        return Err(Fail::Named(LineWhy::Member));
    };
    let values = given_value(alloc, table, parameter.id, json)?;
    Ok(arrival(end, parameter.place, plan.required, Op::Val, values))
}

/// What arrives at an end for a member.
pub(crate) fn member_line(
    alloc: Global,
    table: &TypeTable,
    verb: Verb,
    facing: &Facing<'_>,
    name: &str,
    rest: &str,
) -> Result<Line, Fail<LineWhy>>
    requires known { AreKnown table.now facing.now.plan.now }
    requires fields { facing.now.fields.now ≡ end_fields facing.now.plan.now }
    ensures { Answers told result (member_told table.now verb facing.now.end facing.now.plan.now name.now rest.now) }
{
    let end = facing.end;
    let plan = facing.plan;
    match verb {
        Verb::Cmd => command_line(alloc, table, facing, name, rest),
        Verb::Frame => frame_line(alloc, facing, name, rest),
        Verb::Get => get_line(alloc, end, plan, name),
        Verb::Set => set_line(alloc, table, end, plan, name, rest),
        Verb::Val => val_line(alloc, table, end, plan, name, rest),
    }
}
