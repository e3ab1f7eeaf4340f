//! The line of an event.

ghost use Rattle.std.specs.Prelude.{◌≡◌, ◌≤◌, ◌++◌, IfOk, Ok, OnOk, Some, codes, length, map, slice_get, string_bytes};
ghost use Rattle.hex.specs.Hex.{encode_lower};
ghost use Rattle.eds_bits.specs.Bits.{Bits, octets_of};
ghost use Rattle.eds_plan.specs.Carried.{carried_fields as carried_of};
ghost use Rattle.eds_plan.specs.Outs.{report, signal};
ghost use Rattle.eds_plan.specs.Plans.{component_at};
ghost use Rattle.eds_types.specs.Plain.{Plain, plain};
ghost use Rattle.eds_types.specs.Spelling.{Canon};
ghost use Rattle.eds_value.specs.Json.{arguments_in, value_in};
ghost use Rattle.eds_value.specs.JsonOfValue.{arguments_text, json_text};
ghost use Rattle.eds_value.specs.Laws.{AreNamed, HasNoTypeEntry};
ghost use Rattle.eds_plan.specs.Ends.{end_at as end_in};
ghost use Rattle.eds_script.specs.Events.{IsCommandBy, IsEventLine, IsMemberLine, IsSentLine, IsTextLine, frame_type as type_of_frame, given_line, halt_line as line_of_halt, halt_word as word_of_halt, op_word as word_of_op, parameter_line as line_of_parameter, reject_line as line_of_reject};
ghost use Rattle.eds_script.specs.Fitting.{AreValuesOf, FitsMember, FitsParameter, FitsPlan, IsValueOf};
ghost use Rattle.eds_script.specs.Frames.{IsFramed, framed};
ghost use Rattle.eds_script.specs.Laws.{ArgumentsRead, EventReads, MemberReads, SentReads};
ghost use Rattle.eds_script.specs.Places.{place_text};
ghost use Rattle.eds_script.specs.Names.{machine_name as name_of_machine, member_at, member_name as name_in_end, text_of_end as text_in};

use crate::frame::{Frame, Spot, command_frame, front, sent_at};
use crate::members::carried_fields;
use crate::names::{Place, component_name, machine_name, member_name_at, place_of_end};
use crate::print::{line_given, line_of, push_octets, value_at};
use eds_base::{CompId, Fail, Fault, Memory, Octets, TypeId};
use eds_pack::{pack, pack_into};
use eds_plan::{Argument, End, FieldList, Halt, Level, Member, Op, Out, Plan, Primitive};
use eds_types::{TypeTable, Value, Values};
use eds_value::{args_to_json, path_text, to_json};
use std::alloc::Global;

// ---- commands

// The octets of the canonical bits of a value.
fn packed(alloc: Global, table: &TypeTable, id: TypeId, value: &Value) -> Result<Octets, Memory>
    requires { IsValueOf table.now id.0 (plain value.now) }
    ensures { IfOk result (λ o. (b : Bits) × Canon table.now id.0 (plain value.now) b × (o ≡ octets_of b)) }
{
    match pack(alloc, table, id, value) {
        Ok((octets, _)) => Ok(octets),
        Err(Fail::Memory) => Err(Memory),
        Err(Fail::Named(_)) => unreachable!(),
    }
}

// The canonical bits of a value in hex.
fn frame_hex(alloc: Global, table: &TypeTable, id: TypeId, value: &Value) -> Result<String, Memory>
    requires { IsValueOf table.now id.0 (plain value.now) }
    ensures { IfOk result (λ s. (b : Bits) × Canon table.now id.0 (plain value.now) b × (string_bytes s ≡ encode_lower (octets_of b))) }
{
    let octets = packed(alloc, table, id, value)?;
    Ok(hex::encode(alloc, octets.as_slice())?)
}

/// Most frames have no more octets, and take no memory but that of their line.
const FEW_OCTETS: usize = 64;

// Puts the hex of a few octets last.
fn add_hex(text: &mut Vec<u8>, octets: &[u8]) -> Result<(), Memory>
    requires { length octets.now ≤ 64 }
    ensures { OnOk result (text.new.items ≡ text.old.items ++ encode_lower octets.now) }
{
    let mut digits = [0u8; 2 * FEW_OCTETS];
    let hex = &mut digits[..2 * octets.len()];
    match hex::encode_to_slice(octets, hex) {
        Ok(()) => push_octets(text, hex),
        Err(_) => unreachable!(),
    }
}

// Puts the canonical bits of a value in hex last.
fn add_frame(
    alloc: Global,
    text: &mut Vec<u8>,
    table: &TypeTable,
    id: TypeId,
    value: &Value,
) -> Result<(), Memory>
    requires { IsValueOf table.now id.0 (plain value.now) }
    ensures { OnOk result ((b : Bits) × Canon table.now id.0 (plain value.now) b × (text.new.items ≡ text.old.items ++ encode_lower (octets_of b))) }
{
    let mut room = [0u8; FEW_OCTETS];
    match pack_into(table, id, value, &mut room) {
        Ok(size) => add_hex(text, &room[..size.div_ceil(8) as usize]),
        Err(_) => {
            let hex = frame_hex(alloc, table, id, value)?;
            push_octets(text, hex.as_bytes())
        }
    }
}

// The line of a frame.
fn frame_line(alloc: Global, table: &TypeTable, frame: &Frame<'_>) -> Result<Octets, Memory>
    requires { IsValueOf table.now frame.now.id.0 (plain frame.now.value.now) }
    ensures line { IfOk result (λ o. IsFramed table.now (framed frame.now) o) }
    ensures text { IfOk result IsTextLine }
{
    let mut line = frame.head(alloc)?.into_bytes();
    line.push(b' ')?;
    add_frame(alloc, &mut line, table, frame.id, frame.value)?;
    line.push(b'\n')?;
    Ok(Octets::from_vec(line))
}

// The same values, as those of an object.
fn listed(alloc: Global, values: &[Value]) -> Result<Values, Memory>
    ensures { IfOk result (λ vs. vs ≡ map plain values.now) }
{
    let mut list = Values::new(alloc);
    for value in values {
        let copy = value.copy(alloc)?;
        list.push(copy)?;
    }
    Ok(list)
}

// A command with the JSON of its arguments.
fn arguments_line(
    alloc: Global,
    table: &TypeTable,
    spot: &Spot<'_>,
    fields: &FieldList,
    values: &[Value],
) -> Result<Octets, Memory>
    requires { AreValuesOf table.now fields.now (map plain values.now) }
    ensures text { IfOk result IsTextLine }
    ensures line { IfOk result (λ o. o ≡ given_line spot.now.time (codes "cmd") (place_text spot.now.place) spot.now.name.now (arguments_text table.now fields.now (map plain values.now))) }
    ensures reads { HasNoTypeEntry table.now → IfOk result (λ o. AreNamed fields.now → arguments_in table.now fields.now (arguments_text table.now fields.now (map plain values.now)) ≡ Ok (map plain values.now)) }
{
    let head = front(alloc, spot, "cmd")?;
    let list = listed(alloc, values)?;
    let json = args_to_json(alloc, table, fields, &list)?;
    Ok(line_given(head, json.as_slice())?)
}

// ---- parameters

fn op_word(op: Op) -> &'static str
    ensures { result.now ≡ word_of_op op }
{
    match op {
        Op::Command => "cmd",
        Op::Get => "get",
        Op::Set => "set",
        Op::Val => "val",
    }
}

// A parameter that is asked for, set or told.
fn parameter_line(
    alloc: Global,
    table: &TypeTable,
    spot: &Spot<'_>,
    id: TypeId,
    op: Op,
    values: &[Value],
) -> Result<Octets, Memory>
    requires { FitsParameter table.now id op (map plain values.now) }
    ensures text { IfOk result IsTextLine }
    ensures line { IfOk result (λ o. o ≡ line_of_parameter table.now spot.now.time (place_text spot.now.place) spot.now.name.now op (map plain values.now)) }
    ensures reads { HasNoTypeEntry table.now → IfOk result (λ o. (v : Plain) → slice_get (map plain values.now) 0 ≡ Some v → value_in table.now id.0 (json_text table.now v) ≡ Ok v) }
{
    let head = front(alloc, spot, op_word(op))?;
    match value_at(values, 0) {
        None => Ok(line_of(head)?),
        Some(value) => {
            let json = to_json(alloc, table, id, value)?;
            Ok(line_given(head, json.as_slice())?)
        }
    }
}

// ---- what is sent

// A command that is sent: a frame of its one argument, or else the JSON of what it carries.
fn sent_command(
    alloc: Global,
    table: &TypeTable,
    spot: &Spot<'_>,
    level: Level,
    arguments: &[Argument],
    primitive: &Primitive,
) -> Result<Octets, Memory>
    requires { AreValuesOf table.now (carried_of primitive.now.way arguments.now) (map plain primitive.now.arguments) }
    ensures line { IfOk result (λ o. IsCommandBy (type_of_frame level (carried_of primitive.now.way arguments.now)) table.now spot.now.time (place_text spot.now.place) spot.now.name.now (carried_of primitive.now.way arguments.now) (map plain primitive.now.arguments) o) }
    ensures text { IfOk result IsTextLine }
    ensures reads { HasNoTypeEntry table.now → IfOk result (λ o. ArgumentsRead (type_of_frame level (carried_of primitive.now.way arguments.now)) table.now (carried_of primitive.now.way arguments.now) (map plain primitive.now.arguments)) }
{
    if let Some(frame) = command_frame(*spot, level, arguments, primitive) {
        return frame_line(alloc, table, &frame);
    }
    let fields = carried_fields(alloc, primitive.way, arguments)?;
    arguments_line(alloc, table, spot, &fields, primitive.arguments.as_slice())
}

// What is sent for a member of an end, which is written so.
fn member_line(
    alloc: Global,
    table: &TypeTable,
    time: u64,
    place: Place<'_>,
    level: Level,
    member: &Member,
    primitive: &Primitive,
) -> Result<Octets, Memory>
    requires { FitsMember table.now (signal primitive.now) (Some member.now) }
    ensures text { IfOk result IsTextLine }
    ensures line { IfOk result (λ o. IsMemberLine table.now time (place_text place.entry) level (signal primitive.now) (Some member.now) o) }
    ensures reads { HasNoTypeEntry table.now → IfOk result (λ o. MemberReads table.now level (signal primitive.now) (Some member.now)) }
{
    match member {
        Member::Parameter(name, id, _) => {
            let values = primitive.arguments.as_slice();
            let spot = Spot {
                time,
                place,
                name: name.as_str(),
            };
            parameter_line(alloc, table, &spot, *id, primitive.op, values)
        }
        Member::Command(name, arguments) => {
            let spot = Spot {
                time,
                place,
                name: name.as_str(),
            };
            sent_command(alloc, table, &spot, level, arguments.as_slice(), primitive)
        }
    }
}

fn sent_line(
    alloc: Global,
    table: &TypeTable,
    plan: &Plan,
    time: u64,
    primitive: &Primitive,
) -> Result<Octets, Memory>
    requires { FitsMember table.now (signal primitive.now) (member_at plan.now primitive.now.end primitive.now.member) }
    ensures text { IfOk result IsTextLine }
    ensures line { IfOk result (λ o. IsSentLine table.now time (text_in plan.now primitive.now.end) (signal primitive.now) (end_in plan.now primitive.now.end) o) }
    ensures reads { HasNoTypeEntry table.now → IfOk result (λ o. SentReads table.now (signal primitive.now) (end_in plan.now primitive.now.end)) }
{
    match sent_at(plan, primitive) {
        Some((end, member)) => {
            let place = place_of_end(plan, primitive.end);
            member_line(alloc, table, time, place, end.level, member, primitive)
        }
        None => unreachable!(),
    }
}

// ---- what goes wrong

fn halt_word(halt: Halt) -> &'static str
    ensures { result.now ≡ word_of_halt halt }
{
    match halt {
        Halt::OutOfRange => "OutOfRange",
        Halt::BadArgument => "BadArgument",
        Halt::Budget => "Budget",
    }
}

fn halt_line(alloc: Global, spot: &Spot<'_>, halt: Halt) -> Result<Octets, Memory>
    ensures text { IfOk result IsTextLine }
    ensures line { IfOk result (λ o. o ≡ line_of_halt spot.now.time (place_text spot.now.place) spot.now.name.now halt) }
{
    let head = front(alloc, spot, "halt")?;
    Ok(line_given(head, halt_word(halt).as_bytes())?)
}

fn halted_line(
    alloc: Global,
    plan: &Plan,
    time: u64,
    comp: CompId,
    machine: u16,
    halt: Halt,
) -> Result<Octets, Memory>
    ensures text { IfOk result IsTextLine }
    ensures line { IfOk result (λ o. o ≡ line_of_halt time (component_at plan.now comp.0).name (name_of_machine (component_at plan.now comp.0) machine) halt) }
{
    let spot = Spot {
        time,
        place: Place::Component(component_name(plan, comp)),
        name: machine_name(plan, comp, machine),
    };
    halt_line(alloc, &spot, halt)
}

fn reject_line(
    alloc: Global,
    table: &TypeTable,
    spot: &Spot<'_>,
    fault: &Fault,
) -> Result<Octets, Memory>
    ensures text { IfOk result IsTextLine }
    ensures line { IfOk result (λ o. o ≡ line_of_reject table.now spot.now.time (place_text spot.now.place) spot.now.name.now fault.now) }
{
    let head = front(alloc, spot, "reject")?;
    let path = path_text(alloc, table, &fault.path)?;
    let reason = fault.reason.name();
    let path = path.as_str();
    let what = format!(in alloc; "{reason} at {path}")?;
    Ok(line_given(head, what.as_str().as_bytes())?)
}

fn rejected_line(
    alloc: Global,
    table: &TypeTable,
    plan: &Plan,
    time: u64,
    end: End,
    member: u16,
    fault: &Fault,
) -> Result<Octets, Memory>
    ensures text { IfOk result IsTextLine }
    ensures line { IfOk result (λ o. o ≡ line_of_reject table.now time (text_in plan.now end) (name_in_end (end_in plan.now end) member) fault.now) }
{
    let spot = Spot {
        time,
        place: place_of_end(plan, end),
        name: member_name_at(plan, end, member),
    };
    reject_line(alloc, table, &spot, fault)
}

// ---- all

/// The line of what a run reports, which begins with its time in nanoseconds: a primitive that is sent, an activity that
/// halts, or a frame that is refused. At an end of the level `subnetwork` a command that carries exactly one argument in its
/// way is written as a frame: the octets of the argument's canonical bits in lower-case hex, the last octet filled with
/// zeros. What else is sent has its values as JSON. Where no entry of the table is named `$type`, as in every sheet, this JSON
/// is read again, over the arguments or the parameter, as the values that were sent. The line is UTF-8, and ends with a line feed.
pub fn print_event(
    alloc: Global,
    table: &TypeTable,
    plan: &Plan,
    event: &Out,
) -> Result<Octets, Memory>
    requires { FitsPlan table.now plan.now (report event.now) }
    ensures text { IfOk result IsTextLine }
    ensures line { IfOk result (λ o. IsEventLine table.now plan.now (report event.now) o) }
    ensures reads { HasNoTypeEntry table.now → IfOk result (λ o. EventReads table.now plan.now (report event.now)) }
{
    match event {
        Out::Sent(time, primitive) => sent_line(alloc, table, plan, *time, primitive),
        Out::Halted(time, comp, machine, halt) => {
            halted_line(alloc, plan, *time, *comp, *machine, *halt)
        }
        Out::Reject(time, end, member, fault) => {
            rejected_line(alloc, table, plan, *time, *end, *member, fault)
        }
    }
}
