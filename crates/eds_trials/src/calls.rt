//! Public calls that neither a command nor a test makes: each answers here as it is told to.

mod activities;
mod interfaces;
mod packets;

ghost use Rattle.std.specs.Prelude.{◌<◌, length};
ghost use Rattle.eds_read_comp.specs.Together.{HoldsTogether};
ghost use Rattle.eds_types.specs.Overlap.{IsClear};
ghost use Rattle.eds_types.specs.Rules.{IsHollow};

use crate::sheet::sheet_of;
use eds_base::{Fail, Memory, TypeId};
use eds_sheet::Sheet;
use std::alloc::Global;

/// A call that is tried over a sheet and a type.
#[derive(Clone, Copy)]
enum Call {
    /// The program of the type and its scratch have so many slots.
    Slots(u32),
    /// Frames are read by a program.
    Reads,
    /// The containers of frames are recognised by a program.
    Recognises,
    /// Octets are cut into packets.
    Splits,
    /// The numbers that the constraints of a container leave.
    Sets,
    /// The members of an interface.
    Resolves,
    /// The transitions of a machine from a state on a trigger.
    Matches,
    /// An activity is run.
    Acts,
}

// The call that words say: its name, and behind `slots` a number.
fn call_of(words: &[&str]) -> Option<Call> {
    let [name, more @ ..] = words else {
        return None;
    };
    match *name {
        "slots" => Some(Call::Slots(more.first()?.parse::<u32>().ok()?)),
        "reads" => Some(Call::Reads),
        "recognises" => Some(Call::Recognises),
        "splits" => Some(Call::Splits),
        "sets" => Some(Call::Sets),
        "resolves" => Some(Call::Resolves),
        "matches" => Some(Call::Matches),
        "acts" => Some(Call::Acts),
        _ => None,
    }
}

fn answers(alloc: Global, call: Call, text: &str, sheet: &Sheet, id: TypeId) -> Result<bool, Memory>
    requires known { id.0 < length sheet.now.table }
    requires clear { IsClear sheet.now.table id.0 }
    requires solid { ¬ (IsHollow sheet.now.table id.0) }
    requires together { HoldsTogether sheet.now.table sheet.now.plan }
{
    let table = &sheet.table;
    let plan = &sheet.plan;
    match call {
        Call::Slots(slots) => packets::has_slots(alloc, table, id, slots),
        Call::Reads => packets::reads(alloc, table, id),
        Call::Recognises => packets::recognises(alloc, table, id),
        Call::Splits => packets::splits(alloc, table, id),
        Call::Sets => packets::leaves_one_number(alloc, table, id),
        Call::Resolves => interfaces::resolves(alloc, text, table),
        Call::Matches => Ok(activities::matches(plan)),
        Call::Acts => activities::acts(alloc, table, plan),
    }
}

/// Whether the call of a line answers as it should, over the text of the line's sheet: the line has the file, the qualified
/// name of a type, and the call.
pub(crate) fn call_answers(alloc: Global, text: &str, line: &str) -> Result<bool, Memory> {
    let words: Vec<&str> = line.split(' ').collect(alloc)?;
    let [_, name, rest @ ..] = words.as_slice() else {
        return Ok(false);
    };
    let Some(call) = call_of(rest) else {
        return Ok(false);
    };
    let sheet = match sheet_of(alloc, text, name) {
        Ok(sheet) => sheet,
        Err(Fail::Named(_)) => return Ok(false),
        Err(Fail::Memory) => return Err(Memory),
    };
    match sheet.asked_type {
        Some(id) => answers(alloc, call, text, &sheet, id),
        None => Ok(false),
    }
}
