//! A frame that is unpacked or recognised again and again by a sheet. Both come from files.

ghost use Rattle.std.specs.Prelude.{◌≡◌, ◌<◌, ◌≤◌, ◌^◌, IfOk, IfSome, IsSomeAnd, Some, length};
ghost use Rattle.std.specs.List.{All};
ghost use Rattle.eds_types.specs.Overlap.{IsClear};

use crate::unpacked::Stop;
use eds_base::{Fail, Fault, Items, Octets, TypeId};
use eds_bits::BitView;
use eds_io::{Shelf, read_whole};
use eds_sheet::{Sheet, compile};
use eds_types::{TypeTable, Value};
use eds_unpack::{Program, Scratch};
use std::alloc::Global;

const SHEET_OCTETS: u64 = 4_194_304;

const FRAME_OCTETS: u64 = 65_536;

/// The type that the frame is of, the files of the frame and of the sheet, how often the frame is unpacked, and whether it is
/// only recognised.
#[derive(Drop)]
pub(crate) struct Task {
    pub(crate) type_name: String,
    pub(crate) frame: String,
    pub(crate) sheet: String,
    pub(crate) turns: u32,
    pub(crate) recognised: bool,
}

fn octets_in<S: Shelf>(alloc: Global, shelf: &mut S, name: &str, most: u64) -> Result<Octets, Stop>
    ensures { IfOk result (λ o. length o ≤ most) }
{
    match read_whole(alloc, shelf, name, most) {
        Ok(octets) => Ok(octets),
        Err(Fail::Memory) => Err(Stop::Memory),
        Err(Fail::Named(_)) => Err(Stop::Unreadable),
    }
}

fn sheet_of(alloc: Global, octets: Octets, type_name: &str) -> Result<Sheet, Stop>
    requires { length octets < 2 ^ 32 }
    ensures known { IfOk result (λ sheet. IsSomeAnd sheet.asked_type (λ id. id.0 < length sheet.table)) }
    ensures clear { IfOk result (λ sheet. IfSome sheet.asked_type (λ id. IsClear sheet.table id.0)) }
{
    let mut files = Items::new(alloc);
    if files.push(octets).is_err() {
        return Err(Stop::Memory);
    }
    match compile(alloc, &files, Some(type_name)) {
        Ok(sheet) => Ok(sheet),
        Err(Fail::Named(_)) => Err(Stop::Refused),
        Err(Fail::Memory) => Err(Stop::Memory),
    }
}

// How many parts a value has.
fn parts(value: &Value) -> u64 {
    match value {
        Value::Items(items) => items.len() as u64,
        Value::Fields(_, fields) => fields.len() as u64,
        _ => 0,
    }
}

// How many parts a value and its parts have.
fn weight(value: &Value) -> u64 {
    let mut weight = parts(value);
    if let Value::Fields(_, fields) = value {
        for field in fields {
            weight = weight.wrapping_add(parts(field));
        }
    }
    weight
}

// What the values of so many turns add up to.
#[tactic(auto, using(crate::proofs::Views::frames_are_short))]
fn sum_of_turns(
    alloc: Global,
    table: &TypeTable,
    id: TypeId,
    frame: &[u8],
    turns: u32,
) -> Result<u64, Fail<Fault>>
    requires known { id.0 < length table.now }
    requires clear { IsClear table.now id.0 }
    requires few { length frame.now ≤ FRAME_OCTETS }
{
    let program = Program::build(alloc, table, id)?;
    let mut scratch = Scratch::for_program(alloc, &program)?;
    let mut sum = 0u64;
    for _ in 0..turns {
        let (value, bits) = program.read(alloc, &mut scratch, BitView::new(frame))?;
        sum = sum
            .wrapping_add(u64::from(bits))
            .wrapping_add(weight(&value));
    }
    Ok(sum)
}

// What the bits of the values of so many turns add up to.
#[tactic(auto, using(crate::proofs::Views::frames_are_short))]
fn sum_recognised(
    alloc: Global,
    table: &TypeTable,
    id: TypeId,
    frame: &[u8],
    turns: u32,
) -> Result<u64, Fail<Fault>>
    requires known { id.0 < length table.now }
    requires clear { IsClear table.now id.0 }
    requires few { length frame.now ≤ FRAME_OCTETS }
{
    let program = Program::build(alloc, table, id)?;
    let mut scratch = Scratch::for_program(alloc, &program)?;
    let mut sum = 0u64;
    for _ in 0..turns {
        match program.recognise(&mut scratch, BitView::new(frame)) {
            Ok((_, bits)) => sum = sum.wrapping_add(u64::from(bits)),
            Err(fault) => return Err(Fail::Named(fault)),
        }
    }
    Ok(sum)
}

/// What the frame's values add up to, modulo 2^64: each time the bits of the value, and, unless it is only recognised, how many
/// parts it and its parts have.
pub(crate) fn sum_of_frame<S: Shelf>(
    alloc: Global,
    shelf: &mut S,
    task: &Task,
) -> Result<u64, Stop> {
    let octets = octets_in(alloc, shelf, task.sheet.as_str(), SHEET_OCTETS)?;
    let frame = octets_in(alloc, shelf, task.frame.as_str(), FRAME_OCTETS)?;
    let sheet = sheet_of(alloc, octets, task.type_name.as_str())?;
    let id = match sheet.asked_type {
        Some(id) => id,
        None => unreachable!(),
    };
    let frame = frame.as_slice();
    let sum = if task.recognised {
        sum_recognised(alloc, &sheet.table, id, frame, task.turns)
    } else {
        sum_of_turns(alloc, &sheet.table, id, frame, task.turns)
    };
    match sum {
        Ok(sum) => Ok(sum),
        Err(fail) => Err(Stop::of(fail)),
    }
}
