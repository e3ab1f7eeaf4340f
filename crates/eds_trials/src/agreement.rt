//! Reader and packer against the plain program.

ghost use Rattle.std.specs.Prelude.{◌<◌, ◌≤◌, length, IfOk};
ghost use Rattle.eds_bits.specs.Reader.{view_bits};
ghost use Rattle.eds_types.specs.Overlap.{IsClear};

use crate::census::lists_of;
use crate::slow::{Slow, Spelling, bits_of};
use eds_base::{Fail, Fault, Memory, TypeId};
use eds_bits::BitView;
use eds_pack::{conforms, pack, pack_into, packed_bits};
use eds_types::{PackReason, TypeTable, Value};
use eds_unpack::{Program, Scratch, unpack};
use std::alloc::Global;

/// What reader and packer do with a type.
#[derive(Clone, Copy)]
pub(crate) struct Packing {
    /// How many lists of so many bits at most are read as a value.
    pub(crate) reads: u32,
    /// How many values pack into so many bits at most.
    pub(crate) packed: u32,
    /// How many numbers the constraints and lists of the type's table ask for.
    pub(crate) slots: u32,
    /// How many of the lists don't begin with a spelling of their value, or are recognised as something else than what is
    /// read, how many values pack into bits that are not their canonical spelling, and of how many scalar values and numbers
    /// it is wrong whether they pack.
    pub(crate) faults: u32,
}

/// What the packer does with a value.
#[derive(Clone, Copy)]
enum Packed {
    /// It gives the canonical spelling, of so many bits.
    Rightly(u32),
    /// It refuses the value.
    Refused,
    /// It gives other bits, or its calls contradict each other.
    Wrongly,
}

// The octets hold the canonical spelling of the value, and zeros behind it.
fn hold_spelling(
    alloc: Global,
    table: &TypeTable,
    id: TypeId,
    value: &Value,
    octets: &[u8],
    size: u32,
) -> Result<bool, Memory> {
    let bits = bits_of(alloc, octets)?;
    let (Some(spelling), Some(rest)) = (bits.get(..size as usize), bits.get(size as usize..)) else {
        return Ok(false);
    };
    let slow = Slow::of_rows(alloc, table.rows(), Spelling::Canonical);
    Ok(slow.spells(id, value, spelling)? && rest.len() < 8 && !rest.contains(&true))
}

// Whether the value is packed into lent room of just these octets, and into no less.
fn fills_room(
    alloc: Global,
    table: &TypeTable,
    id: TypeId,
    value: &Value,
    octets: &[u8],
) -> Result<bool, Memory>
    requires known { id.0 < length table.now }
{
    let mut room = vec![in alloc; 0xAAu8; octets.len()]?;
    let fits = pack_into(table, id, value, room.as_mut_slice()).is_ok()
        && room.as_slice() == octets;
    let mut small = vec![in alloc; 0xAAu8; octets.len().saturating_sub(1)]?;
    let wants = match pack_into(table, id, value, small.as_mut_slice()) {
        Ok(_) => octets.is_empty(),
        Err(fail) => fail.reason == PackReason::Room && fail.need as usize == octets.len(),
    };
    Ok(fits && wants && small.iter().all(|octet| *octet == 0xAA))
}

// What becomes of a value that is packed.
fn outcome_of_packing(
    alloc: Global,
    table: &TypeTable,
    id: TypeId,
    value: &Value,
) -> Result<Packed, Memory>
    requires known { id.0 < length table.now }
{
    let size = packed_bits(table, id, value).ok();
    if conforms(table, id, value) != size.is_some() {
        return Ok(Packed::Wrongly);
    }
    match pack(alloc, table, id, value) {
        Ok((octets, bits)) => {
            let is_right = size == Some(bits)
                && hold_spelling(alloc, table, id, value, octets.as_slice(), bits)?
                && fills_room(alloc, table, id, value, octets.as_slice())?;
            Ok(if is_right {
                Packed::Rightly(bits)
            } else {
                Packed::Wrongly
            })
        }
        Err(Fail::Named(_)) if size.is_none() => Ok(Packed::Refused),
        Err(Fail::Named(_)) => Ok(Packed::Wrongly),
        Err(Fail::Memory) => Err(Memory),
    }
}

impl Packing {
    // Counts what became of a value.
    fn count(&mut self, outcome: Packed, value: &Value, most: usize) {
        match outcome {
            Packed::Rightly(bits) => {
                self.packed = self.packed.wrapping_add(u32::from(bits as usize <= most));
            }
            Packed::Refused => {
                self.faults = self.faults.wrapping_add(u32::from(always_packs(value)));
            }
            Packed::Wrongly => self.faults = self.faults.wrapping_add(1),
        }
    }
}

// Whether each value of a type packs that has the parts of this one: fields may break a constraint or leave no number for a
// length entry.
fn always_packs(value: &Value) -> bool {
    !matches!(value, Value::Fields(_, _) | Value::Items(_))
}

fn has_number(values: &[Value], number: i128) -> bool {
    values.iter().any(|value| match value {
        Value::Num(n) => *n == number,
        _ => false,
    })
}

// How many small numbers pack and are none of the values, or don't and are one.
fn numbers_amiss(table: &TypeTable, id: TypeId, values: &[Value]) -> u32
    requires known { id.0 < length table.now }
{
    let mut amiss = 0u32;
    for count in 0..600u32 {
        let number = i128::from(count).wrapping_sub(300);
        let packs = conforms(table, id, &Value::Num(number));
        if packs != has_number(values, number) {
            amiss = amiss.wrapping_add(1);
        }
    }
    amiss
}

// The bits of the octets behind the first ones; want of memory where there aren't so many.
fn behind<'a>(octets: &'a [u8], bits: u64) -> Result<BitView<'a>, Memory>
    ensures { IfOk result (λ view. length (view_bits view) ≤ 524288) }
{
    if octets.len() > 65_536 {
        return Err(Memory);
    }
    if bits > 8 * octets.len() as u64 {
        return Err(Memory);
    }
    Ok(BitView::new(octets).after(bits))
}

// ---- recognising

fn is_same_fault(one: &Fault, other: &Fault) -> bool {
    for step in 0..64 {
        if one.path.get(step) != other.path.get(step) {
            return false;
        }
    }
    one.reason == other.reason
}

// The most derived container of a value of the type, or the type.
fn type_of(id: TypeId, value: &Value) -> TypeId {
    match value {
        Value::Fields(container, _) => *container,
        _ => id,
    }
}

// Whether the program tells of bits what was read of them, and the scratch has just its slots.
fn recognises(
    program: &Program<'_>,
    scratch: &mut Scratch,
    id: TypeId,
    view: BitView,
    outcome: &Result<(Value, u32), Fail<Fault>>,
) -> bool
    requires clear { IsClear program.now.table program.now.id }
    requires most { length (view_bits view) ≤ 524288 }
{
    if scratch.slots() != program.slots() {
        return false;
    }
    match program.recognise(scratch, view) {
        Ok((found, bits)) => match outcome {
            Ok((value, taken)) => found == type_of(id, value) && bits == *taken,
            Err(_) => false,
        },
        Err(fault) => match outcome {
            Err(Fail::Named(other)) => is_same_fault(&fault, other),
            _ => false,
        },
    }
}

// Whether the last bits of the octets, so many of them, are read as a value, and whether it is one that they begin with,
// and they are recognised as it.
fn read(
    alloc: Global,
    table: &TypeTable,
    id: TypeId,
    program: &Program<'_>,
    scratch: &mut Scratch,
    octets: [u8; 8],
    size: u64,
) -> Result<(bool, bool), Memory>
    requires known { id.0 < length table.now }
    requires clear { IsClear table.now id.0 }
    requires ready { IsClear program.now.table program.now.id }
{
    let others = 64u64.saturating_sub(size);
    let view = behind(&octets, others)?;
    let outcome = unpack(alloc, table, id, view);
    let agrees = recognises(program, scratch, id, view, &outcome);
    match outcome {
        Ok((value, taken)) => {
            let bits = bits_of(alloc, &octets)?;
            let from = others as usize;
            let slow = Slow::of_rows(alloc, table.rows(), Spelling::Any);
            match bits.get(from..from.saturating_add(taken as usize)) {
                Some(front) => Ok((true, slow.spells(id, &value, front)? && agrees)),
                None => Ok((true, false)),
            }
        }
        Err(Fail::Named(_)) => Ok((false, agrees)),
        Err(Fail::Memory) => Err(Memory),
    }
}

/// What reader and packer do with all listed values of a type, with small numbers, and with all lists of so many bits at
/// most.
pub(crate) fn agreement(
    alloc: Global,
    table: &TypeTable,
    id: TypeId,
    most: usize,
) -> Result<Packing, Memory>
    requires known { id.0 < length table.now }
    requires clear { IsClear table.now id.0 }
{
    let slow = Slow::of_rows(alloc, table.rows(), Spelling::Any);
    let values = slow.values(id)?;
    let program = Program::build(alloc, table, id)?;
    let mut scratch = Scratch::for_program(alloc, &program)?;
    let mut agreed = Packing {
        reads: 0,
        packed: 0,
        slots: program.slots(),
        faults: numbers_amiss(table, id, values.as_slice()),
    };
    for value in values.iter() {
        agreed.count(outcome_of_packing(alloc, table, id, value)?, value, most);
    }
    for size in 0..most.wrapping_add(1) {
        for number in 0..lists_of(size) {
            let octets = number.to_be_bytes();
            let (is_read, agrees) = read(
                alloc,
                table,
                id,
                &program,
                &mut scratch,
                octets,
                size as u64,
            )?;
            agreed.reads = agreed.reads.wrapping_add(u32::from(is_read));
            agreed.faults = agreed.faults.wrapping_add(u32::from(!agrees));
        }
    }
    Ok(agreed)
}
