//! Programs of types, the splitter, and what constraints leave.

ghost use Rattle.std.specs.Prelude.{◌<◌, ◌≤◌, [], length};
ghost use Rattle.eds_bits.specs.Reader.{view_bits};
ghost use Rattle.eds_types.specs.Overlap.{IsClear};
ghost use Rattle.eds_types.specs.Plain.{Plain};
ghost use Rattle.eds_types.specs.Rules.{IsHollow};
ghost use Rattle.eds_types.specs.Spelling.{Spells};

use eds_base::{Fail, Memory, Reason, TypeId};
use eds_bits::BitView;
use eds_overlap::law::empty_types;
use eds_overlap::solution_sets;
use eds_types::{TypeTable, Value};
use eds_unpack::{Fed, Program, Scratch, Splitter, Taken};
use std::alloc::Global;

// The number that a value is.
fn number_of(value: Option<&Value>) -> Option<i128> {
    match value? {
        Value::Num(n) => Some(*n),
        _ => None,
    }
}

// Whether these are the values of a container's fields, or of the items of a list.
fn are_numbers(values: &[Value], numbers: &[i128]) -> bool {
    values.len() == numbers.len()
        && numbers
            .iter()
            .enumerate()
            .all(|(i, n)| number_of(values.get(i)) == Some(*n))
}

/// Whether the program of the type, and a scratch for it, have so many slots.
pub(super) fn has_slots(
    alloc: Global,
    table: &TypeTable,
    id: TypeId,
    slots: u32,
) -> Result<bool, Memory>
    requires known { id.0 < length table.now }
{
    let program = Program::build(alloc, table, id)?;
    let scratch = Scratch::for_program(alloc, &program)?;
    Ok(program.slots() == slots && scratch.slots() == slots)
}

// The bits of a frame of 8 octets at most.
fn frame<'a>(octets: &'a [u8]) -> BitView<'a>
    requires { length octets.now ≤ 8 }
    ensures { length (view_bits result) ≤ 524288 }
{
    BitView::new(octets)
}

fn is_word(value: &Value) -> bool {
    match value {
        Value::Fields(_, fields) => are_numbers(fields.as_slice(), &[1, 564]),
        _ => false,
    }
}

/// Whether a word of 4 and 12 bits is read, with its size.
pub(super) fn reads(alloc: Global, table: &TypeTable, id: TypeId) -> Result<bool, Memory>
    requires known { id.0 < length table.now }
    requires clear { IsClear table.now id.0 }
{
    let program = Program::build(alloc, table, id)?;
    let mut scratch = Scratch::for_program(alloc, &program)?;
    match program.read(alloc, &mut scratch, frame(&[0x12, 0x34])) {
        Ok((value, bits)) => Ok(is_word(&value) && bits == 16),
        Err(Fail::Named(_)) => Ok(false),
        Err(Fail::Memory) => Err(Memory),
    }
}

// Whether the type has the name.
fn is_named(table: &TypeTable, id: TypeId, name: &str) -> bool {
    match table.rows().get(id.0 as usize) {
        Some(row) => row.name.as_str() == name,
        None => false,
    }
}

/// Whether a packet of housekeeping is recognised with its size, and one of another application refused.
pub(super) fn recognises(alloc: Global, table: &TypeTable, id: TypeId) -> Result<bool, Memory>
    requires known { id.0 < length table.now }
    requires clear { IsClear table.now id.0 }
{
    let program = Program::build(alloc, table, id)?;
    let mut scratch = Scratch::for_program(alloc, &program)?;
    let known = frame(&[0x01, 0x23, 0xC0, 0x05, 0x00, 0x01, 0xBE, 0xEF]);
    let right = match program.recognise(&mut scratch, known) {
        Ok((found, bits)) => is_named(table, found, "Demo/Hk") && bits == 64,
        Err(_) => false,
    };
    let unknown = frame(&[0x01, 0x24, 0xC0, 0x05, 0x00, 0x01, 0xBE, 0xEF]);
    let refused = match program.recognise(&mut scratch, unknown) {
        Ok(_) => false,
        Err(fault) => fault.reason == Reason::NoDerived,
    };
    Ok(right && refused)
}

// ---- a list of numbers of 4 bits, behind an octet that counts them

// Whether it is a list of these numbers.
fn is_list(value: &Value, numbers: &[i128]) -> bool {
    let Value::Fields(_, fields) = value else {
        return false;
    };
    match fields.as_slice() {
        [count, Value::Items(items)] => {
            number_of(Some(count)) == Some(numbers.len() as i128)
                && are_numbers(items.as_slice(), numbers)
        }
        _ => false,
    }
}

// Whether a piece is held.
fn is_held(fed: Fed) -> bool {
    match fed {
        Fed::Took => true,
        Fed::Full => false,
    }
}

/// What was taken: a packet of so many bits, or none.
#[derive(Clone, Copy, PartialEq, Eq)]
enum Next {
    Packet(u32),
    More,
    Fault,
}

fn next_of(taken: &Taken) -> Next {
    match taken {
        Taken::Packet(_, bits) => Next::Packet(*bits),
        Taken::More => Next::More,
        Taken::Fault(_) => Next::Fault,
    }
}

fn take_next(alloc: Global, splitter: &mut Splitter<'_>) -> Result<Next, Memory> {
    let taken = splitter.take(alloc)?;
    Ok(next_of(&taken))
}

// The sizes of all packets that are there, behind those of before; whether more is wanted then.
fn take_all(
    alloc: Global,
    splitter: &mut Splitter<'_>,
    sizes: &mut Vec<u32>,
) -> Result<bool, Memory> {
    for _ in 0..8 {
        match take_next(alloc, splitter)? {
            Next::Packet(bits) => sizes.push(bits)?,
            Next::More => return Ok(true),
            Next::Fault => return Ok(false),
        }
    }
    Ok(false)
}

// Whether four packets and the front of a fifth are cut so, in pieces of so many octets.
fn cuts_in_pieces(alloc: Global, program: &Program<'_>, size: usize) -> Result<bool, Memory>
    requires some { 0 < size }
    requires clear { IsClear program.now.table program.now.id }
    requires some_bits { (v : Plain) → Spells program.now.table program.now.id v [] → ⊥ }
{
    let octets = [0x03, 0xAB, 0xC0, 0x02, 0x12, 0x00, 0x01, 0x70, 0x05];
    let mut splitter = Splitter::new(alloc, program, 8)?;
    let mut sizes = Vec::new(alloc);
    for piece in octets.chunks(size) {
        if !is_held(splitter.feed(piece)) || !take_all(alloc, &mut splitter, &mut sizes)? {
            return Ok(false);
        }
    }
    Ok(
        sizes.as_slice() == [20, 16, 8, 12].as_slice()
            && splitter.rest() == [0x05].as_slice()
            && !splitter.end(),
    )
}

// Whether more is wanted of a front, the packet is taken once it is whole, and then nothing is held.
fn takes_one(alloc: Global, program: &Program<'_>) -> Result<bool, Memory>
    requires clear { IsClear program.now.table program.now.id }
    requires some_bits { (v : Plain) → Spells program.now.table program.now.id v [] → ⊥ }
{
    let mut splitter = Splitter::new(alloc, program, 8)?;
    let fed = is_held(splitter.feed(&[0x03, 0xAB]));
    let wants = take_next(alloc, &mut splitter)? == Next::More;
    let more = is_held(splitter.feed(&[0xC0]));
    let taken = splitter.take(alloc)?;
    let took = match &taken {
        Taken::Packet(value, bits) => is_list(value, &[10, 11, 12]) && *bits == 20,
        _ => false,
    };
    Ok(fed && wants && more && took && splitter.end())
}

// Whether octets are cut by the program as they should be, in pieces of one, two and three; and a piece that is too large is
// refused.
fn splits_by(alloc: Global, program: &Program<'_>) -> Result<bool, Memory>
    requires clear { IsClear program.now.table program.now.id }
    requires some_bits { (v : Plain) → Spells program.now.table program.now.id v [] → ⊥ }
{
    let one = takes_one(alloc, program)?;
    let cut = cuts_in_pieces(alloc, program, 1)?
        && cuts_in_pieces(alloc, program, 2)?
        && cuts_in_pieces(alloc, program, 3)?;
    let mut splitter = Splitter::new(alloc, program, 8)?;
    let full = !is_held(splitter.feed(&[0; 17])) && splitter.end();
    Ok(one && cut && full)
}

/// Whether octets are cut into packets as they should be by the type, which is such a list.
pub(super) fn splits(alloc: Global, table: &TypeTable, id: TypeId) -> Result<bool, Memory>
    requires known { id.0 < length table.now }
    requires clear { IsClear table.now id.0 }
    requires solid { ¬ (IsHollow table.now id.0) }
{
    empty_types();
    table.keeps_rules();
    let program = Program::build(alloc, table, id)?;
    splits_by(alloc, &program)
}

/// Whether the constraints of the container leave the number 1 alone of one entry.
pub(super) fn leaves_one_number(
    alloc: Global,
    table: &TypeTable,
    id: TypeId,
) -> Result<bool, Memory> {
    let sets = solution_sets(alloc, table, id)?;
    match sets.as_slice() {
        [one] => {
            Ok(one.path.len() == 1 && one.set.holds(1) && !one.set.holds(0) && !one.set.holds(2))
        }
        _ => Ok(false),
    }
}
