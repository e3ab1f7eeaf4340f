//! Packets unpacked by the sheet.

ghost use Rattle.std.specs.Prelude.{◌≡◌, ◌<◌, IfOk, length};
ghost use Rattle.eds_bits.specs.Bits.{Bits};
ghost use Rattle.eds_types.specs.Overlap.{IsClear};
ghost use Rattle.eds_types.specs.Plain.{plain};
ghost use Rattle.eds_types.specs.Spelling.{Spells};

use crate::packet_sheet::packet_sheet;
use crate::sequence::{PACKET_OCTETS, Sequence};
use crate::sum::Sum;
use eds_base::{Fail, Fault, TypeId};
use eds_bits::BitView;
use eds_types::{TypeTable, Value};
use eds_unpack::{Segments, unpack_by};
use std::alloc::Global;
use std::fmt;

/// Why there is no sum.
#[derive(Clone, Copy, PartialEq, Eq)]
pub(crate) enum Stop {
    /// The sheet breaks a rule.
    Refused,
    /// A packet has no reading.
    Unreadable,
    /// An allocation was refused.
    Memory,
}

impl Stop {
    /// Why a packet is not read.
    pub(crate) fn of(fail: Fail<Fault>) -> Stop {
        match fail {
            Fail::Named(_) => Stop::Unreadable,
            Fail::Memory => Stop::Memory,
        }
    }
}

impl fmt::Display for Stop {
    fn fmt<W: fmt::Write>(&self, f: &mut fmt::Formatter<W>) -> fmt::Result {
        f.write_str(match self {
            Stop::Refused => "the sheet is refused",
            Stop::Unreadable => "a packet is unreadable",
            Stop::Memory => "an allocation was refused",
        })
    }
}

/// The value of the octets of a packet.
#[tactic(auto, using(crate::proofs::Views::packets_are_short))]
pub(crate) fn unpack_packet(
    alloc: Global,
    table: &TypeTable,
    segments: &Segments<'_>,
    id: TypeId,
    octets: &[u8],
) -> Result<Value, Fail<Fault>>
    requires segments { segments.now ≡ table.now }
    requires known { id.0 < length table.now }
    requires clear { IsClear table.now id.0 }
    requires packet { length octets.now ≡ PACKET_OCTETS }
    ensures { IfOk result (λ v. (bits : Bits) × Spells table.now id.0 (plain v) bits) }
{
    let (packet, _) = unpack_by(alloc, table, segments, id, BitView::new(octets))?;
    Ok(packet)
}

// What so many packets of a type add up to.
fn sum_of_packets(
    alloc: Global,
    table: &TypeTable,
    id: TypeId,
    count: u32,
) -> Result<u64, Fail<Fault>>
    requires known { id.0 < length table.now }
    requires clear { IsClear table.now id.0 }
{
    let segments = Segments::of(alloc, table)?;
    let mut sequence = Sequence::new();
    let mut sum = Sum::new();
    for _ in 0..count {
        let octets = sequence.next_packet();
        let packet = unpack_packet(alloc, table, &segments, id, &octets)?;
        sum.add_packet(&packet);
    }
    Ok(sum.total)
}

/// What so many packets add up to, unpacked one after the other.
pub(crate) fn sum_of(alloc: Global, count: u32) -> Result<u64, Stop> {
    let sheet = match packet_sheet(alloc) {
        Ok(sheet) => sheet,
        Err(Fail::Named(_)) => return Err(Stop::Refused),
        Err(Fail::Memory) => return Err(Stop::Memory),
    };
    let id = match sheet.asked_type {
        Some(id) => id,
        None => unreachable!(),
    };
    match sum_of_packets(alloc, &sheet.table, id, count) {
        Ok(sum) => Ok(sum),
        Err(fail) => Err(Stop::of(fail)),
    }
}
