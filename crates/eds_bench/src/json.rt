//! The packets as JSON.

ghost use Rattle.std.specs.Prelude.{◌≡◌, ◌<◌, length};
ghost use Rattle.eds_types.specs.Overlap.{IsClear};

use crate::packet_sheet::packet_sheet;
use crate::sequence::{PACKET_OCTETS, Sequence};
use crate::unpacked::{Stop, unpack_packet};
use eds_base::{Fail, Fault, Memory, Octets, TypeId};
use eds_overlap::law::canonical_spelling;
use eds_types::TypeTable;
use eds_unpack::Segments;
use eds_value::to_json;
use std::alloc::Global;

/// How many octets the JSON of packets has, and that of the last packet.
#[derive(Drop)]
pub(crate) struct PacketJson {
    pub(crate) octets: u64,
    pub(crate) last: String,
}

// The JSON of the octets of a packet.
fn packet_json(
    alloc: Global,
    table: &TypeTable,
    segments: &Segments<'_>,
    id: TypeId,
    octets: &[u8],
) -> Result<Octets, Fail<Fault>>
    requires segments { segments.now ≡ table.now }
    requires known { id.0 < length table.now }
    requires clear { IsClear table.now id.0 }
    requires packet { length octets.now ≡ PACKET_OCTETS }
{
    table.keeps_rules();
    canonical_spelling();
    let packet = unpack_packet(alloc, table, segments, id, octets)?;
    Ok(to_json(alloc, table, id, &packet)?)
}

// The octets as a text. What `to_json` writes is one.
fn text_of(octets: Octets) -> Result<String, Memory> {
    match String::from_utf8(octets.into_vec()) {
        Ok(text) => Ok(text),
        Err(_) => Err(Memory),
    }
}

fn json_of_packets(
    alloc: Global,
    table: &TypeTable,
    id: TypeId,
    count: u32,
) -> Result<PacketJson, Fail<Fault>>
    requires known { id.0 < length table.now }
    requires clear { IsClear table.now id.0 }
{
    let segments = Segments::of(alloc, table)?;
    let mut sequence = Sequence::new();
    let mut octets: u64 = 0;
    let mut last = Octets::new(alloc);
    for _ in 0..count {
        let packet = sequence.next_packet();
        last = packet_json(alloc, table, &segments, id, &packet)?;
        octets = octets.wrapping_add(last.len() as u64);
    }
    Ok(PacketJson {
        octets,
        last: text_of(last)?,
    })
}

/// The JSON of so many packets, written one after the other.
pub(crate) fn json_of(alloc: Global, count: u32) -> Result<PacketJson, Stop> {
    let sheet = match packet_sheet(alloc) {
        Ok(sheet) => sheet,
        Err(Fail::Named(_)) => return Err(Stop::Refused),
        Err(Fail::Memory) => return Err(Stop::Memory),
    };
    let id = match sheet.asked_type {
        Some(id) => id,
        None => unreachable!(),
    };
    match json_of_packets(alloc, &sheet.table, id, count) {
        Ok(json) => Ok(json),
        Err(fail) => Err(Stop::of(fail)),
    }
}
