//! From octets that hold packets to the report on their values.

ghost use Rattle.std.specs.Prelude.{◌≡◌, ◌≤◌, IfOk, string_bytes, length};
ghost use Rattle.eds_cmd.specs.Endings.{EndsAs, UpToLimit};
ghost use Rattle.eds_cmd.specs.Split.{Splits, packets_line as line_of_packets};
ghost use Rattle.eds_cmd.specs.Target.{IsKnown, type_in};

use crate::limits::PACKETS_OCTETS;
use crate::packet_line::{Rooms, take_packet, take_value};
use crate::packet_type::PacketType;
use crate::stop::{Stop, packet_fault};
use crate::target::Target;
use eds_base::Fail;
use eds_unpack::Segments;
use eds_value::Layouts;
use std::alloc::{AllocError, Global};

// The line that counts packets and octets.
fn packets_line(alloc: Global, packets: u32, octets: usize) -> Result<String, AllocError>
    ensures { IfOk result (λ s. string_bytes s ≡ line_of_packets packets octets) }
{
    Ok(format!(in alloc; "packets {packets} octets {octets}\n")?)
}

/// The report on the packets that octets hold one after another: a line of JSON for the value of each, and how many packets and
/// octets there are. Each packet begins at an octet, and up to 7 bits fill its last one. The first packet that can't be read is
/// told with its number. Where the report gets longer than a report may be, packets are read on, but their lines are left out: the
/// packet that fails comes before the limit.
pub fn split<'a>(alloc: Global, target: &Target<'a>, octets: &'a [u8]) -> Result<String, Fail<Stop>>
    requires known { IsKnown (type_in target.now) }
    requires few { length octets.now ≤ PACKETS_OCTETS }
    ensures { EndsAs string_bytes (UpToLimit (Splits (type_in target.now) octets.now)) result }
{
    let segments = Segments::of(alloc, target.table)?;
    let layouts = Layouts::of(alloc, target.table)?;
    let packet_type = PacketType {
        target: *target,
        segments: &segments,
        layouts: &layouts,
    };
    let mut rooms = Rooms::new(alloc);
    let mut report = String::new(alloc);
    let mut packets = 0u32;
    let mut at = 0usize;
    while at < octets.len() {
        let rest = &octets[at..];
        let taken = take_value(alloc, &packet_type, rest, &mut rooms, &mut report)?;
        let size = match taken {
            Some(size) => size,
            None => match take_packet(alloc, &packet_type, rest, &mut rooms, &mut report) {
                Ok(size) => size,
                Err(Fail::Named(fault)) => {
                    return Err(Fail::Named(packet_fault(alloc, target.table, packets + 1, fault)?));
                }
                Err(Fail::Memory) => return Err(Fail::Memory),
            },
        };
        packets += 1;
        at += size;
    }
    let line = packets_line(alloc, packets, octets.len())?;
    report.push_str(line.as_str())?;
    Ok(report)
}
