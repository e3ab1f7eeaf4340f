//! The packet at the front of octets.

ghost use Rattle.std.specs.Prelude.{◌≡◌, IfErr, IfOk, IfSome, List, Some, map, take};
ghost use Rattle.eds_bits.specs.Bits.{octets_for as octets_filled};
ghost use Rattle.eds_cmd.specs.Split.{FailsFor, HoldsPacket, packet_failure};
ghost use Rattle.eds_cmd.specs.Target.{type_in};
ghost use Rattle.eds_types.specs.Plain.{Plain, fields, plain, plains_of};
ghost use Rattle.eds_unpack.specs.Scalars.{plain_of};

use crate::limits::PACKET_OCTETS;
use crate::packet_type::PacketType;
use eds_base::{Fail, Fault, Memory, Path, Reason, TypeId};
use eds_bits::BitView;
use eds_overlap::law::empty_types;
use eds_types::Value;
use eds_unpack::{Entries, FaultRoom, Scalar, entries_by, scalars_by, unpack_in, value_by};
use std::alloc::Global;

// As many octets as a packet may have, or all where there are fewer.
fn window(octets: &[u8]) -> &[u8]
    ensures { result.now ≡ take PACKET_OCTETS octets.now }
{
    if octets.len() > PACKET_OCTETS {
        &octets[..PACKET_OCTETS]
    } else {
        octets
    }
}

// The fault of a packet, where reading the octets at its front fails so: too few bits in as many octets as a packet may have are
// too long a packet.
fn packet_fails(fault: Fault, octets: usize) -> Fault
    ensures { result ≡ packet_failure fault octets }
{
    match fault.reason {
        Reason::Short if octets >= PACKET_OCTETS => Fault {
            reason: Reason::TooLong,
            path: Path::root(),
        },
        _ => fault,
    }
}

// How many octets so many bits fill, the last one with up to 7 further bits.
fn octets_for(bits: u32) -> usize
    ensures { result ≡ octets_filled bits }
{
    bits.div_ceil(8) as usize
}

/// The value of the packet at the front of octets, and how many octets it has. The room serves for the path of a fault.
pub fn packet_at(
    alloc: Global,
    packet_type: &PacketType<'_, '_>,
    octets: &[u8],
    room: &mut FaultRoom,
) -> Result<(Value, usize), Fail<Fault>>
    ensures packet { IfOk result (λ x. HoldsPacket (type_in packet_type.now.target) (plain x.0) octets.now x.1) }
    ensures fault { IfErr result (FailsFor (type_in packet_type.now.target) octets.now) }
{
    let target = packet_type.target;
    target.table.keeps_rules();
    empty_types();
    let view = BitView::new(window(octets));
    match unpack_in(
        alloc,
        target.table,
        packet_type.segments,
        target.id,
        view,
        room,
    ) {
        Ok((value, size)) => Ok((value, octets_for(size))),
        Err(Fail::Named(fault)) => Err(Fail::Named(packet_fails(fault, octets.len()))),
        Err(Fail::Memory) => Err(Fail::Memory),
    }
}

/// The value of the packet at the front of octets, and how many octets it has. None, where `value_by` gives none. The room is that
/// of `packet_at`.
pub fn value_at(
    alloc: Global,
    packet_type: &PacketType<'_, '_>,
    octets: &[u8],
    room: &mut FaultRoom,
) -> Result<Option<(Value, usize)>, Memory>
    ensures { IfOk result (λ o. IfSome o (λ x. HoldsPacket (type_in packet_type.now.target) (plain x.0) octets.now x.1)) }
{
    let target = packet_type.target;
    target.table.keeps_rules();
    empty_types();
    let view = BitView::new(window(octets));
    match value_by(
        alloc,
        target.table,
        packet_type.segments,
        target.id,
        view,
        room,
    )? {
        Some((value, size)) => Ok(Some((value, octets_for(size)))),
        None => Ok(None),
    }
}

/// The scalars of the packet at the front of octets, put into a room, with the container that it is, and how many octets it has.
/// None, where `scalars_by` doesn't tell them.
pub fn scalars_at<'a>(
    packet_type: &PacketType<'_, 'a>,
    octets: &'a [u8],
    room: &mut Vec<Scalar<'a>>,
) -> Result<Option<(TypeId, usize)>, Memory>
    ensures { IfOk result (λ o. IfSome o (λ x. HoldsPacket (type_in packet_type.now.target) (fields (x.0).0 (plains_of (map plain_of room.new.items))) octets.now x.1)) }
{
    let target = packet_type.target;
    target.table.keeps_rules();
    empty_types();
    let view = BitView::new(window(octets));
    match scalars_by(packet_type.segments, target.id, view, room)? {
        Some((found, size)) => Ok(Some((found, octets_for(size)))),
        None => Ok(None),
    }
}

/// The entries of the packet at the front of octets, and how many octets it has where the bits of each entry say something. None,
/// where `entries_by` doesn't give them.
#[inline(always)]
pub fn entries_at<'v, 'a>(
    packet_type: &PacketType<'v, 'a>,
    octets: &'v [u8],
) -> Option<(Entries<'v, 'a>, usize)>
    ensures { (vs : List Plain) → IfSome result (λ x. x.0 ≡ map Some vs → HoldsPacket (type_in packet_type.now.target) (fields packet_type.now.target.id.0 (plains_of vs)) octets.now x.1) }
{
    let target = packet_type.target;
    target.table.keeps_rules();
    empty_types();
    let view = BitView::new(window(octets));
    match entries_by(packet_type.segments, target.id, view) {
        Some((entries, size)) => Some((entries, octets_for(size))),
        None => None,
    }
}
