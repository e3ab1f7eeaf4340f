//! The line of the packet at the front of octets.

ghost use Rattle.std.specs.Prelude.{◌≡◌, ◌<◌, ◌++◌, ℕ, All, IfErr, IfNone, IfOk, IfSome, List, OnOk, Some, codes, length, map, nat_le, slice_get, string_bytes};
ghost use Rattle.std.specs.Bool.{OnTrue};
ghost use Rattle.eds_bits.specs.Bits.{Bits};
ghost use Rattle.eds_cmd.specs.Limits.{report_octets};
ghost use Rattle.eds_cmd.specs.Split.{FailsFor, HoldsPacket, PutsLine, TakesPacket};
ghost use Rattle.eds_cmd.specs.Target.{type_in};
ghost use Rattle.eds_types.specs.Plain.{Plain, plain};
ghost use Rattle.eds_types.specs.Rows.{Table};
ghost use Rattle.eds_types.specs.Spelling.{Spells};
ghost use Rattle.eds_unpack.specs.Scalars.{plain_of};
ghost use Rattle.eds_value.specs.JsonOfValue.{json_of_value, json_text};
ghost use Rattle.eds_value.specs.Layouts.{HasPosition, laid_text};

use crate::limits::REPORT_OCTETS;
use crate::packet::{entries_at, packet_at, scalars_at, value_at};
use crate::packet_type::PacketType;
use eds_base::{Fail, Fault, Memory};
use eds_overlap::law::canonical_spelling;
use eds_types::Value;
use eds_unpack::{Entries, FaultRoom, Scalar};
use eds_value::{Layout, Line, Piece, put_json};
use std::alloc::Global;

/// What serves for one packet after another.
#[derive(Drop)]
pub struct Rooms<'a> {
    /// The scalars and texts of a packet that has nothing else.
    pub scalars: Vec<Scalar<'a>>,
    /// The text of its line.
    pub line: Line,
    /// The path of a fault.
    pub fault: FaultRoom,
}

impl<'a> Rooms<'a> {
    /// Rooms that are empty.
    pub fn new(alloc: Global) -> Rooms<'a> {
        Rooms {
            scalars: Vec::new(alloc),
            line: Line::new(alloc),
            fault: FaultRoom::new(),
        }
    }
}

// Puts the JSON text of a scalar first onto a line.
#[inline(always)]
fn put_scalar(alloc: Global, scalar: Scalar<'_>, line: &mut Line) -> Result<(), Memory>
    ensures { (t : Table) → OnOk result (line.new ≡ json_text t (plain_of scalar.entry) ++ line.old) }
{
    match scalar {
        Scalar::Num(number) => Ok(line.put_short(number)?),
        Scalar::Large(number) => Ok(line.put_number(i128::from(number))?),
        Scalar::Label(label) => line.put_quoted(alloc, label),
        Scalar::Bool(truth) => Ok(line.put_truth(truth)?),
        Scalar::Text(text) => line.put_quoted(alloc, text),
    }
}

// Puts the JSON text of a container first onto a line, with a scalar for each entry, by its layout.
#[inline(never)]
fn put_object(
    alloc: Global,
    layout: &Layout,
    scalars: &[Scalar<'_>],
    line: &mut Line,
) -> Result<(), Memory>
    requires { All (λ p. p.position < length scalars.now) layout.now.pieces.items }
    ensures { (t : Table) → OnOk result (line.new ≡ laid_text (map (json_of_value t) (map plain_of scalars.now)) layout.now ++ line.old) }
{
    line.put_padded(&layout.end)?;
    let pieces = layout.pieces.as_slice();
    let mut at = pieces.len();
    while at > 0 {
        at -= 1;
        let piece = &pieces[at];
        put_scalar(alloc, scalars[piece.position], line)?;
        line.put_padded(&piece.text)?;
    }
    Ok(())
}

// Puts the JSON text of an entry first onto a line, straight from its bits, and before it the text of its piece. Whether these have a
// value: otherwise what stands on the line means nothing.
#[inline(always)]
fn put_entry(
    alloc: Global,
    entries: &Entries<'_, '_>,
    piece: &Piece,
    line: &mut Line,
) -> Result<bool, Memory>
    ensures { IfOk result (λ put. OnTrue put ((v : Plain) × (slice_get entries.now piece.now.position ≡ Some (Some v)) × ((t : Table) → line.new ≡ piece.now.text ++ (json_text t v ++ line.old)))) }
{
    // numbers, labels and truth values, as most entries are, are put with no choice of scalars between
    let position = piece.position;
    if let Some(number) = entries.number(position) {
        line.put_named(&piece.text, number)?;
        return Ok(true);
    }
    if let Some(label) = entries.label(position) {
        line.put_quoted(alloc, label)?;
    } else if let Some(truth) = entries.truth(position) {
        line.put_truth(truth)?;
    } else if let Some(scalar) = entries.get(position) {
        put_scalar(alloc, scalar, line)?;
    } else {
        return Ok(false);
    }
    line.put_padded(&piece.text)?;
    Ok(true)
}

// Puts the JSON text of a container first onto a line, each entry straight from its bits, by its layout. Whether the bits of each
// have a value: otherwise what stands on the line means nothing. Its loop has the processor's registers for itself.
#[inline(never)]
fn put_entries(
    alloc: Global,
    layout: &Layout,
    entries: &Entries<'_, '_>,
    line: &mut Line,
) -> Result<bool, Memory>
    requires { (i : ℕ) → i < length entries.now → HasPosition layout.now.pieces.items i }
    ensures { IfOk result (λ all. OnTrue all ((vs : List Plain) × (entries.now ≡ map Some vs) × ((t : Table) → line.new ≡ laid_text (map (json_of_value t) vs) layout.now ++ line.old))) }
{
    line.put_padded(&layout.end)?;
    let pieces = layout.pieces.as_slice();
    let mut at = pieces.len();
    while at > 0 {
        at -= 1;
        if !put_entry(alloc, entries, &pieces[at], line)? {
            return Ok(false);
        }
    }
    Ok(true)
}

// Puts the line of a packet whose entries are scalars at fixed places last, and gives how many octets the packet has: each entry
// goes straight from its bits into the line. None, and nothing is put, where the packet isn't read so, or its container has no
// layout.
fn push_entries(
    alloc: Global,
    packet_type: &PacketType<'_, '_>,
    octets: &[u8],
    line: &mut Line,
    report: &mut String,
) -> Result<Option<usize>, Memory>
    ensures line { IfOk result (λ o. IfSome o (λ size. PutsLine (type_in packet_type.now.target) octets.now size (string_bytes report.old) (string_bytes report.new))) }
    ensures none { IfOk result (λ o. IfNone o (string_bytes report.new ≡ string_bytes report.old)) }
{
    let Some((entries, size)) = entries_at(packet_type, octets) else {
        return Ok(None);
    };
    let Some(layout) = packet_type
        .layouts
        .find(packet_type.target.id, entries.len())
    else {
        return Ok(None);
    };
    line.clear();
    line.put_text("\n")?;
    if !put_entries(alloc, layout, &entries, line)? {
        return Ok(None);
    }
    report.push_str(line.as_str())?;
    Ok(Some(size))
}

// Puts the line of a packet that a template tells last, from its scalars, and gives how many octets the packet has. None, and
// nothing is put, where the packet isn't read so, or its container has no layout.
fn push_scalars<'a>(
    alloc: Global,
    packet_type: &PacketType<'_, 'a>,
    octets: &'a [u8],
    rooms: &mut Rooms<'a>,
    report: &mut String,
) -> Result<Option<usize>, Memory>
    ensures line { IfOk result (λ o. IfSome o (λ size. PutsLine (type_in packet_type.now.target) octets.now size (string_bytes report.old) (string_bytes report.new))) }
    ensures none { IfOk result (λ o. IfNone o (string_bytes report.new ≡ string_bytes report.old)) }
{
    let Some((found, size)) = scalars_at(packet_type, octets, &mut rooms.scalars)? else {
        return Ok(None);
    };
    let Some(layout) = packet_type.layouts.find(found, rooms.scalars.len()) else {
        return Ok(None);
    };
    rooms.line.clear();
    rooms.line.put_text("\n")?;
    put_object(alloc, layout, rooms.scalars.as_slice(), &mut rooms.line)?;
    report.push_str(rooms.line.as_str())?;
    Ok(Some(size))
}

// Puts the line of a packet's value last.
fn push_line(
    alloc: Global,
    packet_type: &PacketType<'_, '_>,
    value: &Value,
    line: &mut Line,
    report: &mut String,
) -> Result<(), Memory>
    requires spelled { (bits : Bits) × Spells packet_type.now.target.table.now packet_type.now.target.id.0 (plain value.now) bits }
    ensures { OnOk result (string_bytes report.new ≡ string_bytes report.old ++ (json_text packet_type.now.target.table.now (plain value.now) ++ codes "\n")) }
{
    let target = packet_type.target;
    target.table.keeps_rules();
    canonical_spelling();
    line.clear();
    line.put_text("\n")?;
    put_json(alloc, packet_type.layouts, target.id, value, line)?;
    report.push_str(line.as_str())?;
    Ok(())
}

// Whether a report is no longer than a report may be.
fn is_within(report: &str) -> bool
    ensures { result ≡ nat_le (length report.now) report_octets }
{
    report.len() as u64 <= REPORT_OCTETS
}

// Puts the line of a packet last from the packet's value, and gives how many octets the packet has. None, and nothing is put, where
// it can't be read.
fn push_value(
    alloc: Global,
    packet_type: &PacketType<'_, '_>,
    octets: &[u8],
    rooms: &mut Rooms<'_>,
    report: &mut String,
) -> Result<Option<usize>, Memory>
    ensures line { IfOk result (λ o. IfSome o (λ size. PutsLine (type_in packet_type.now.target) octets.now size (string_bytes report.old) (string_bytes report.new))) }
    ensures none { IfOk result (λ o. IfNone o (string_bytes report.new ≡ string_bytes report.old)) }
{
    match value_at(alloc, packet_type, octets, &mut rooms.fault)? {
        Some((value, size)) => {
            push_line(alloc, packet_type, &value, &mut rooms.line, report)?;
            Ok(Some(size))
        }
        None => Ok(None),
    }
}

// Puts the line of a packet last, straight from its bits or from its scalars where that can be, and else from its value.
fn push_read<'a>(
    alloc: Global,
    packet_type: &PacketType<'_, 'a>,
    octets: &'a [u8],
    rooms: &mut Rooms<'a>,
    report: &mut String,
) -> Result<Option<usize>, Memory>
    ensures line { IfOk result (λ o. IfSome o (λ size. PutsLine (type_in packet_type.now.target) octets.now size (string_bytes report.old) (string_bytes report.new))) }
    ensures none { IfOk result (λ o. IfNone o (string_bytes report.new ≡ string_bytes report.old)) }
{
    let line = &mut rooms.line;
    if let Some(size) = push_entries(alloc, packet_type, octets, line, report)? {
        return Ok(Some(size));
    }
    if let Some(size) = push_scalars(alloc, packet_type, octets, rooms, report)? {
        return Ok(Some(size));
    }
    push_value(alloc, packet_type, octets, rooms, report)
}

// How many octets the packet at the front of octets has. None, where it can't be read.
fn size_at<'a>(
    alloc: Global,
    packet_type: &PacketType<'_, 'a>,
    octets: &'a [u8],
    rooms: &mut Rooms<'a>,
) -> Result<Option<usize>, Memory>
    ensures { IfOk result (λ o. IfSome o (λ size. (v : Plain) × HoldsPacket (type_in packet_type.now.target) v octets.now size)) }
{
    if let Some((_, size)) = scalars_at(packet_type, octets, &mut rooms.scalars)? {
        return Ok(Some(size));
    }
    match value_at(alloc, packet_type, octets, &mut rooms.fault)? {
        Some((_value, size)) => Ok(Some(size)),
        None => Ok(None),
    }
}

/// Takes the packet at the front of octets, as `take_packet` does, where it can be read. None, and nothing is put, where it isn't:
/// then `take_packet` tells why. What this answers is small: the answer of `take_packet` has room for the path of a fault, which is
/// cleared and moved for each packet.
pub fn take_value<'a>(
    alloc: Global,
    packet_type: &PacketType<'_, 'a>,
    octets: &'a [u8],
    rooms: &mut Rooms<'a>,
    report: &mut String,
) -> Result<Option<usize>, Memory>
    ensures line { IfOk result (λ o. IfSome o (λ size. TakesPacket (type_in packet_type.now.target) octets.now size (string_bytes report.old) (string_bytes report.new))) }
    ensures none { IfOk result (λ o. IfNone o (string_bytes report.new ≡ string_bytes report.old)) }
{
    if is_within(report) {
        push_read(alloc, packet_type, octets, rooms, report)
    } else {
        size_at(alloc, packet_type, octets, rooms)
    }
}

// Puts the line of JSON of the packet at the front of octets last, and gives how many octets the packet has.
fn push_packet(
    alloc: Global,
    packet_type: &PacketType<'_, '_>,
    octets: &[u8],
    rooms: &mut Rooms<'_>,
    report: &mut String,
) -> Result<usize, Fail<Fault>>
    ensures line { IfOk result (λ size. PutsLine (type_in packet_type.now.target) octets.now size (string_bytes report.old) (string_bytes report.new)) }
    ensures fault { IfErr result (FailsFor (type_in packet_type.now.target) octets.now) }
{
    let (value, size) = packet_at(alloc, packet_type, octets, &mut rooms.fault)?;
    push_line(alloc, packet_type, &value, &mut rooms.line, report)?;
    Ok(size)
}

/// Takes the packet at the front of octets: puts its line of JSON last, and gives how many octets it has. The line is left out
/// where the report is already longer than a report may be. The rooms serve for one packet after another.
pub fn take_packet(
    alloc: Global,
    packet_type: &PacketType<'_, '_>,
    octets: &[u8],
    rooms: &mut Rooms<'_>,
    report: &mut String,
) -> Result<usize, Fail<Fault>>
    ensures line { IfOk result (λ size. TakesPacket (type_in packet_type.now.target) octets.now size (string_bytes report.old) (string_bytes report.new)) }
    ensures fault { IfErr result (FailsFor (type_in packet_type.now.target) octets.now) }
{
    if is_within(report) {
        return push_packet(alloc, packet_type, octets, rooms, report);
    }
    let (_, size) = packet_at(alloc, packet_type, octets, &mut rooms.fault)?;
    Ok(size)
}
