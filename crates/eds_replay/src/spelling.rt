//! Whether a recorded frame spells a value.

ghost use Rattle.std.specs.Prelude.{◌≡◌, ◌<◌, ◌≤◌, ◌+◌, ◌*◌, IfOk, IsTrue, length};
ghost use Rattle.eds_types.specs.Overlap.{IsClear};
ghost use Rattle.eds_types.specs.Plain.{plain};
ghost use Rattle.eds_script.specs.Frames.{framed};
ghost use Rattle.eds_replay.specs.Frames.{HoldValue, IsFrameText, Respells};

use crate::hex_text::{hex_behind, parted};
use eds_base::{Fail, Memory, TypeId};
use eds_bits::BitView;
use eds_script::law::frames_read;
use eds_script::{Frame, frame_octets};
use eds_types::{TypeTable, Value};
use eds_unpack::{Segments, unpack_by};
use std::alloc::Global;

/// The most bits that may follow the value of a frame: they fill its last octet.
const FILLING_BITS: u32 = 7;

// Whether at most 7 bits follow so many, in so many octets.
fn fills(size: u32, octets: u32) -> bool
    requires within { size ≤ 8 * octets }
    requires most { octets ≤ 65536 }
    ensures filled { IsTrue result → 8 * octets ≤ size + 7 }
    ensures few { 8 * octets ≤ size + 7 → IsTrue result }
{
    8 * octets - size <= FILLING_BITS
}

// Whether what was read, in so many bits at the front of so many octets, is a value, and at most 7 bits follow.
fn is_whole(read: &Value, size: u32, value: &Value, octets: u32) -> bool
    requires within { size ≤ 8 * octets }
    requires most { octets ≤ 65536 }
    ensures holds { IsTrue result → (plain read.now ≡ plain value.now) × (8 * octets ≤ size + 7) }
    ensures only { (plain read.now ≡ plain value.now) × (8 * octets ≤ size + 7) → IsTrue result }
{
    fills(size, octets) && read.is(value)
}

// Whether octets begin with a spelling of a value, and at most 7 bits follow it.
fn holds_value(
    alloc: Global,
    table: &TypeTable,
    segments: &Segments<'_>,
    id: TypeId,
    value: &Value,
    octets: &[u8],
) -> Result<bool, Memory>
    requires segments { segments.now ≡ table.now }
    requires known { id.0 < length table.now }
    requires clear { IsClear table.now id.0 }
    requires most { length octets.now ≤ 65536 }
    ensures holds { IfOk result (λ b. IsTrue b → HoldValue table.now id.0 (plain value.now) octets.now) }
    ensures only { IfOk result (λ b. HoldValue table.now id.0 (plain value.now) octets.now → IsTrue b) }
{
    match unpack_by(alloc, table, segments, id, BitView::new(octets)) {
        Ok((read, size)) => Ok(is_whole(&read, size, value, octets.len() as u32)),
        Err(Fail::Named(_)) => Ok(false),
        Err(Fail::Memory) => Err(Memory),
    }
}

/// Whether a text is that of a frame with the same head, whose octets spell the same value, where a line is the frame's own text.
/// Hex in other letters stands for the same octets, so that no value is read.
pub(crate) fn respells(
    alloc: Global,
    table: &TypeTable,
    segments: &Segments<'_>,
    frame: &Frame<'_>,
    line: &[u8],
    text: &[u8],
) -> Result<bool, Memory>
    requires segments { segments.now ≡ table.now }
    requires known { frame.now.id.0 < length table.now }
    requires clear { IsClear table.now frame.now.id.0 }
    requires line { IsFrameText table.now (framed frame.now) line.now }
    ensures holds { IfOk result (λ b. IsTrue b → Respells table.now (framed frame.now) text.now) }
    ensures only { IfOk result (λ b. Respells table.now (framed frame.now) text.now → IsTrue b) }
{
    frames_read();
    let (head, told) = parted(line);
    let Some(hex) = hex_behind(head, text) else {
        return Ok(false);
    };
    if hex.eq_ignore_ascii_case(told) {
        return Ok(true);
    }
    let Some(octets) = frame_octets(alloc, hex)? else {
        return Ok(false);
    };
    holds_value(
        alloc,
        table,
        segments,
        frame.id,
        frame.value,
        octets.as_slice(),
    )
}
