//! Frames.

ghost use Rattle.std.specs.Prelude.{◌≡◌, ◌≤◌, ◌<◌, ◌+◌, ◌*◌, [], length, take, IfErr, IfOk, Ok, Err};
ghost use Rattle.eds_bits.specs.Bits.{bits_of};
ghost use Rattle.eds_host.specs.Frames.{FrameIs};
ghost use Rattle.eds_types.specs.Failing.{FailsAt};
ghost use Rattle.eds_types.specs.Overlap.{IsClear};
ghost use Rattle.eds_types.specs.Plain.{plain};
ghost use Rattle.eds_types.specs.Spelling.{Spells};
ghost use Rattle.eds_unpack.specs.Answers.{IfNamed};

use eds_base::{Fail, Fault, Path, Reason, TypeId};
use eds_bits::BitView;
use eds_types::{TypeTable, Value};
use eds_unpack::{Segments, unpack_by};
use std::alloc::Global;

/// The most bits that may follow the value of a frame: they fill its last octet.
const FILLING_BITS: u32 = 7;

// The fault of a frame that is longer than its value.
fn trailing() -> Fault
    ensures reason { result.reason ≡ Reason.Trailing }
    ensures path { result.path ≡ [] }
{
    Fault {
        reason: Reason::Trailing,
        path: Path::root(),
    }
}

// The value that a frame begins with, and how many bits it takes.
fn front_value(
    alloc: Global,
    table: &TypeTable,
    segments: &Segments<'_>,
    id: TypeId,
    octets: &[u8],
) -> Result<(Value, u32), Fail<Fault>>
    requires segments { segments.now ≡ table.now }
    requires known { id.0 < length table.now }
    requires clear { IsClear table.now id.0 }
    requires most { length octets.now ≤ 65536 }
    ensures size { IfOk result (λ x. x.1 ≤ length (bits_of octets.now)) }
    ensures value { IfOk result (λ x. Spells table.now id.0 (plain x.0) (take x.1 (bits_of octets.now))) }
    ensures fault { IfErr result (IfNamed (λ g. FailsAt table.now id.0 (bits_of octets.now) g)) }
{
    match unpack_by(alloc, table, segments, id, BitView::new(octets)) {
        Ok(read) => Ok(read),
        Err(Fail::Named(fault)) => Err(Fail::Named(fault)),
        Err(Fail::Memory) => Err(Fail::Memory),
    }
}

// The value, where at most 7 bits follow it.
fn whole_value(value: Value, size: u32, octets: u32) -> Result<Value, Fail<Fault>>
    requires within { size ≤ 8 * octets }
    requires most { octets ≤ 65536 }
    ensures value { IfOk result (λ v. (v ≡ value) × (8 * octets < size + 8)) }
    ensures fault { IfErr result (IfNamed (λ g. (size + 8 ≤ 8 * octets) × (g.reason ≡ Reason.Trailing) × (g.path ≡ []))) }
{
    let left = 8 * octets - size;
    if left > FILLING_BITS {
        return Err(Fail::Named(trailing()));
    }
    Ok(value)
}

/// The value of a frame, read by the segments of the table, or what is wrong with the frame: reading its bits as the type fails,
/// or 8 bits or more follow the value.
pub(crate) fn read_frame(
    alloc: Global,
    table: &TypeTable,
    segments: &Segments<'_>,
    id: TypeId,
    octets: &[u8],
) -> Result<Value, Fail<Fault>>
    requires segments { segments.now ≡ table.now }
    requires known { id.0 < length table.now }
    requires clear { IsClear table.now id.0 }
    requires most { length octets.now ≤ 65536 }
    ensures value { IfOk result (λ v. FrameIs table.now id.0 (bits_of octets.now) (Ok (plain v))) }
    ensures fault { IfErr result (IfNamed (λ g. FrameIs table.now id.0 (bits_of octets.now) (Err g))) }
{
    match front_value(alloc, table, segments, id, octets) {
        Ok((value, size)) => whole_value(value, size, octets.len() as u32),
        Err(Fail::Named(fault)) => Err(Fail::Named(fault)),
        Err(Fail::Memory) => Err(Fail::Memory),
    }
}
