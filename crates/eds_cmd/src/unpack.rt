//! From the text of a frame to the report on its value.

ghost use Rattle.std.specs.Prelude.{◌≡◌, ◌≤◌, [], IfErr, IfOk, string_bytes, length, take};
ghost use Rattle.eds_base.specs.Answering.{Answers};
ghost use Rattle.eds_bits.specs.Bits.{Bits, bits_of};
ghost use Rattle.eds_cmd.specs.Endings.{EndsAs, StopSays};
ghost use Rattle.eds_cmd.specs.Target.{IsKnown, type_in};
ghost use Rattle.eds_cmd.specs.Unpack.{IsFaulty, Unpacks, UnpacksBits, frame_for as frame_in};
ghost use Rattle.eds_types.specs.Plain.{plain};
ghost use Rattle.eds_types.specs.Spelling.{Spells};
ghost use Rattle.eds_value.specs.JsonOfValue.{json_text};

use crate::hex_text::hex_octets;
use crate::limits::FRAME_OCTETS;
use crate::report::bits_report;
use crate::status::What;
use crate::stop::{Stop, bad_hex, frame_fault, limited};
use crate::target::Target;
use eds_base::{Fail, Fault, Memory, Path, Reason};
use eds_bits::BitView;
use eds_overlap::law::canonical_spelling;
use eds_types::Value;
use eds_unpack::unpack;
use eds_value::to_json;
use std::alloc::Global;

/// The most bits that may follow a value: they fill its last octet.
const FILLING_BITS: u32 = 7;

#[tactic(auto, unfolding(crate::specs::Unpack::frame_for))]
fn frame_for(alloc: Global, text: &[u8]) -> Result<Vec<u8>, Fail<Stop>>
    ensures answer { Answers (λ v. v.items) result (frame_in text.now) }
    ensures bound { IfOk result (λ v. length v.items ≤ FRAME_OCTETS) }
{
    match hex_octets(alloc, text) {
        Ok(octets) => {
            if octets.len() as u64 <= FRAME_OCTETS {
                Ok(octets)
            } else {
                Err(Fail::Named(limited(alloc, What::Frame, FRAME_OCTETS)?))
            }
        }
        Err(Fail::Memory) => Err(Fail::Memory),
        Err(Fail::Named(_)) => Err(Fail::Named(bad_hex(alloc)?)),
    }
}

// The fault of a frame that is longer than its value.
fn trailing() -> Fault
    ensures reason { result.reason ≡ Reason.Trailing }
    ensures path { result.path ≡ [] }
{
    Fault {
        reason: Reason::Trailing,
        path: Path::root(),
    }
}

// The value that a frame begins with, and how many bits it takes.
fn value_for(alloc: Global, target: &Target<'_>, frame: &[u8]) -> Result<(Value, u32), Fail<Stop>>
    requires known { IsKnown (type_in target.now) }
    requires within { length frame.now ≤ FRAME_OCTETS }
    ensures size { IfOk result (λ x. x.1 ≤ length (bits_of frame.now)) }
    ensures value { IfOk result (λ x. Spells target.now.table.now target.now.id.0 (plain x.0) (take x.1 (bits_of frame.now))) }
    ensures fault { IfErr result (StopSays (IsFaulty (type_in target.now) (bits_of frame.now))) }
{
    match unpack(alloc, target.table, target.id, BitView::new(frame)) {
        Ok(read) => Ok(read),
        Err(Fail::Named(fault)) => Err(Fail::Named(frame_fault(alloc, target.table, fault)?)),
        Err(Fail::Memory) => Err(Fail::Memory),
    }
}

// The JSON text of a value that some bits spell.
fn value_text(alloc: Global, target: &Target<'_>, value: &Value) -> Result<String, Memory>
    requires known { IsKnown (type_in target.now) }
    requires spelled { (bits : Bits) × Spells target.now.table.now target.now.id.0 (plain value.now) bits }
    ensures { IfOk result (λ s. string_bytes s ≡ json_text target.now.table.now (plain value.now)) }
{
    target.table.keeps_rules();
    canonical_spelling();
    let octets = to_json(alloc, target.table, target.id, value)?;
    match String::from_utf8(octets.into_vec()) {
        Ok(text) => Ok(text),
        Err(_) => unreachable!(),
    }
}

// The report on the value that a frame begins with.
fn unpacked_frame(alloc: Global, target: &Target<'_>, frame: &[u8]) -> Result<String, Fail<Stop>>
    requires known { IsKnown (type_in target.now) }
    requires within { length frame.now ≤ FRAME_OCTETS }
    ensures { EndsAs string_bytes (UnpacksBits (type_in target.now) (bits_of frame.now)) result }
{
    let (value, size) = value_for(alloc, target, frame)?;
    let left = 8 * frame.len() as u32 - size;
    if left > FILLING_BITS {
        return Err(Fail::Named(frame_fault(alloc, target.table, trailing())?));
    }
    let text = value_text(alloc, target, &value)?;
    Ok(bits_report(alloc, text.as_str(), size)?)
}

/// The report on the value that the text of a frame begins with.
pub fn unpacked(alloc: Global, target: &Target<'_>, text: &[u8]) -> Result<String, Fail<Stop>>
    requires { IsKnown (type_in target.now) }
    ensures { EndsAs string_bytes (Unpacks (type_in target.now) text.now) result }
{
    let frame = frame_for(alloc, text)?;
    unpacked_frame(alloc, target, frame.as_slice())
}
