//! The second pass: writing what the first has found to pack.

ghost use Rattle.std.specs.Prelude.{◌≡◌, ◌<◌, ◌≤◌, ◌+◌, ◌-◌, ◌*◌, ◌++◌, ◌⊎◌, ℕ, Ok, Err, All, false, length, drop, replicate, OnOk, OnErr, IfOk, IfErr};
ghost use Rattle.eds_bits.specs.Bits.{Bits, bits_of, oct, octets_for, octets_of, with_piece};
ghost use Rattle.eds_types.specs.Packing.{PackFault, PackFailsAt};
ghost use Rattle.eds_types.specs.Plain.{plain};
ghost use Rattle.eds_types.specs.Spelling.{Canon};
ghost use Rattle.eds_pack.specs.Packs.{Packs, LacksRoom, where_of, fail_at, no_room};

use crate::whole::MOST_NESTED;
use crate::write::write_value;
use crate::{PackFail, packed_bits};
use eds_base::TypeId;
use eds_bits::put;
use eds_types::{Kind, TypeTable, Value, law};

// Fills the last octet that is begun with zeros, where the first `at` bits are written.
fn fill(room: &mut [u8], at: u32)
    requires few { at ≤ 524288 }
    requires fits { at ≤ 8 * length room.old }
    ensures { bits_of room.new ≡ with_piece at (replicate (8 * octets_for at - at) false) (bits_of room.old) }
{
    let zeros = 8 * at.div_ceil(8) - at;
    put(room, u64::from(at), zeros, 0);
}

/// Writes a value, which packs into so many bits, from the first bit of the room on, and
/// fills the last octet that is begun with zeros.
pub(crate) fn write_whole(table: &TypeTable, id: TypeId, value: &Value, size: u32, room: &mut [u8])
    requires known { id.0 < length table.now }
    requires packs { Packs table.now id.0 (plain value.now) size }
    requires fits { octets_for size ≤ length room.old }
    requires octets { All (λ o. o < 256) room.old }
    ensures { (b : Bits) → Canon table.now id.0 (plain value.now) b → room.new ≡ octets_of b ++ drop (oct b) room.old }
{
    table.keeps_rules();
    law::canonical_spelling();
    write_value(table, MOST_NESTED, id, value, room, 0);
    fill(room, size);
}

/// Writes the canonical spelling of a value of a type into the room, from its first bit on. Zeros fill the last octet
/// that is begun, and the octets behind it stay. Says how many bits were written, or the first fault: the last is a room
/// that is too small, and says how many octets are needed. At a fault the room stays as it is. It takes no memory.
pub fn pack_into(
    table: &TypeTable,
    id: TypeId,
    value: &Value,
    room: &mut [u8],
) -> Result<u32, PackFail>
    requires known { id.0 < length table.now }
    ensures size { IfOk result (λ n. Packs table.now id.0 (plain value.now) n) }
    ensures packs { (n : ℕ) → Packs table.now id.0 (plain value.now) n → octets_for n ≤ length room.old → result ≡ Ok n }
    ensures written { OnOk result ((b : Bits) → Canon table.now id.0 (plain value.now) b → room.new ≡ octets_of b ++ drop (oct b) room.old) }
    ensures fault { IfErr result (λ f. PackFailsAt table.now id.0 (plain value.now) (where_of f) ⊎ LacksRoom table.now id.0 (plain value.now) (length room.old) f) }
    ensures fails { (g : PackFault) → PackFailsAt table.now id.0 (plain value.now) g → result ≡ Err (fail_at g) }
    ensures room { (n : ℕ) → Packs table.now id.0 (plain value.now) n → length room.old < octets_for n → result ≡ Err (no_room (octets_for n)) }
    ensures same { OnErr result (room.new ≡ room.old) }
{
    let size = packed_bits(table, id, value)?;
    let octets = size.div_ceil(8);
    if room.len() < octets as usize {
        return Err(PackFail::no_room(octets));
    }
    write_whole(table, id, value, size, room);
    Ok(size)
}
