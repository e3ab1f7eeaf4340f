//! Whole octets at any bit: read and written by shifting all of them at once.

ghost use Rattle.std.specs.Prelude.{◌≡◌, ◌+◌, ◌*◌, ◌/◌, ◌%◌, ◌^◌, ◌<◌, ◌≤◌, ◌↔◌, length, drop, take, IsTrue};
ghost use Rattle.std.specs.Bool.{OnTrue, OnFalse};
ghost use Rattle.eds_bits.specs.Bits.{bits_of, with_piece};

use crate::writer::put;

/// Fills `into` with the bits of some octets from their bit `by` on, of which there is one more.
pub fn shift_into(into: &mut [u8], octets: &[u8], by: u32)
    requires one_more { length octets.now ≡ length into.old + 1 }
    requires some { 1 ≤ by }
    requires few { by ≤ 7 }
    ensures { bits_of into.new ≡ take (8 * length into.old) (drop by (bits_of octets.now)) }
{
    for i in 0..into.len() {
        into[i] = octets[i] << by | octets[i + 1] >> (8 - by);
    }
}

/// Writes all bits of some octets into the room from bit `at` on. All other bits stay. `at` is below 2^40. `false` where
/// the room ends before the last of them: then nothing is written.
pub fn put_octets(room: &mut [u8], at: u64, octets: &[u8]) -> bool
    requires near { at < 2 ^ 40 }
    ensures enough { IsTrue result ↔ (at + 8 * length octets.now ≤ 8 * length room.old) }
    ensures written { OnTrue result (bits_of room.new ≡ with_piece at (bits_of octets.now) (bits_of room.old)) }
    ensures few { OnFalse result (8 * length room.old < at + 8 * length octets.now) }
    ensures same { OnFalse result (room.new ≡ room.old) }
{
    let first = (at / 8) as usize;
    let last = first + octets.len();
    if at % 8 == 0 {
        if room.len() < last {
            return false;
        }
        room[first..last].copy_from_slice(octets);
    } else {
        if room.len() <= last {
            return false;
        }
        put_between(room, at, octets);
    }
    true
}

// The same, where bit `at` is not the first of an octet: the first bits up to the next octet, the octets behind it, and
// the last bits.
fn put_between(room: &mut [u8], at: u64, octets: &[u8])
    requires near { at < 2 ^ 40 }
    requires between { 1 ≤ at % 8 }
    requires within { at + 8 * length octets.now ≤ 8 * length room.old }
    ensures { bits_of room.new ≡ with_piece at (bits_of octets.now) (bits_of room.old) }
{
    let count = octets.len();
    if count == 0 {
        return;
    }
    let skip = (at % 8) as u32;
    let next = (at / 8) as usize + 1;
    let end = next + count - 1;
    put(room, at, 8 - skip, u64::from(octets[0] >> skip));
    shift_into(&mut room[next..end], octets, 8 - skip);
    let last = octets[count - 1] & ((1 << skip) - 1);
    put(&mut room[end..end + 1], 0, skip, u64::from(last));
}
