//! Writing bits into octets that are lent.

ghost use Rattle.std.specs.Prelude.{◌≡◌, ◌+◌, ◌*◌, ◌/◌, ◌%◌, ◌^◌, ◌<◌, ◌≤◌, ◌↔◌, length, IsTrue};
ghost use Rattle.std.specs.Bool.{OnTrue, OnFalse};
ghost use Rattle.eds_bits.specs.Bits.{bits_of, low_bits, with_piece};

use crate::window::{Window, lowest, number_of};

/// Writes the number `v`, which is below 2^`n`, into the `n` bits of the room from bit `at` on, the most significant
/// first. All other bits stay. `n` is at most 64, and `at` below 2^40. `false` where the room ends before bit
/// `at` + `n`: then nothing is written.
pub fn put(room: &mut [u8], at: u64, n: u32, v: u64) -> bool
    requires small { n ≤ 64 }
    requires fits { v < 2 ^ n }
    requires near { at < 2 ^ 40 }
    ensures enough { IsTrue result ↔ (at + n ≤ 8 * length room.old) }
    ensures written { OnTrue result (bits_of room.new ≡ with_piece at (low_bits n v) (bits_of room.old)) }
    ensures few { OnFalse result (8 * length room.old < at + n) }
    ensures same { OnFalse result (room.new ≡ room.old) }
{
    let window = Window::around(at, n);
    if room.len() < window.last {
        return false;
    }
    let octets = &mut room[window.first..window.last];
    let number = replaced(number_of(octets), window.pad, n, v);
    write_number(octets, number);
    true
}

// The number with the n bits before its `pad` lowest replaced by v.
fn replaced(number: u128, pad: u32, n: u32, v: u64) -> u128
    requires size { number < 2 ^ 72 }
    requires pad { pad < 8 }
    requires small { n ≤ 64 }
    requires fits { v < 2 ^ n }
    ensures { result ≡ (number / 2 ^ pad / 2 ^ n * 2 ^ n + v) * 2 ^ pad + number % 2 ^ pad }
{
    let above = number >> pad >> n << n | u128::from(v);
    above << pad | lowest(number, pad)
}

// Writes the lowest octets of a number, as many as there are, the most significant first.
fn write_number(octets: &mut [u8], number: u128)
    requires { length octets.old ≤ 9 }
    ensures { bits_of octets.new ≡ low_bits (8 * length octets.old) number }
{
    let mut after = octets.len();
    for octet in octets.iter_mut() {
        after -= 1;
        *octet = (number >> (8 * after) & 255) as u8;
    }
}
