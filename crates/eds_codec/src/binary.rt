//! Binaries: bits as they stand, in octets of their own.

ghost use Rattle.std.specs.Prelude.{◌≡◌, ◌+◌, ◌-◌, ◌*◌, ◌/◌, ◌^◌, ◌<◌, ◌≤◌, ◌↔◌, ◌++◌, length, take, drop, replicate, false, IsTrue, IfOk, OnErr, Err};
ghost use Rattle.std.specs.Bool.{OnTrue, OnFalse};
ghost use Rattle.eds_base.specs.declared.fail.Fail.TheVariants.{Named};
ghost use Rattle.eds_bits.specs.Bits.{Bits, bits_of, octets_of, low_bits, octets_for, with_piece};
ghost use Rattle.eds_bits.specs.Reader.{bits_left};
ghost use Rattle.eds_bits.specs.Texts.{IsBinary};
ghost use Rattle.eds_codec.specs.Reading.{BeginsWith};
ghost use Rattle.eds_codec.specs.Writing.{Written};

use eds_base::{Fail, Items, Octets};
use eds_bits::{BitReader, put, put_octets};
use std::alloc::Global;

/// Fewer bits are left than a binary has.
#[derive(Clone, Copy, PartialEq, Eq)]
pub struct Short;

/// Writes a binary of so many bits into the room from bit `at` on. Its octets are these bits, filled with zeros. All other
/// bits of the room stay. `at` is below 2^40. `false` where the room ends before: then nothing is written.
pub fn write_binary(bits: u32, octets: &[u8], room: &mut [u8], at: u64) -> bool
    requires near { at < 2 ^ 40 }
    requires value { (bs : Bits) × IsBinary bits octets.now bs }
    ensures enough { IsTrue result ↔ (at + bits ≤ 8 * length room.old) }
    ensures written { OnTrue result (Written (IsBinary bits octets.now) at room.old room.new) }
    ensures few { OnFalse result (8 * length room.old < at + bits) }
    ensures same { OnFalse result (room.new ≡ room.old) }
{
    if (room.len() as u64) < (at + u64::from(bits)).div_ceil(8) {
        return false;
    }
    let first = (at / 8) as usize;
    put_bits(bits, octets, &mut room[first..], at % 8);
    true
}

/// The next bits in octets of their own, the last filled with zeros; the reader then has passed them. After a refusal,
/// Memory among them, the reader stays where it is.
pub fn read_binary(alloc: Global, bits: u32, reader: &mut BitReader) -> Result<Octets, Fail<Short>>
    ensures value { IfOk result (λ octets. BeginsWith (IsBinary bits octets) (bits_left reader.old) (bits_left reader.new)) }
    ensures few { (result ≡ Err (Named record {})) ↔ (length (bits_left reader.old) < bits) }
    ensures same { OnErr result (bits_left reader.new ≡ bits_left reader.old) }
{
    if reader.left() < u64::from(bits) {
        return Err(Fail::Named(Short));
    }
    let mut octets = Vec::new(alloc);
    octets.resize(bits.div_ceil(8) as usize, 0)?;
    take_bits(bits, reader, octets.as_mut_slice());
    Ok(Items::from_vec(octets))
}

// Writes the first bits of some octets.
fn put_bits(bits: u32, octets: &[u8], room: &mut [u8], at: u64)
    requires near { at < 8 }
    requires size { length octets.now ≡ octets_for bits }
    requires within { at + bits ≤ 8 * length room.old }
    ensures { bits_of room.new ≡ with_piece at (take bits (bits_of octets.now)) (bits_of room.old) }
{
    let whole = (bits / 8) as usize;
    let last = bits % 8;
    put_octets(room, at, &octets[..whole]);
    if last > 0 {
        let number = octets[whole] >> (8 - last);
        put(room, at + 8 * whole as u64, last, u64::from(number));
    }
}

// Fills the octets with the next bits, and with zeros behind them.
fn take_bits(bits: u32, reader: &mut BitReader, octets: &mut [u8])
    requires size { length octets.old ≡ octets_for bits }
    requires enough { bits ≤ length (bits_left reader.old) }
    ensures value { octets.new ≡ octets_of (take bits (bits_left reader.old)) }
    ensures after { bits_left reader.new ≡ drop bits (bits_left reader.old) }
{
    let whole = (bits / 8) as usize;
    let last = bits % 8;
    reader.take_octets(&mut octets[..whole]);
    if last > 0 {
        octets[whole] = last_octet(reader, last);
    }
}

/// The octet of the next n bits, with zeros behind them.
pub(crate) fn last_octet(reader: &mut BitReader, n: u32) -> u8
    requires few { n ≤ 7 }
    requires enough { n ≤ length (bits_left reader.old) }
    ensures value { low_bits 8 result ≡ take n (bits_left reader.old) ++ replicate (8 - n) false }
    ensures after { bits_left reader.new ≡ drop n (bits_left reader.old) }
{
    match reader.take(n) {
        Some(number) => (number << (8 - n)) as u8,
        None => 0,
    }
}
