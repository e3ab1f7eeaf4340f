//! Binaries: how many bits one has, and whether octets are so many bits.

ghost use Rattle.std.specs.Prelude.{◌≡◌, ◌&&◌, length};
ghost use Rattle.eds_bits.specs.Bits.{octets_for};
ghost use Rattle.eds_types.specs.PackedSizes.{has_bits as has_bits_of, is_filled as is_filled_of};

use eds_bits::{BitReader, BitView};

// Whether a binary of `size` bits, or an open one of at most so many, may have this number of bits.
fn has_bits(size: u32, is_open: bool, bits: u32) -> bool
    ensures { result ≡ has_bits_of size is_open bits }
{
    if is_open {
        bits <= size && bits % 8 == 0
    } else {
        bits == size
    }
}

// Whether the bits behind the first ones are zeros, in as many octets as these fill.
fn has_filler(bits: u32, octets: &[u8]) -> bool
    requires { length octets.now ≡ octets_for bits }
    ensures { result ≡ is_filled_of bits octets.now }
{
    let mut reader = BitReader::new(BitView::new(octets).after(u64::from(bits)));
    let filler = reader.left().min(7) as u32;
    match reader.take(filler) {
        Some(number) => number == 0,
        None => false,
    }
}

// Whether the octets are so many bits, the last octet filled with zeros.
fn is_filled(bits: u32, octets: &[u8]) -> bool
    ensures { result ≡ is_filled_of bits octets.now }
{
    if octets.len() == bits.div_ceil(8) as usize {
        has_filler(bits, octets)
    } else {
        false
    }
}

/// Whether octets are a value of a binary of `size` bits, or of an open one of at most so many: one may have that number
/// of bits, and the octets are the bits, the last octet filled with zeros.
pub fn is_binary(size: u32, is_open: bool, bits: u32, octets: &[u8]) -> bool
    ensures { result ≡ (has_bits_of size is_open bits && is_filled_of bits octets.now) }
{
    has_bits(size, is_open, bits) && is_filled(bits, octets)
}
