//! The checks of bits.

use eds_bits::CheckKind;

/// The check of some bits, filled with zeros to whole octets.
pub(crate) fn check_of(kind: CheckKind, bits: &[bool]) -> u32 {
    match kind {
        CheckKind::Checksum => {
            let mut sum = 0u32;
            for octet in bits.chunks(8) {
                sum = sum.wrapping_add(octet_of(octet)) % 256;
            }
            sum
        }
        CheckKind::Longitudinal => {
            let mut parity = 0u32;
            for octet in bits.chunks(8) {
                parity ^= octet_of(octet);
            }
            parity
        }
        // x^8 + x^2 + x + 1
        CheckKind::Crc8 => remainder(bits, 8, 0, 0x107),
        // x^16 + x^12 + x^5 + 1
        CheckKind::Crc16Ccitt => remainder(bits, 16, 16, 0x11021),
    }
}

/// The number of at most eight bits, filled with zeros to an octet.
pub(crate) fn octet_of(bits: &[bool]) -> u32 {
    let mut octet = 0u32;
    for place in 0..8usize {
        octet = octet
            .wrapping_mul(2)
            .wrapping_add(u32::from(bit_at(bits, place)));
    }
    octet
}

/// The bit at a place; zeros follow the last.
fn bit_at(bits: &[bool], place: usize) -> bool {
    match bits.get(place) {
        Some(bit) => *bit,
        None => false,
    }
}

/// The remainder of a division of polynomials modulo 2: of the bits, filled to whole octets and followed by as many zeros
/// as the remainder has bits, with the first ones inverted, by the divisor, which has one bit more.
fn remainder(bits: &[bool], width: u32, inverted: usize, divisor: u32) -> u32 {
    let filled = bits.chunks(8).count().wrapping_mul(8);
    let mut rest = 0u32;
    for place in 0..filled.wrapping_add(width as usize) {
        let bit = bit_at(bits, place) != (place < inverted);
        rest = rest.wrapping_mul(2).wrapping_add(u32::from(bit));
        if rest >= limit(width) {
            rest ^= divisor;
        }
    }
    rest
}

/// Two to the power of the width.
fn limit(width: u32) -> u32 {
    let mut product = 1u32;
    for _ in 0..width {
        product = product.wrapping_mul(2);
    }
    product
}
