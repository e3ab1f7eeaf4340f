//! The patterns of whole numbers, from the number to its bits.

ghost use Rattle.std.specs.Prelude.{◌<◌};

use eds_bits::{ByteOrder, Encoding, IntForm};

fn power(base: i128, exponent: u32) -> i128 {
    let mut product = 1i128;
    for _ in 0..exponent {
        product = product.wrapping_mul(base);
    }
    product
}

/// Whether the bits are a pattern of the number in a form.
pub(crate) fn is_pattern(form: IntForm, n: i128, bits: &[bool]) -> bool {
    if bits.len() != form.bits as usize {
        return false;
    }
    match form.order {
        ByteOrder::Big => is_big_endian(form, n, bits),
        ByteOrder::Little => match with_octets_reversed(bits).get(..bits.len()) {
            Some(reversed) => is_big_endian(form, n, reversed),
            None => false,
        },
    }
}

// The bits, whole octets of them, with the last octet first; zeros fill the array.
fn with_octets_reversed(bits: &[bool]) -> [bool; 64] {
    let mut reversed = [false; 64];
    let mut at = 0usize;
    for octet in bits.rchunks(8) {
        for bit in octet {
            if let Some(slot) = reversed.get_mut(at) {
                *slot = *bit;
            }
            at = at.wrapping_add(1);
        }
    }
    reversed
}

fn is_big_endian(form: IntForm, n: i128, bits: &[bool]) -> bool {
    match form.encoding {
        Encoding::Unsigned => is_binary(n, bits, false),
        Encoding::TwosComplement => is_twos_complement(n, bits),
        Encoding::SignMagnitude => is_signed(n, bits, false),
        Encoding::OnesComplement => is_signed(n, bits, true),
        Encoding::PackedBcd => is_decimal(n, bits, 4),
        Encoding::Bcd => is_decimal(n, bits, 8),
    }
}

// The number in binary, each bit inverted where this is asked for.
fn is_binary(n: i128, bits: &[bool], inverted: bool) -> bool {
    let Ok(number) = u64::try_from(n) else {
        return false;
    };
    let mut left = number;
    for bit in bits.iter().rev() {
        if (*bit != inverted) != (left % 2 == 1) {
            return false;
        }
        left /= 2;
    }
    left == 0
}

// The number modulo two to the power of the size, where it is one of the form.
fn is_twos_complement(n: i128, bits: &[bool]) -> bool {
    let [first, ..] = bits else {
        return false;
    };
    let modulus = power(2, u32::try_from(bits.len()).unwrap_or(0));
    let number = if n < 0 { n.wrapping_add(modulus) } else { n };
    *first == (n < 0) && is_binary(number, bits, false)
}

// The sign, and then the size, which a negative number may have inverted. Zero has either sign.
fn is_signed(n: i128, bits: &[bool], inverts: bool) -> bool {
    let [sign, size @ ..] = bits else {
        return false;
    };
    let magnitude = if n < 0 { n.wrapping_neg() } else { n };
    (n == 0 || *sign == (n < 0)) && is_binary(magnitude, size, inverts && *sign)
}

// One group of bits for each decimal digit.
fn is_decimal(n: i128, bits: &[bool], width: usize) -> bool
    requires { 0 < width }
{
    let mut left = n;
    for group in bits.rchunks(width) {
        if left < 0 || !is_binary(left % 10, group, false) {
            return false;
        }
        left /= 10;
    }
    left == 0
}
