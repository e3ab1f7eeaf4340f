//! The forms of scalar types.

ghost use Rattle.std.specs.Prelude.{◌≡◌, option_map};
ghost use Rattle.eds_type_rows.specs.Forms.{bits_from, bits_at, encoding_of, order_of, int_form, given_int_form, int_form_of, reads_zero_as_false, bool_form, given_bool_form, bool_form_of};

use crate::element::{child_named, number_at};
use eds_bits::{BoolForm, ByteOrder, Encoding, IntForm};
use eds_tree::Tree;

/// A number of bits, where a scalar may have as many.
fn bits_from(number: i128) -> Option<u32>
    ensures { result ≡ bits_from number }
{
    if 1 <= number && number <= 64 {
        Some(number as u32)
    } else {
        None
    }
}

/// The size in bits that an encoding gives.
fn bits_at(tree: &Tree, encoding: u32) -> Option<u32>
    ensures { result ≡ bits_at tree.now encoding }
{
    bits_from(number_at(tree, encoding, "sizeInBits")?)
}

/// The encoding that a word names.
fn encoding_of(word: &str) -> Option<Encoding>
    ensures { result ≡ encoding_of word.now }
{
    if word == "unsigned" {
        Some(Encoding::Unsigned)
    } else if word == "twosComplement" {
        Some(Encoding::TwosComplement)
    } else if word == "signMagnitude" {
        Some(Encoding::SignMagnitude)
    } else if word == "onesComplement" {
        Some(Encoding::OnesComplement)
    } else if word == "packedBCD" {
        Some(Encoding::PackedBcd)
    } else if word == "BCD" {
        Some(Encoding::Bcd)
    } else {
        None
    }
}

/// The byte order that a word names, big-endian where there is no word.
fn order_of(word: Option<&str>) -> Option<ByteOrder>
    ensures { result ≡ order_of (option_map (λ w. w.now) word.entry) }
{
    match word {
        None => Some(ByteOrder::Big),
        Some(word) => {
            if word == "bigEndian" {
                Some(ByteOrder::Big)
            } else if word == "littleEndian" {
                Some(ByteOrder::Little)
            } else {
                None
            }
        }
    }
}

/// The form of these parts, where they go together.
fn int_form(bits: u32, encoding: Encoding, order: ByteOrder) -> Option<IntForm>
    ensures { result ≡ int_form bits encoding order }
{
    IntForm::of(bits, encoding, order)
}

/// The integer form that an encoding gives.
fn given_int_form(tree: &Tree, encoding: u32) -> Option<IntForm>
    ensures { result ≡ given_int_form tree.now encoding }
{
    let bits = bits_at(tree, encoding)?;
    let coded = encoding_of(tree.attribute_at(encoding, "encoding")?)?;
    let order = order_of(tree.attribute_at(encoding, "byteOrder"))?;
    int_form(bits, coded, order)
}

/// The integer form of an integer or enumerated type (CCSDS 876.0-B, integer data encodings): that of its encoding, and without
/// one 64 bits in two's complement, big-endian. None exactly where the encoding is no form: its size is outside 1 to 64 bits,
/// has no whole decimal digits or, in little-endian order, no whole octets.
pub fn int_form_of(tree: &Tree, node: u32) -> Option<IntForm>
    ensures { result ≡ int_form_of tree.now node }
{
    match child_named(tree, node, "IntegerDataEncoding") {
        None => int_form(64, Encoding::TwosComplement, ByteOrder::Big),
        Some(encoding) => given_int_form(tree, encoding),
    }
}

/// Whether all bits zero are false, as they are where no word says otherwise.
fn reads_zero_as_false(word: Option<&str>) -> Option<bool>
    ensures { result ≡ reads_zero_as_false (option_map (λ w. w.now) word.entry) }
{
    match word {
        None => Some(true),
        Some(word) => {
            if word == "zeroIsFalse" {
                Some(true)
            } else if word == "nonZeroIsFalse" {
                Some(false)
            } else {
                None
            }
        }
    }
}

/// The form of a truth value of so many bits.
fn bool_form(bits: u32, zero_is_false: bool) -> Option<BoolForm>
    ensures { result ≡ bool_form bits zero_is_false }
{
    if 1 <= bits && bits <= 64 {
        Some(BoolForm {
            bits,
            zero_is_false,
        })
    } else {
        None
    }
}

/// The form of a truth value that an encoding gives.
fn given_bool_form(tree: &Tree, encoding: u32) -> Option<BoolForm>
    ensures { result ≡ given_bool_form tree.now encoding }
{
    let bits = bits_at(tree, encoding)?;
    let zero_is_false = reads_zero_as_false(tree.attribute_at(encoding, "falseValue"))?;
    bool_form(bits, zero_is_false)
}

/// The form of a boolean type (CCSDS 876.0-B, boolean data encodings): that of its encoding, and without one 8 bits, of which
/// zero is false. None exactly where the encoding's size is outside 1 to 64 bits.
pub(crate) fn bool_form_of(tree: &Tree, node: u32) -> Option<BoolForm>
    ensures { result ≡ bool_form_of tree.now node }
{
    match child_named(tree, node, "BooleanDataEncoding") {
        None => bool_form(8, true),
        Some(encoding) => given_bool_form(tree, encoding),
    }
}
