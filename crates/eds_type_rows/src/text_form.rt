//! The forms of strings, and the sizes of binaries.

ghost use Rattle.std.specs.Prelude.{◌≡◌, false, option_map};
ghost use Rattle.eds_base.specs.Reading.{only};
ghost use Rattle.eds_tree.specs.Unsupported.{spells_flag};
ghost use Rattle.eds_type_rows.specs.TextForms.{natural, text_form, is_fixed, encoding_text as encoding_text_of, is_ascii, stop_of, text_form_sized, length_of, text_form_by, text_form_of, is_open, is_binary_size, binary_bits_of};

use crate::element::{child_named, number_at};
use eds_bits::TextForm;
use eds_tree::{Tree, flag_value, whole_number};

/// A number, where it is no negative one.
pub(crate) fn natural(number: i128) -> Option<u128>
    ensures { result ≡ natural number }
{
    if number < 0 {
        None
    } else {
        Some(number as u128)
    }
}

/// Whether a flag that may be left out is given as false.
fn is_false(text: Option<&str>) -> bool
    ensures { result ≡ spells_flag false (option_map (λ t. t.now) text.entry) }
{
    text.is_some_and(|text| flag_value(text) == Some(false))
}

// ---- strings

/// The form of these parts, where they go together.
#[tactic(auto, unfolding(crate::specs::TextForms::text_form))]
fn text_form(octets: u128, stop: u128, fixed: bool, ascii: bool) -> Option<TextForm>
    ensures { result ≡ text_form octets stop fixed ascii }
{
    if 1 <= octets && octets <= 65_536 && stop <= 127 {
        Some(TextForm {
            length: octets as u32,
            fixed,
            ascii,
            stop: stop as u8,
        })
    } else {
        None
    }
}

/// Whether a string has its whole length, as it has unless it says otherwise.
fn is_fixed(tree: &Tree, node: u32) -> bool
    ensures { result ≡ is_fixed tree.now node }
{
    !is_false(tree.attribute_at(node, "fixedLength"))
}

/// An attribute of a string's encoding, where it has one.
fn encoding_text<'a>(tree: &'a Tree, encoding: Option<u32>, name: &str) -> Option<&'a str>
    ensures { option_map (λ t. t.now) result ≡ encoding_text_of tree.now encoding name.now }
{
    tree.attribute_at(encoding?, name)
}

/// Whether the octets are ASCII, as a word says.
fn is_ascii(word: Option<&str>) -> bool
    ensures { result ≡ is_ascii (option_map (λ w. w.now) word.entry) }
{
    word.is_some_and(|word| word == "ASCII")
}

/// The termination octet: 0 where none is given and the string is fixed.
fn stop_of(fixed: bool, text: Option<&str>) -> Option<u128>
    ensures { result ≡ stop_of fixed (option_map (λ t. t.now) text.entry) }
{
    match text {
        None => { if fixed { Some(0) } else { None } }
        Some(text) => natural(whole_number(text)?),
    }
}

/// The form of a string of so many octets with such an encoding.
fn text_form_sized(tree: &Tree, node: u32, encoding: Option<u32>, octets: u128) -> Option<TextForm>
    ensures { result ≡ text_form_sized tree.now node encoding octets }
{
    let fixed = is_fixed(tree, node);
    let stop = stop_of(fixed, encoding_text(tree, encoding, "terminationCharacter"))?;
    let ascii = is_ascii(encoding_text(tree, encoding, "encoding"));
    text_form(octets, stop, fixed, ascii)
}

/// The length of a string in octets.
fn length_of(tree: &Tree, node: u32) -> Option<u128>
    ensures { result ≡ length_of tree.now node }
{
    natural(number_at(tree, node, "length")?)
}

/// The form of a string with such an encoding.
fn text_form_by(tree: &Tree, node: u32, encoding: Option<u32>) -> Option<TextForm>
    ensures { result ≡ text_form_by tree.now node encoding }
{
    text_form_sized(tree, node, encoding, length_of(tree, node)?)
}

/// The form of a string (CCSDS 876.0-B, string data types): of its length in octets, with the termination octet that its encoding
/// gives, and else 0; in UTF-8 unless the encoding is ASCII. None where the string is not fixed and gives no termination octet.
pub(crate) fn text_form_of(tree: &Tree, node: u32) -> Option<TextForm>
    ensures { result ≡ text_form_of tree.now node }
{
    text_form_by(tree, node, child_named(tree, node, "StringDataEncoding"))
}

// ---- binaries

/// Whether the size of a binary comes from the length entry of its container.
pub(crate) fn is_open(tree: &Tree, node: u32) -> bool
    ensures { result ≡ is_open tree.now node }
{
    is_false(tree.attribute_at(node, "fixedSize"))
}

/// A number of bits, where a binary may have as many.
pub(crate) fn binary_bits(unfixed: bool, bits: u128) -> Option<u32>
    ensures { result ≡ only (is_binary_size unfixed bits) bits }
{
    if 1 <= bits && bits <= 524_288 && (!unfixed || bits % 8 == 0) {
        Some(bits as u32)
    } else {
        None
    }
}

/// The size of a binary in bits (CCSDS 876.0-B, binary data types), which an open one has at most. None where an open one has no
/// whole octets.
pub(crate) fn binary_bits_of(tree: &Tree, node: u32) -> Option<u32>
    ensures { result ≡ binary_bits_of tree.now node }
{
    let bits = natural(number_at(tree, node, "sizeInBits")?)?;
    binary_bits(is_open(tree, node), bits)
}
