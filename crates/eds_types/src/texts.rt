//! The values that texts of attributes stand for.

ghost use Rattle.std.specs.Prelude.{◌≡◌, ◌↔◌, IfOk, IsTrue, nat_eq, option_map};
ghost use Rattle.std.specs.List.{list_any};
ghost use Rattle.eds_bits.specs.Scalars.{IsCoded};
ghost use Rattle.eds_types.specs.Fields.{listed};
ghost use Rattle.eds_types.specs.Plain.{plain, stored as stored_of};
ghost use Rattle.eds_types.specs.PackedSizes.{text_fits as text_fits_of};
ghost use Rattle.eds_types.specs.Reading.{is_within};
ghost use Rattle.eds_types.specs.TextValues.{is_short as is_short_of, number_value as number_value_of, label_value as label_value_of, truth_value as truth_value_of, string_value as string_value_of, octets_value as octets_value_of, binary_value as binary_value_of, text_value_of};

use crate::{Kind, Listing, Value, is_binary};
use eds_base::{Items, Memory, Spans, Text, flag_value, whole_number};
use eds_bits::TextForm;
use hex::FromHexError;
use std::alloc::Global;

// The octets that a value of the most bits fills.
const MOST_OCTETS: u32 = 65_536;

fn is_in(spans: &Spans, number: i128) -> bool
    ensures { result ≡ is_within spans.now number }
{
    spans.holds(number)
}

fn number_value(spans: &Spans, text: &str) -> Option<Value>
    ensures { option_map plain result ≡ number_value_of spans.now text.now }
{
    match whole_number(text) {
        Some(number) if is_in(spans, number) => Some(Value::Num(number)),
        _ => None,
    }
}

/// The number of a label in a listing, None exactly where it is not listed.
pub fn number_of_label(listing: &[(Text, i128)], label: &str) -> Option<i128>
    ensures { result ≡ listed listing.now label.now }
{
    for (name, number) in listing {
        if name.as_str() == label {
            return Some(*number);
        }
    }
    None
}

fn label_value(alloc: Global, listing: &Listing, text: &str) -> Result<Option<Value>, Memory>
    ensures { IfOk result (λ v. option_map plain v ≡ label_value_of listing.now text.now) }
{
    match number_of_label(listing.as_slice(), text) {
        Some(_) => Ok(Some(Value::Label(Text::of(alloc, text)?))),
        None => Ok(None),
    }
}

fn truth_value(text: &str) -> Option<Value>
    ensures { option_map plain result ≡ truth_value_of text.now }
{
    Some(Value::Bool(flag_value(text)?))
}

fn is_coded(ascii: bool, text: &str) -> bool
    ensures { IsTrue result ↔ IsCoded ascii text.now }
{
    if ascii { text.is_ascii() } else { true }
}

fn has_octet(text: &str, octet: u8) -> bool
    ensures { result ≡ list_any (λ o. nat_eq o octet) text.now }
{
    text.as_bytes().iter().any(|o| *o == octet)
}

// Whether a text is one of the encoding, without its termination octet.
fn text_fits(form: TextForm, text: &str) -> bool
    ensures { result ≡ text_fits_of form text.now }
{
    is_coded(form.ascii, text) && !has_octet(text, form.stop)
}

// Whether the bits that spell a text are no more than a value may be packed into: all octets of a fixed one, else its own and
// the termination octet.
fn is_short(form: TextForm, text: &str) -> bool
    ensures { result ≡ is_short_of form text.now }
{
    if form.fixed {
        form.length <= MOST_OCTETS
    } else {
        text.len() < MOST_OCTETS as usize
    }
}

fn string_value(alloc: Global, form: TextForm, text: &str) -> Result<Option<Value>, Memory>
    ensures { IfOk result (λ v. option_map plain v ≡ string_value_of form text.now) }
{
    if text_fits(form, text) && text.len() <= form.length as usize && is_short(form, text) {
        Ok(Some(Value::Text(Text::of(alloc, text)?)))
    } else {
        Ok(None)
    }
}

fn octets_value(size: u32, is_open: bool, octets: Vec<u8>) -> Option<Value>
    ensures { option_map plain result ≡ octets_value_of size is_open octets.items }
{
    if is_open && octets.len() > (size / 8) as usize {
        return None;
    }
    let bits = if is_open {
        8 * octets.len() as u32
    } else {
        size
    };
    if is_binary(size, is_open, bits, octets.as_slice()) {
        Some(Value::Bits(bits, Items::from_vec(octets)))
    } else {
        None
    }
}

fn binary_value(
    alloc: Global,
    size: u32,
    is_open: bool,
    text: &str,
) -> Result<Option<Value>, Memory>
    ensures { IfOk result (λ v. option_map plain v ≡ binary_value_of size is_open text.now) }
{
    match hex::decode(alloc, text.as_bytes()) {
        Ok(octets) => Ok(octets_value(size, is_open, octets)),
        Err(FromHexError::OutOfMemory) => Err(Memory),
        Err(_) => Ok(None),
    }
}

/// The value of the kind that the text of an attribute stands for: a whole number of its domain; one of its labels; `true`,
/// `1`, `false` or `0`; a text of its encoding, without the termination octet, not too long, and with room for what ends it; or
/// the hex of just so many
/// octets, in either case and without spaces, with zeros behind the last bit. For an open binary it is the hex of whole
/// octets, at most as many as fit its size in bits. None exactly where it is no value of that kind, or the kind is an array
/// or a container.
pub fn text_value(alloc: Global, kind: &Kind, text: &str) -> Result<Option<Value>, Memory>
    ensures { IfOk result (λ v. option_map plain v ≡ text_value_of kind.now text.now) }
{
    match kind {
        Kind::Int(_, spans) => Ok(number_value(spans, text)),
        Kind::Enum(_, listing) => label_value(alloc, listing, text),
        Kind::Bool(_) => Ok(truth_value(text)),
        Kind::Str(form) => string_value(alloc, *form, text),
        Kind::Bin(size, is_open) => binary_value(alloc, *size, *is_open, text),
        Kind::Arr(_, _) | Kind::Con(_) => Ok(None),
    }
}

/// A value that is no list of others, 0 in its place.
pub fn stored(value: Value) -> Value
    ensures { result ≡ stored_of (plain value) }
{
    match value {
        Value::Num(n) => Value::Num(n),
        Value::Label(label) => Value::Label(label),
        Value::Bool(truth) => Value::Bool(truth),
        Value::Text(text) => Value::Text(text),
        Value::Bits(bits, octets) => Value::Bits(bits, octets),
        Value::Items(_) => Value::Num(0),
        Value::Fields(_, _) => Value::Num(0),
    }
}
