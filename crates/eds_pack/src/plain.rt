//! Values in which nothing is nested.

ghost use Rattle.std.specs.Prelude.{◌≡◌, ◌↔◌, ℕ, IsTrue, option_map};
ghost use Rattle.std.specs.Option.{option_copied};
ghost use Rattle.eds_bits.specs.Scalars.{IsCoded};
ghost use Rattle.eds_types.specs.PackedSizes.{Size, number_size as number_size_of, label_size as label_size_of, truth_size as truth_size_of, text_size as text_size_of, binary_size as binary_size_of, text_fits as text_fits_of, tells as tells_of, packed_kind_size};
ghost use Rattle.eds_types.specs.Plain.{Plain, plain};
ghost use Rattle.eds_types.specs.Rows.{Table, list_has};
ghost use Rattle.eds_pack.specs.Counting.{at_once, is_flat};

use eds_base::{Spans, Text};
use eds_bits::{BoolForm, IntForm, TextForm};
use eds_types::{Kind, Listing, PackReason, Value, is_binary, number_of_label};

/// How many bits a number has, or why it doesn't pack.
pub(crate) fn number_size(form: IntForm, spans: &Spans, value: &Value) -> Result<u32, PackReason>
    ensures { at_once result ≡ number_size_of form spans.now (plain value.now) }
{
    match value {
        Value::Num(number) if spans.holds(*number) => Ok(form.bits),
        Value::Num(_) => Err(PackReason::OutOfRange),
        _ => Err(PackReason::WrongKind),
    }
}

/// How many bits a label has, or why it doesn't pack.
pub(crate) fn label_size(form: IntForm, listing: &Listing, value: &Value) -> Result<u32, PackReason>
    ensures { at_once result ≡ label_size_of form listing.now (plain value.now) }
{
    match value {
        Value::Label(label) => match number_of_label(listing.as_slice(), label.as_str()) {
            Some(_) => Ok(form.bits),
            None => Err(PackReason::NoLabel),
        },
        _ => Err(PackReason::WrongKind),
    }
}

/// How many bits a truth value has, or why it doesn't pack.
pub(crate) fn truth_size(form: BoolForm, value: &Value) -> Result<u32, PackReason>
    ensures { at_once result ≡ truth_size_of form.bits (plain value.now) }
{
    match value {
        Value::Bool(_) => Ok(form.bits),
        _ => Err(PackReason::WrongKind),
    }
}

fn is_coded(ascii: bool, text: &str) -> bool
    ensures { IsTrue result ↔ IsCoded ascii text.now }
{
    if ascii { text.is_ascii() } else { true }
}

fn holds_octet(text: &str, octet: u8) -> bool
    ensures { result ≡ list_has text.now octet }
{
    text.as_bytes().contains(&octet)
}

// Whether a text is one of the encoding that doesn't hold its termination octet.
fn text_fits(form: TextForm, text: &str) -> bool
    ensures { result ≡ text_fits_of form text.now }
{
    is_coded(form.ascii, text) && !holds_octet(text, form.stop)
}

/// How many bits a text has, or why it doesn't pack.
pub(crate) fn text_size(form: TextForm, value: &Value) -> Result<u32, PackReason>
    ensures { at_once result ≡ text_size_of form (plain value.now) }
{
    let Value::Text(text) = value else {
        return Err(PackReason::WrongKind);
    };
    let text = text.as_str();
    if !text_fits(form, text) {
        return Err(PackReason::BadText);
    }
    if text.len() > form.length as usize {
        return Err(PackReason::WrongSize);
    }
    if form.fixed {
        Ok(8 * form.length)
    } else {
        Ok(8 * (text.len() as u32 + 1))
    }
}

/// How many bits a binary of `size` bits, or an open one of at most so many, has, or why it doesn't pack.
pub(crate) fn binary_size(size: u32, is_open: bool, value: &Value) -> Result<u32, PackReason>
    ensures { at_once result ≡ binary_size_of size is_open (plain value.now) }
{
    match value {
        Value::Bits(bits, octets) => {
            if is_binary(size, is_open, *bits, octets.as_slice()) {
                Ok(*bits)
            } else {
                Err(PackReason::WrongSize)
            }
        }
        _ => Err(PackReason::WrongKind),
    }
}

/// How many bits a value has of a kind in which nothing is nested, or why it doesn't pack.
pub(crate) fn flat_size(kind: &Kind, value: &Value) -> Result<u32, PackReason>
    requires { IsTrue (is_flat kind.now) }
    ensures { (t : Table) (size : ℕ → Plain → Size) (id : ℕ) → at_once result ≡ packed_kind_size t size id kind.now (plain value.now) }
{
    match kind {
        Kind::Int(form, spans) => number_size(*form, spans, value),
        Kind::Enum(form, listing) => label_size(*form, listing, value),
        Kind::Bool(form) => truth_size(*form, value),
        Kind::Str(form) => text_size(*form, value),
        Kind::Bin(size, is_open) => binary_size(*size, *is_open, value),
        Kind::Arr(_, _) | Kind::Con(_) => unreachable!(),
    }
}

/// Whether a value tells so many items.
pub(crate) fn tells(told: Option<&Value>, count: usize) -> bool
    ensures { result ≡ tells_of (option_map plain (option_copied told.entry)) count }
{
    match told {
        Some(Value::Num(number)) => *number == count as i128,
        _ => false,
    }
}
