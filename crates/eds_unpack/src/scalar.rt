//! Numbers, labels, truth values and texts, and reading them.

ghost use Rattle.std.specs.Prelude.{◌≡◌, [], Ok, IfErr, IfOk};
ghost use Rattle.eds_bits.specs.IntForms.{number_of};
ghost use Rattle.eds_bits.specs.Reader.{bits_left};
ghost use Rattle.eds_types.specs.Plain.{plain, truth};
ghost use Rattle.eds_types.specs.Reading.{judge, read_bits, ranged, named, truth_of};
ghost use Rattle.eds_unpack.specs.Labels.{AreLabels};
ghost use Rattle.eds_unpack.specs.Readers.{Gives, with_path, StopsReading};
ghost use Rattle.eds_unpack.specs.Scalars.{plain_of};

use crate::lookup::label_of;
use crate::skim::{number, skim_integer, skim_truth};
use eds_base::{Fail, Memory, Reason, Spans, Text};
use eds_bits::{BitReader, BoolForm, IntForm};
use eds_types::{Listing, Value};
use std::alloc::Global;

/// A number, a label as its type lists it, a truth value or a text.
#[derive(Clone, Copy)]
pub enum Scalar<'a> {
    Num(i64),
    /// A number that may be too large for the other kind.
    Large(u64),
    Label(&'a str),
    Bool(bool),
    /// A text, lent from the octets that hold it.
    Text(&'a str),
}

/// The value of a scalar.
#[inline(always)]
pub(crate) fn value_of(alloc: Global, scalar: Scalar<'_>) -> Result<Value, Memory>
    ensures { IfOk result (λ v. plain v ≡ plain_of scalar.entry) }
{
    match scalar {
        Scalar::Num(number) => Ok(Value::Num(i128::from(number))),
        Scalar::Large(number) => Ok(Value::Num(i128::from(number))),
        Scalar::Label(label) => Ok(Value::Label(Text::of(alloc, label)?)),
        Scalar::Bool(truth) => Ok(Value::Bool(truth)),
        Scalar::Text(text) => Ok(Value::Text(Text::of(alloc, text)?)),
    }
}

/// Reads a number of an integer type or sub-range. A digit above 9 comes before a number outside the domain.
#[inline(always)]
pub(crate) fn read_integer(
    form: IntForm,
    spans: &Spans,
    reader: &mut BitReader,
) -> Result<Value, Fail<Reason>>
    ensures gives { Gives (λ v. (plain v, bits_left reader.new)) (with_path [] result) (judge (λ c. ranged spans.now (number_of form c)) (read_bits form.bits (bits_left reader.old))) }
    ensures reason { IfErr result StopsReading }
{
    match skim_integer(form, spans, reader) {
        Ok(number) => Ok(Value::Num(number)),
        Err(reason) => Err(Fail::Named(reason)),
    }
}

/// Reads a label of an enumerated type, in which each label and number is listed once.
pub(crate) fn read_label(
    alloc: Global,
    form: IntForm,
    listing: &Listing,
    reader: &mut BitReader,
) -> Result<Value, Fail<Reason>>
    requires { AreLabels listing.now }
    ensures gives { Gives (λ v. (plain v, bits_left reader.new)) (with_path [] result) (judge (λ c. named listing.now (number_of form c)) (read_bits form.bits (bits_left reader.old))) }
    ensures reason { IfErr result StopsReading }
{
    let number = match number(form, reader) {
        Ok(number) => number,
        Err(reason) => return Err(Fail::Named(reason)),
    };
    match label_of(listing, number) {
        Some(label) => Ok(Value::Label(Text::of(alloc, label.as_str())?)),
        None => Err(Fail::Named(Reason::NoLabel)),
    }
}

/// Reads a truth value.
#[inline(always)]
pub(crate) fn read_truth(form: BoolForm, reader: &mut BitReader) -> Result<Value, Fail<Reason>>
    ensures gives { Gives (λ v. (plain v, bits_left reader.new)) (with_path [] result) (judge (λ c. Ok (truth (truth_of form c))) (read_bits form.bits (bits_left reader.old))) }
    ensures reason { IfErr result StopsReading }
{
    match skim_truth(form, reader) {
        Ok(truth) => Ok(Value::Bool(truth)),
        Err(reason) => Err(Fail::Named(reason)),
    }
}
