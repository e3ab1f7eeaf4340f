//! Reading texts, binaries and padding.

ghost use Rattle.std.specs.Prelude.{◌≡◌, [], ◌*◌, Ok, IfErr, length, drop};
ghost use Rattle.eds_bits.specs.Bits.{octets_of};
ghost use Rattle.eds_bits.specs.Reader.{bits_left};
ghost use Rattle.eds_types.specs.Plain.{plain, bits as binary};
ghost use Rattle.eds_types.specs.Reading.{judge, read_bits as bits_read, read_text as text_read};
ghost use Rattle.eds_unpack.specs.Readers.{Gives, with_path, StopsReading, passed};

use crate::skim::{reason_of, skim_padding};
use eds_base::{Fail, Reason};
use eds_bits::{BitReader, TextForm};
use eds_codec::{read_binary, read_text};
use eds_types::Value;
use std::alloc::Global;

/// Reads a text.
pub(crate) fn read_string(
    alloc: Global,
    form: TextForm,
    reader: &mut BitReader,
) -> Result<Value, Fail<Reason>>
    ensures gives { Gives (λ v. (plain v, bits_left reader.new)) (with_path [] result) (text_read form form.fixed (bits_left reader.old)) }
    ensures reason { IfErr result StopsReading }
{
    match read_text(alloc, form, reader) {
        Ok(text) => Ok(Value::Text(text)),
        Err(Fail::Named(fault)) => Err(Fail::Named(reason_of(fault))),
        Err(Fail::Memory) => Err(Fail::Memory),
    }
}

/// Reads a binary of so many bits.
pub(crate) fn read_octets(
    alloc: Global,
    bits: u32,
    reader: &mut BitReader,
) -> Result<Value, Fail<Reason>>
    ensures gives { Gives (λ v. (plain v, bits_left reader.new)) (with_path [] result) (judge (λ c. Ok (binary bits (octets_of c))) (bits_read bits (bits_left reader.old))) }
    ensures reason { IfErr result StopsReading }
{
    match read_binary(alloc, bits, reader) {
        Ok(octets) => Ok(Value::Bits(bits, octets)),
        Err(Fail::Named(_)) => Err(Fail::Named(Reason::Short)),
        Err(Fail::Memory) => Err(Fail::Memory),
    }
}

/// Passes so many bits, whatever they are.
pub(crate) fn skip_padding(bits: u32, reader: &mut BitReader) -> Result<(), Fail<Reason>>
    ensures gives { Gives (λ u. bits_left reader.new) (with_path [] result) (passed (bits_read bits (bits_left reader.old))) }
    ensures reason { IfErr result StopsReading }
{
    match skim_padding(bits, reader) {
        Ok(()) => Ok(()),
        Err(reason) => Err(Fail::Named(reason)),
    }
}
