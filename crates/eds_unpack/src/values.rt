//! Reading the values of a container by its segment.

ghost use Rattle.std.specs.Prelude.{◌≡◌, ◌+◌, ◌*◌, ◌%◌, ◌^◌, ◌<◌, ◌≤◌, Result, true, length, map, take, drop, slice_get, vec_len, vec_capacity, IfOk, IfSome, IfNone};
ghost use Rattle.std.specs.Bool.{OnFalse, OnTrue};
ghost use Rattle.std.specs.List.{All};
ghost use Rattle.eds_base.specs.declared.fault.Fault.{Fault};
ghost use Rattle.eds_bits.specs.Bits.{Bits, bits_of, low_bits, unsigned_of};
ghost use Rattle.eds_bits.specs.Reader.{bits_left};
ghost use Rattle.eds_types.specs.Plain.{Plain, plain, fields, plains_of};
ghost use Rattle.eds_unpack.specs.Segments.{AreNumbers, ArePut, IsOperation, IsPut, IsSegmentOf, ReadsAs, value_in};

use crate::meaning::{number_in, scalar_at};
use crate::scalar::value_of;
use crate::segment::{Meaning, Numbers, Operation, Segment};
use crate::segments::Segments;
use eds_base::{Memory, TypeId};
use eds_bits::BitReader;
use eds_types::{TypeTable, Value};
use std::alloc::Global;

/// The unsigned number of eight octets, the most significant first.
#[inline(always)]
pub(crate) fn word_of(octets: &[u8]) -> u64
    requires { length octets.now ≡ 8 }
    ensures { result ≡ unsigned_of (bits_of octets.now) }
{
    u64::from_be_bytes([
        octets[0], octets[1], octets[2], octets[3], octets[4], octets[5], octets[6], octets[7],
    ])
}

/// The number of an operation's bits, in the eight octets that hold them.
#[inline(always)]
fn number_in_word(operation: &Operation, octets: &[u8]) -> u64
    requires { operation.now.first + 8 ≤ length octets.now }
    ensures value { result ≡ unsigned_of (take operation.now.bits (drop operation.now.at (bits_of octets.now))) }
    ensures bound { result < 2 ^ operation.now.bits }
{
    let first = operation.first as usize;
    let word = word_of(&octets[first..first + 8]);
    word >> operation.pad & operation.mask
}

/// The number of so many bits from one of the bits on that are left, wherever they stand.
pub(crate) fn number_ahead(at: u64, bits: u32, reader: &BitReader<'_>) -> u64
    requires few { bits ≤ 64 }
    requires enough { at + bits ≤ length (bits_left reader.now) }
    ensures value { result ≡ unsigned_of (take bits (drop at (bits_left reader.now))) }
    ensures bound { result < 2 ^ bits }
{
    let mut ahead = *reader;
    ahead.skip(at);
    match ahead.take(bits) {
        Some(number) => number,
        None => 0,
    }
}

/// The octets that are left, or none where the reader stands within an octet.
#[inline(always)]
pub(crate) fn octets_left<'a>(reader: &BitReader<'a>) -> &'a [u8]
    ensures { 1 ≤ length result.now → bits_left reader.now ≡ bits_of result.now }
{
    match reader.octets() {
        Some(octets) => octets,
        None => &[],
    }
}

/// The number of an operation's bits.
#[inline(always)]
pub(crate) fn number_of_bits(operation: &Operation, octets: &[u8], reader: &BitReader<'_>) -> u64
    requires octets { 8 ≤ length octets.now → bits_left reader.now ≡ bits_of octets.now }
    requires enough { operation.now.at + operation.now.bits ≤ length (bits_left reader.now) }
    ensures value { result ≡ unsigned_of (take operation.now.bits (drop operation.now.at (bits_left reader.now))) }
    ensures bound { result < 2 ^ operation.now.bits }
{
    if operation.first as usize + 8 <= octets.len() {
        number_in_word(operation, octets)
    } else {
        number_ahead(u64::from(operation.at), operation.bits, reader)
    }
}

/// Puts what the number of so many bits stands for last, where there is room for it, if it is of the domain.
#[inline(always)]
pub(crate) fn put_number(numbers: Numbers, bits: u32, number: u64, values: &mut Vec<Value>) -> bool
    requires some { 1 ≤ bits }
    requires few { bits ≤ 62 }
    requires whole { numbers.coding.little ≡ true → bits % 8 ≡ 0 }
    requires bound { number < 2 ^ bits }
    requires spare { vec_len values.old < vec_capacity values.old }
    ensures put { (value : Bits → Result Plain Fault) → AreNumbers value bits numbers → OnTrue result (IsPut (value (low_bits bits number)) values.old.items values.new.items) }
    ensures more { OnTrue result (vec_len values.new ≡ vec_len values.old + 1) }
    ensures same { OnFalse result (values.new.items ≡ values.old.items) }
    ensures room { vec_capacity values.new ≡ vec_capacity values.old }
{
    match number_in(numbers, bits, number) {
        Some(found) => {
            values.push_reserved(Value::Num(i128::from(found)));
            true
        }
        None => false,
    }
}

/// Puts the value of an operation last, where there is room for it, if its bits have one.
#[inline(always)]
pub(crate) fn put_value(
    alloc: Global,
    table: &TypeTable,
    operation: &Operation,
    number: u64,
    values: &mut Vec<Value>,
) -> Result<bool, Memory>
    requires is { IsOperation table.now operation.now }
    requires bound { number < 2 ^ operation.now.bits }
    requires spare { vec_len values.old < vec_capacity values.old }
    ensures put { IfOk result (λ put. OnTrue put (IsPut (value_in (slice_get table.now operation.now.id.0) (low_bits operation.now.bits number)) values.old.items values.new.items)) }
    ensures more { IfOk result (λ put. OnTrue put (vec_len values.new ≡ vec_len values.old + 1)) }
    ensures same { IfOk result (λ put. OnFalse put (values.new.items ≡ values.old.items)) }
    ensures room { vec_capacity values.new ≡ vec_capacity values.old }
{
    // a number is put with no scalar between, which would cost half as much again
    if let Meaning::Number(numbers) = operation.meaning {
        return Ok(put_number(numbers, operation.bits, number, values));
    }
    match scalar_at(table, operation, number) {
        Some(scalar) => {
            values.push_reserved(value_of(alloc, scalar)?);
            Ok(true)
        }
        None => Ok(false),
    }
}

/// Puts the values of operations last, if the bits of each have one, and else none.
pub(crate) fn put_values(
    alloc: Global,
    table: &TypeTable,
    operations: &[Operation],
    reader: &BitReader<'_>,
    values: &mut Vec<Value>,
) -> Result<bool, Memory>
    requires are { All (IsOperation table.now) operations.now }
    requires within { All (λ o. o.at + o.bits ≤ length (bits_left reader.now)) operations.now }
    ensures put { IfOk result (λ put. OnTrue put (ArePut table.now (bits_left reader.now) operations.now values.old.items values.new.items)) }
    ensures same { IfOk result (λ put. OnFalse put (map plain values.new.items ≡ map plain values.old.items)) }
{
    let octets = octets_left(reader);
    let before = values.len();
    values.reserve(operations.len())?;
    for operation in operations {
        let number = number_of_bits(operation, octets, reader);
        if !put_value(alloc, table, operation, number, values)? {
            values.truncate(before);
            return Ok(false);
        }
    }
    Ok(true)
}

/// Reads the values of a container by its segment. None, where it doesn't tell them: then the reader stays where it is.
pub(crate) fn read_segment(
    alloc: Global,
    table: &TypeTable,
    segment: &Segment,
    container: TypeId,
    reader: &mut BitReader,
) -> Result<Option<Vec<Value>>, Memory>
    requires { IsSegmentOf table.now container.0 segment.now }
    ensures read { IfOk result (λ o. IfSome o (λ vs. ReadsAs table.now container.0 (bits_left reader.old) (fields container.0 (plains_of (map plain vs.items))) (bits_left reader.new))) }
    ensures size { IfOk result (λ o. IfSome o (λ vs. length (bits_left reader.old) ≡ segment.now.bits + length (bits_left reader.new))) }
    ensures same { IfOk result (λ o. IfNone o (bits_left reader.new ≡ bits_left reader.old)) }
{
    if reader.left() < u64::from(segment.bits) {
        return Ok(None);
    }
    let operations = segment.operations.as_slice();
    let mut values = Vec::with_capacity(alloc, operations.len())?;
    if !put_values(alloc, table, operations, reader, &mut values)? {
        return Ok(None);
    }
    reader.skip(u64::from(segment.bits));
    Ok(Some(values))
}

/// Reads the values of a container that has a segment. None, where it has none, or the segment doesn't tell them: then the
/// reader stays where it is.
#[inline(always)]
pub(crate) fn read_by_segment(
    alloc: Global,
    table: &TypeTable,
    segments: &Segments<'_>,
    container: TypeId,
    reader: &mut BitReader,
) -> Result<Option<Vec<Value>>, Memory>
    requires { segments.now ≡ table.now }
    ensures read { IfOk result (λ o. IfSome o (λ vs. ReadsAs table.now container.0 (bits_left reader.old) (fields container.0 (plains_of (map plain vs.items))) (bits_left reader.new))) }
    ensures same { IfOk result (λ o. IfNone o (bits_left reader.new ≡ bits_left reader.old)) }
{
    match segments.find(container) {
        Some(segment) => read_segment(alloc, table, segment, container, reader),
        None => Ok(None),
    }
}
