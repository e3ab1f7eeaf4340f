//! Reading a value of a scalar type, and items of one, one right behind the other.

ghost use Rattle.std.specs.Prelude.{◌≡◌, ◌+◌, ◌*◌, ◌%◌, ◌^◌, ◌<◌, ◌≤◌, true, Result, length, map, take, drop, slice_get, IfOk, IfSome, IfNone, OnSome};
ghost use Rattle.eds_base.specs.declared.fault.Fault.{Fault};
ghost use Rattle.eds_bits.specs.Bits.{Bits, bits_of, unsigned_of};
ghost use Rattle.eds_bits.specs.Reader.{bits_left};
ghost use Rattle.eds_types.specs.Plain.{Plain, plain};
ghost use Rattle.eds_unpack.specs.Items.{AreItems, ItemsReadAs};
ghost use Rattle.eds_unpack.specs.Segments.{AreNumbers, IsOperation, IsScalar, ScalarReadsAs, value_in};

use crate::meaning::scalar_at;
use crate::scalar::value_of;
use crate::segment::{Meaning, Numbers, Operation};
use crate::segments::Segments;
use crate::values::{number_ahead, number_of_bits, octets_left, put_number, put_value, word_of};
use eds_base::{Memory, TypeId};
use eds_bits::BitReader;
use eds_types::{TypeTable, Value};
use std::alloc::Global;

/// The number of an operation's bits, where they begin at one of the bits of some octets. None, where no eight of the octets hold
/// them.
#[inline(always)]
fn number_in_octets(operation: &Operation, at: u64, octets: &[u8]) -> Option<u64>
    requires { at ≤ 2 ^ 38 }
    ensures eight { OnSome result (8 ≤ length octets.now) }
    ensures value { IfSome result (λ x. x ≡ unsigned_of (take operation.now.bits (drop at (bits_of octets.now)))) }
    ensures bound { IfSome result (λ x. x < 2 ^ operation.now.bits) }
{
    let end = at + u64::from(operation.bits);
    let last = end.div_ceil(8).max(8);
    let first = last - 8;
    if at < 8 * first || (octets.len() as u64) < last {
        return None;
    }
    let word = word_of(&octets[first as usize..last as usize]);
    Some(word >> (8 * last - end) & operation.mask)
}

/// The number of an octet, where an operation has eight bits and they begin with an octet. None in each other case.
#[inline(always)]
fn whole_octet(operation: &Operation, at: u64, octets: &[u8]) -> Option<u64>
    requires { at ≤ 2 ^ 38 }
    ensures eight { OnSome result (8 ≤ length octets.now) }
    ensures value { IfSome result (λ x. x ≡ unsigned_of (take operation.now.bits (drop at (bits_of octets.now)))) }
    ensures bound { IfSome result (λ x. x < 2 ^ operation.now.bits) }
{
    if operation.bits != 8 || at % 8 != 0 || octets.len() < 8 {
        return None;
    }
    let place = (at / 8) as usize;
    if place >= octets.len() {
        return None;
    }
    Some(u64::from(octets[place]))
}

/// The number of an operation's bits, where they begin at one of the bits that are left.
#[inline(always)]
fn number_at(operation: &Operation, at: u64, octets: &[u8], reader: &BitReader<'_>) -> u64
    requires near { at ≤ 2 ^ 38 }
    requires few { operation.now.bits ≤ 64 }
    requires octets { 8 ≤ length octets.now → bits_left reader.now ≡ bits_of octets.now }
    requires enough { at + operation.now.bits ≤ length (bits_left reader.now) }
    ensures value { result ≡ unsigned_of (take operation.now.bits (drop at (bits_left reader.now))) }
    ensures bound { result < 2 ^ operation.now.bits }
{
    if let Some(number) = whole_octet(operation, at, octets) {
        return number;
    }
    match number_in_octets(operation, at, octets) {
        Some(number) => number,
        None => number_ahead(at, operation.bits, reader),
    }
}

/// The numbers of so many items of an operation's type, if each is of the domain.
#[inline(never)]
fn numbers_of(
    alloc: Global,
    operation: &Operation,
    numbers: Numbers,
    count: u32,
    reader: &BitReader<'_>,
) -> Result<Option<Vec<Value>>, Memory>
    requires few { operation.now.bits ≤ 62 }
    requires whole { numbers.coding.little ≡ true → operation.now.bits % 8 ≡ 0 }
    requires enough { count * operation.now.bits ≤ length (bits_left reader.now) }
    ensures count { IfOk result (λ o. IfSome o (λ vs. length vs.items ≡ count)) }
    ensures values { (value : Bits → Result Plain Fault) → AreNumbers value operation.now.bits numbers → IfOk result (λ o. IfSome o (λ vs. AreItems value operation.now.bits (bits_left reader.now) (map plain vs.items))) }
{
    let octets = octets_left(reader);
    let mut values = Vec::with_capacity(alloc, count as usize)?;
    let mut at = 0;
    for _ in 0..count {
        let number = number_at(operation, at, octets, reader);
        if !put_number(numbers, operation.bits, number, &mut values) {
            return Ok(None);
        }
        at += u64::from(operation.bits);
    }
    Ok(Some(values))
}

/// The values of so many items of an operation's type, if the bits of each have one, whatever they are.
#[inline(never)]
fn values_of(
    alloc: Global,
    table: &TypeTable,
    operation: &Operation,
    count: u32,
    reader: &BitReader<'_>,
) -> Result<Option<Vec<Value>>, Memory>
    requires is { IsOperation table.now operation.now }
    requires few { operation.now.bits ≤ 64 }
    requires enough { count * operation.now.bits ≤ length (bits_left reader.now) }
    ensures count { IfOk result (λ o. IfSome o (λ vs. length vs.items ≡ count)) }
    ensures values { IfOk result (λ o. IfSome o (λ vs. AreItems (value_in (slice_get table.now operation.now.id.0)) operation.now.bits (bits_left reader.now) (map plain vs.items))) }
{
    let octets = octets_left(reader);
    let mut values = Vec::with_capacity(alloc, count as usize)?;
    let mut at = 0;
    for _ in 0..count {
        let number = number_at(operation, at, octets, reader);
        if !put_value(alloc, table, operation, number, &mut values)? {
            return Ok(None);
        }
        at += u64::from(operation.bits);
    }
    Ok(Some(values))
}

/// The values of so many items of an operation's type, if the bits of each have one.
fn items_of(
    alloc: Global,
    table: &TypeTable,
    operation: &Operation,
    count: u32,
    reader: &BitReader<'_>,
) -> Result<Option<Vec<Value>>, Memory>
    requires is { IsOperation table.now operation.now }
    requires few { operation.now.bits ≤ 64 }
    requires enough { count * operation.now.bits ≤ length (bits_left reader.now) }
    ensures count { IfOk result (λ o. IfSome o (λ vs. length vs.items ≡ count)) }
    ensures values { IfOk result (λ o. IfSome o (λ vs. AreItems (value_in (slice_get table.now operation.now.id.0)) operation.now.bits (bits_left reader.now) (map plain vs.items))) }
{
    match operation.meaning {
        Meaning::Number(numbers) => numbers_of(alloc, operation, numbers, count, reader),
        _ => values_of(alloc, table, operation, count, reader),
    }
}

/// Reads so many items of an operation's type. None, where too few bits are left, or some have no value: then the reader stays
/// where it is. Memory is taken once the bits are known to be there, for as many values as there are items.
fn read_items_by(
    alloc: Global,
    table: &TypeTable,
    operation: &Operation,
    count: u128,
    reader: &mut BitReader,
) -> Result<Option<Vec<Value>>, Memory>
    requires is { IsOperation table.now operation.now }
    requires few { operation.now.bits ≤ 64 }
    ensures read { IfOk result (λ o. IfSome o (λ vs. ItemsReadAs table.now operation.now.id.0 count (bits_left reader.old) (map plain vs.items) (bits_left reader.new))) }
    ensures same { IfOk result (λ o. IfNone o (bits_left reader.new ≡ bits_left reader.old)) }
{
    let Ok(count) = u32::try_from(count) else {
        return Ok(None);
    };
    let bits = u64::from(count) * u64::from(operation.bits);
    if reader.left() < bits {
        return Ok(None);
    }
    let Some(values) = items_of(alloc, table, operation, count, reader)? else {
        return Ok(None);
    };
    reader.skip(bits);
    Ok(Some(values))
}

/// Reads so many items of a scalar type. None, where the type is no scalar, too few bits are left, or some have no value: then
/// the reader stays where it is.
pub(crate) fn read_scalars(
    alloc: Global,
    table: &TypeTable,
    segments: &Segments<'_>,
    id: TypeId,
    count: u128,
    reader: &mut BitReader,
) -> Result<Option<Vec<Value>>, Memory>
    requires { segments.now ≡ table.now }
    ensures read { IfOk result (λ o. IfSome o (λ vs. ItemsReadAs table.now id.0 count (bits_left reader.old) (map plain vs.items) (bits_left reader.new))) }
    ensures same { IfOk result (λ o. IfNone o (bits_left reader.new ≡ bits_left reader.old)) }
{
    match segments.operation(id) {
        Some(operation) => read_items_by(alloc, table, operation, count, reader),
        None => Ok(None),
    }
}

/// Reads one value of a scalar type. None, where the type is no scalar, too few bits are left, or they have no value: then the
/// reader stays where it is.
pub(crate) fn read_scalar(
    alloc: Global,
    table: &TypeTable,
    segments: &Segments<'_>,
    id: TypeId,
    reader: &mut BitReader,
) -> Result<Option<Value>, Memory>
    requires { segments.now ≡ table.now }
    ensures read { IfOk result (λ o. IfSome o (λ v. ScalarReadsAs table.now id.0 (bits_left reader.old) (plain v) (bits_left reader.new))) }
    ensures same { IfOk result (λ o. IfNone o (bits_left reader.new ≡ bits_left reader.old)) }
{
    let Some(operation) = segments.operation(id) else {
        return Ok(None);
    };
    if reader.left() < u64::from(operation.bits) {
        return Ok(None);
    }
    let number = number_of_bits(operation, octets_left(reader), reader);
    let Some(scalar) = scalar_at(table, operation, number) else {
        return Ok(None);
    };
    let value = value_of(alloc, scalar)?;
    reader.skip(u64::from(operation.bits));
    Ok(Some(value))
}
