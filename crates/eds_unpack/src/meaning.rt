//! What the numbers of operations stand for.

ghost use Rattle.std.specs.Prelude.{◌+◌, ◌≡◌, ◌*◌, ◌%◌, ◌^◌, ◌<◌, ◌≤◌, ℕ, Result, Ok, Some, true, slice_get, vec_len, vec_capacity, IfSome};
ghost use Rattle.std.specs.Bool.{OnTrue};
ghost use Rattle.eds_base.specs.declared.fault.Fault.{Fault};
ghost use Rattle.eds_bits.specs.Bits.{Bits, low_bits};
ghost use Rattle.eds_bits.specs.IntForms.{number_of};
ghost use Rattle.eds_types.specs.Plain.{Plain, label, num, truth};
ghost use Rattle.eds_types.specs.Reading.{named, ranged};
ghost use Rattle.eds_types.specs.Rules.{KindKeeps};
ghost use Rattle.eds_unpack.specs.Labels.{AreLabels};
ghost use Rattle.eds_unpack.specs.Scalars.{IsPutLast, plain_of};
ghost use Rattle.eds_unpack.specs.Segments.{AreDigits, AreNumbers, IsCoding, IsOperation, decimal_by, in_order, integer_of, made, scalar_bits, scalar_of, value_in};

use crate::lookup::label_of;
use crate::scalar::Scalar;
use crate::segment::{Coding, Digits, Meaning, Numbers, Operation};
use eds_base::Spans;
use eds_bits::{IntForm, decode_int};
use eds_types::{Kind, Listing, TypeTable};

/// The number of so many bits whose number this is, where the octet that counts least may come first.
#[inline(always)]
fn in_order(little: bool, bits: u32, number: u64) -> u64
    requires some { 1 ≤ bits }
    requires few { bits ≤ 62 }
    requires whole { little ≡ true → bits % 8 ≡ 0 }
    requires bound { number < 2 ^ bits }
    ensures value { result ≡ in_order little bits number }
    ensures bound { result < 2 ^ bits }
{
    if little {
        number.swap_bytes() >> (64 - bits)
    } else {
        number
    }
}

/// What the number of so many bits stands for.
#[inline(always)]
fn made(coding: Coding, bits: u32, number: u64) -> i64
    requires some { 1 ≤ bits }
    requires few { bits ≤ 62 }
    requires whole { coding.little ≡ true → bits % 8 ≡ 0 }
    requires bound { number < 2 ^ bits }
    ensures { result ≡ made coding bits number }
{
    let number = in_order(coding.little, bits, number);
    if number < coding.half {
        number as i64
    } else if coding.down {
        coding.less as i64 - number as i64
    } else {
        number as i64 - coding.less as i64
    }
}

/// What the number of so many bits stands for, if it is of the domain.
#[inline(always)]
pub(crate) fn number_in(numbers: Numbers, bits: u32, number: u64) -> Option<i64>
    requires some { 1 ≤ bits }
    requires few { bits ≤ 62 }
    requires whole { numbers.coding.little ≡ true → bits % 8 ≡ 0 }
    requires bound { number < 2 ^ bits }
    ensures { (value : Bits → Result Plain Fault) → AreNumbers value bits numbers → IfSome result (λ n. value (low_bits bits number) ≡ Ok (num n)) }
{
    let found = made(numbers.coding, bits, number);
    if found < numbers.low || numbers.high < found {
        return None;
    }
    Some(found)
}

/// The number of these decimal digits, if none is above 9.
fn decimal_in(digits: Digits, number: u64) -> Option<i64>
    ensures { IfSome result (λ n. decimal_by digits.digit_bits (low_bits (digits.digit_bits * digits.digits) number) ≡ Some n) }
{
    let mut found = 0u64;
    let mut worth = 1u64;
    let mut left = number;
    for _ in 0..digits.digits {
        let digit = left % (1 << digits.digit_bits);
        if digit > 9 {
            return None;
        }
        found += digit * worth;
        worth *= 10;
        left >>= digits.digit_bits;
    }
    Some(found as i64)
}

/// The number of these decimal digits, if none is above 9 and it is of the domain.
#[inline(always)]
fn digits_in(digits: Digits, number: u64) -> Option<i64>
    ensures { (value : Bits → Result Plain Fault) (n : ℕ) → AreDigits value n digits → number < 2 ^ n → IfSome result (λ d. value (low_bits n number) ≡ Ok (num d)) }
{
    let found = decimal_in(digits, number)?;
    if found < digits.low || digits.high < found {
        return None;
    }
    Some(found)
}

/// The number of an integer type, if these bits have one in its domain.
fn integer_in(form: IntForm, spans: &Spans, number: u64) -> Option<i128>
    requires { number < 2 ^ form.bits }
    ensures { IfSome result (λ n. ranged spans.now (number_of form (low_bits form.bits number)) ≡ Ok (num n)) }
{
    let found = decode_int(form, number)?;
    if spans.holds(found) {
        Some(found)
    } else {
        None
    }
}

/// A number as a scalar, if it has at most 64 bits.
fn scalar_of_number(number: i128) -> Option<Scalar<'static>>
    ensures { IfSome result (λ s. plain_of s ≡ num number) }
{
    if let Ok(short) = i64::try_from(number) {
        return Some(Scalar::Num(short));
    }
    match u64::try_from(number) {
        Ok(large) => Some(Scalar::Large(large)),
        Err(_) => None,
    }
}

/// The label of an enumerated type, in which each label and number is listed once, if these bits have one.
fn label_in(form: IntForm, listing: &Listing, number: u64) -> Option<&str>
    requires bound { number < 2 ^ form.bits }
    requires once { AreLabels listing.now }
    ensures { IfSome result (λ l. named listing.now (number_of form (low_bits form.bits number)) ≡ Ok (label l.now)) }
{
    let found = decode_int(form, number)?;
    let label = label_of(listing, found)?;
    Some(label.as_str())
}

/// The number or label of a type, as its kind tells, if these bits have one. Other kinds have none.
fn told_scalar(kind: &Kind, number: u64) -> Option<Scalar<'_>>
    requires keeps { KindKeeps kind.now }
    requires bound { (n : ℕ) → scalar_bits kind.now ≡ Some n → number < 2 ^ n }
    ensures { (n : ℕ) → scalar_bits kind.now ≡ Some n → IfSome result (λ s. scalar_of kind.now (low_bits n number) ≡ Ok (plain_of s)) }
{
    match kind {
        Kind::Int(form, spans) => scalar_of_number(integer_in(*form, spans, number)?),
        Kind::Enum(form, listing) => Some(Scalar::Label(label_in(*form, listing, number)?)),
        _ => None,
    }
}

/// The label of a type, as its kind lists it, if one is listed with what the number of so many bits stands for.
#[inline(always)]
fn label_by(kind: &Kind, coding: Coding, bits: u32, number: u64) -> Option<&str>
    requires keeps { KindKeeps kind.now }
    requires coding { IsCoding (integer_of kind.now) bits coding }
    requires some { 1 ≤ bits }
    requires bound { number < 2 ^ bits }
    ensures { IfSome result (λ l. scalar_of kind.now (low_bits bits number) ≡ Ok (label l.now)) }
{
    let Kind::Enum(_, listing) = kind else {
        return None;
    };
    let label = label_of(listing, i128::from(made(coding, bits, number)))?;
    Some(label.as_str())
}

/// The number that the number of an operation's bits stands for, where the operation tells numbers and this is one of its domain.
/// None, too, where the row of the type tells it.
#[inline(always)]
pub(crate) fn whole_number(table: &TypeTable, operation: &Operation, number: u64) -> Option<i64>
    requires is { IsOperation table.now operation.now }
    requires bound { number < 2 ^ operation.now.bits }
    ensures { IfSome result (λ n. value_in (slice_get table.now operation.now.id.0) (low_bits operation.now.bits number) ≡ Ok (num n)) }
{
    match operation.meaning {
        Meaning::Number(numbers) => number_in(numbers, operation.bits, number),
        Meaning::Digits(digits) => digits_in(digits, number),
        _ => None,
    }
}

/// The truth value that the number of an operation's bits stands for, where the operation tells truth values.
#[inline(always)]
pub(crate) fn truth_value(table: &TypeTable, operation: &Operation, number: u64) -> Option<bool>
    requires is { IsOperation table.now operation.now }
    requires bound { number < 2 ^ operation.now.bits }
    ensures { IfSome result (λ b. value_in (slice_get table.now operation.now.id.0) (low_bits operation.now.bits number) ≡ Ok (truth b)) }
{
    match operation.meaning {
        Meaning::Truth(zero_is_false) => Some((number != 0) == zero_is_false),
        _ => None,
    }
}

/// The label that the number of an operation's bits stands for, where the operation tells labels and one is listed. None, too,
/// where the row of the type tells it.
#[inline(always)]
pub(crate) fn listed_label<'a>(
    table: &'a TypeTable,
    operation: &Operation,
    number: u64,
) -> Option<&'a str>
    requires is { IsOperation table.now operation.now }
    requires bound { number < 2 ^ operation.now.bits }
    ensures { IfSome result (λ l. value_in (slice_get table.now operation.now.id.0) (low_bits operation.now.bits number) ≡ Ok (label l.now)) }
{
    let Meaning::Label(coding) = operation.meaning else {
        return None;
    };
    table.keeps_rules();
    let kind = &table.row(operation.id).kind;
    label_by(kind, coding, operation.bits, number)
}

/// What the number of an operation's bits stands for, if they have a value.
#[inline(always)]
pub(crate) fn scalar_at<'a>(
    table: &'a TypeTable,
    operation: &Operation,
    number: u64,
) -> Option<Scalar<'a>>
    requires is { IsOperation table.now operation.now }
    requires bound { number < 2 ^ operation.now.bits }
    ensures { IfSome result (λ s. value_in (slice_get table.now operation.now.id.0) (low_bits operation.now.bits number) ≡ Ok (plain_of s)) }
{
    match operation.meaning {
        Meaning::Number(_) | Meaning::Digits(_) => {
            let found = whole_number(table, operation, number)?;
            Some(Scalar::Num(found))
        }
        Meaning::Truth(_) => {
            let found = truth_value(table, operation, number)?;
            Some(Scalar::Bool(found))
        }
        Meaning::Label(_) => {
            let found = listed_label(table, operation, number)?;
            Some(Scalar::Label(found))
        }
        Meaning::Told => {
            table.keeps_rules();
            told_scalar(&table.row(operation.id).kind, number)
        }
    }
}

/// Puts what the number of an operation's bits stands for last in a room, where there is place for it, if they have a value.
#[inline(always)]
pub(crate) fn put_scalar<'a>(
    table: &'a TypeTable,
    operation: &Operation,
    number: u64,
    room: &mut Vec<Scalar<'a>>,
) -> bool
    requires is { IsOperation table.now operation.now }
    requires bound { number < 2 ^ operation.now.bits }
    requires spare { vec_len room.old < vec_capacity room.old }
    ensures put { OnTrue result (IsPutLast (value_in (slice_get table.now operation.now.id.0) (low_bits operation.now.bits number)) room.old.items room.new.items) }
    ensures more { OnTrue result (vec_len room.new ≡ vec_len room.old + 1) }
    ensures few { vec_len room.new ≤ vec_len room.old + 1 }
    ensures room { vec_capacity room.new ≡ vec_capacity room.old }
{
    // a number is put with no choice of scalars between, as most of them are numbers
    if let Meaning::Number(numbers) = operation.meaning {
        return match number_in(numbers, operation.bits, number) {
            Some(found) => {
                room.push_reserved(Scalar::Num(found));
                true
            }
            None => false,
        };
    }
    match scalar_at(table, operation, number) {
        Some(scalar) => {
            room.push_reserved(scalar);
            true
        }
        None => false,
    }
}
