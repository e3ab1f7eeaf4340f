//! Making the segments of the containers of a table.

ghost use Rattle.std.specs.Prelude.{◌≡◌, ◌+◌, ◌*◌, ◌^◌, ◌<◌, ◌≤◌, ◌≤ℤ◌, ℕ, ℤ, pos, ◌+ℤ◌, ◌-ℤ◌, List, Some, Bool, true, false, length, take, IfOk, IfSome};
ghost use Rattle.eds_bits.specs.Bits.{Bits, low_bits};
ghost use Rattle.eds_bits.specs.Encodings.{number_by};
ghost use Rattle.eds_bits.specs.IntForms.{number_of};
ghost use Rattle.eds_bits.specs.declared.forms.ByteOrder.TheVariants.{Big, Little};
ghost use Rattle.eds_types.specs.declared.row.Kind.{Kind as Shape};
ghost use Rattle.eds_types.specs.declared.row.Kind.TheVariants.{Int, Enum};
ghost use Rattle.eds_types.specs.Reading.{is_within};
ghost use Rattle.eds_unpack.specs.Segments.{Agrees, AreOperationsOf, AreScalars, IsCoding, IsHeadOf, IsOperation, IsOperationOf, IsSure, decimal_by, scalar_bits, scalar_of, signed};

use crate::segment::{Coding, Digits, Meaning, Numbers, Operation, Segment};
use crate::straight::is_straight;
use eds_base::{Memory, Spans, TypeId};
use eds_bits::{ByteOrder, Encoding, IntForm};
use eds_types::{Kind, Part, TypeTable};
use std::alloc::Global;

/// From which number on one of so many bits stands for what it is above another, or, where these count down, below it: from
/// none on, where no number is negative. None, where the encoding has decimal digits.
fn signs_of(encoding: Encoding, bits: u32) -> Option<(bool, u64, u64)>
    requires some { 1 ≤ bits }
    requires few { bits ≤ 62 }
    ensures numbers { IfSome result (λ s. (x : ℕ) → x < 2 ^ bits → number_by encoding (low_bits bits x) ≡ Some (signed s.0 s.1 s.2 x)) }
    ensures few { IfSome result (λ s. s.2 ≤ 2 ^ 62) }
{
    let patterns = 1u64 << bits;
    let half = 1u64 << (bits - 1);
    match encoding {
        Encoding::Unsigned => Some((false, patterns, patterns)),
        Encoding::TwosComplement => Some((false, half, patterns)),
        Encoding::OnesComplement => Some((false, half, patterns - 1)),
        Encoding::SignMagnitude => Some((true, half, half)),
        _ => None,
    }
}

/// Whether the octet that counts least comes first.
fn is_little(order: ByteOrder) -> bool
    ensures little { result ≡ true → order ≡ Little }
    ensures big { result ≡ false → order ≡ Big }
{
    match order {
        ByteOrder::Little => true,
        ByteOrder::Big => false,
    }
}

/// What the numbers of an integer type's or a label's bits stand for. None, where there may be more than 62 bits, or decimal
/// digits.
fn coding_of(form: IntForm) -> Option<Coding>
    ensures { IfSome result (IsCoding (number_of form) form.bits) }
{
    if form.bits > 62 {
        return None;
    }
    let (down, half, less) = signs_of(form.encoding, form.bits)?;
    Some(Coding {
        little: is_little(form.order),
        down,
        half,
        less,
    })
}

/// The least and the greatest number of a domain that is one interval.
fn ends_of(spans: &Spans) -> Option<(i64, i64)>
    ensures { IfSome result (λ x. (n : ℤ) → x.0 ≤ℤ n → n ≤ℤ x.1 → is_within spans.now n ≡ true) }
{
    let [span] = spans.as_slice() else {
        return None;
    };
    let Ok(low) = i64::try_from(span.low) else {
        return None;
    };
    let Ok(high) = i64::try_from(span.high) else {
        return None;
    };
    Some((low, high))
}

/// Whether all patterns of so many bits stand for numbers of the domain.
fn are_in_domain(bits: u32, numbers: Numbers) -> bool
    requires { bits ≤ 64 }
    ensures from_zero { result ≡ true → numbers.low ≤ℤ pos 0 }
    ensures to_half { result ≡ true → pos numbers.coding.half ≤ℤ (numbers.high +ℤ pos 1) }
    ensures from_least { result ≡ true → numbers.coding.down ≡ false → numbers.low ≤ℤ (pos numbers.coding.half -ℤ pos numbers.coding.less) }
    ensures to_greatest { result ≡ true → numbers.coding.down ≡ false → (pos (2 ^ bits) -ℤ pos numbers.coding.less) ≤ℤ (numbers.high +ℤ pos 1) }
    ensures down_to_least { result ≡ true → numbers.coding.down ≡ true → (numbers.low +ℤ pos (2 ^ bits)) ≤ℤ (pos numbers.coding.less +ℤ pos 1) }
    ensures down_from_greatest { result ≡ true → numbers.coding.down ≡ true → (pos numbers.coding.less -ℤ pos numbers.coding.half) ≤ℤ numbers.high }
{
    let patterns = 1i128 << bits;
    let half = i128::from(numbers.coding.half);
    let less = i128::from(numbers.coding.less);
    let low = i128::from(numbers.low);
    let beyond = i128::from(numbers.high) + 1;
    if low > 0 || half > beyond {
        return false;
    }
    if numbers.coding.down {
        if less - half >= beyond {
            return false;
        }
        if low + patterns > less + 1 {
            return false;
        }
        return true;
    }
    if low > half - less {
        return false;
    }
    if patterns - less > beyond {
        return false;
    }
    true
}

/// Whether all patterns of so many bits have a value.
fn is_sure(bits: u32, meaning: Meaning) -> bool
    requires { bits ≤ 64 }
    ensures { (kind : Shape) → Agrees kind bits meaning → result ≡ true → IsSure (scalar_of kind) bits }
{
    match meaning {
        Meaning::Number(numbers) => are_in_domain(bits, numbers),
        Meaning::Truth(_) => true,
        Meaning::Digits(_) | Meaning::Label(_) | Meaning::Told => false,
    }
}

/// How many bits each decimal digit of an integer type has, and how many digits there are. None, where the encoding has no
/// decimal digits, or the octet that counts least comes first.
fn digits_of(form: IntForm) -> Option<(u32, u32)>
    ensures wide { IfSome result (λ d. 4 ≤ d.0) }
    ensures narrow { IfSome result (λ d. d.0 ≤ 8) }
    ensures size { IfSome result (λ d. form.bits ≡ d.0 * d.1) }
    ensures numbers { IfSome result (λ d. (c : Bits) → number_of form c ≡ decimal_by d.0 c) }
{
    if is_little(form.order) {
        return None;
    }
    match form.encoding {
        Encoding::PackedBcd => Some((4, form.bits / 4)),
        Encoding::Bcd => Some((8, form.bits / 8)),
        _ => None,
    }
}

/// How the bits of an integer type make its value.
fn number_meaning(form: IntForm, spans: &Spans) -> Meaning
    ensures { Agrees (Int form spans.now) form.bits result }
{
    let Some((low, high)) = ends_of(spans) else {
        return Meaning::Told;
    };
    if let Some(coding) = coding_of(form) {
        return Meaning::Number(Numbers { coding, low, high });
    }
    match digits_of(form) {
        Some((digit_bits, digits)) => Meaning::Digits(Digits {
            digit_bits,
            digits,
            low,
            high,
        }),
        None => Meaning::Told,
    }
}

/// How the bits of an enumerated type make its value.
fn label_meaning(form: IntForm) -> Meaning
    ensures { (listing : List (List ℕ × ℤ)) → Agrees (Enum form listing) form.bits result }
{
    match coding_of(form) {
        Some(coding) => Meaning::Label(coding),
        None => Meaning::Told,
    }
}

/// How many bits a scalar has, and how they make its value.
fn meaning_of(kind: &Kind) -> Option<(u32, Meaning)>
    ensures size { IfSome result (λ x. scalar_bits kind.now ≡ Some x.0) }
    ensures agrees { IfSome result (λ x. Agrees kind.now x.0 x.1) }
    ensures some { IfSome result (λ x. 1 ≤ x.0) }
    ensures few { IfSome result (λ x. x.0 ≤ 64) }
{
    match kind {
        Kind::Int(form, spans) => Some((form.bits, number_meaning(*form, spans))),
        Kind::Enum(form, _) => Some((form.bits, label_meaning(*form))),
        Kind::Bool(form) => Some((form.bits, Meaning::Truth(form.zero_is_false))),
        _ => None,
    }
}

/// The operation of so many bits at a place, where eight octets hold them.
fn operation_at(id: TypeId, at: u32, bits: u32, meaning: Meaning) -> Option<Operation>
    requires near { at ≤ 2 ^ 24 }
    requires some { 1 ≤ bits }
    requires few { bits ≤ 64 }
    ensures typed { IfSome result (λ o. o.id ≡ id) }
    ensures place { IfSome result (λ o. o.at ≡ at) }
    ensures size { IfSome result (λ o. o.bits ≡ bits) }
    ensures meaning { IfSome result (λ o. o.meaning ≡ meaning) }
    ensures sure { (kind : Shape) → Agrees kind bits meaning → IfSome result (λ o. o.sure ≡ true → IsSure (scalar_of kind) bits) }
{
    let end = at + bits;
    let first = end.div_ceil(8).max(8) - 8;
    if at < 8 * first {
        return None;
    }
    Some(Operation {
        id,
        at,
        bits,
        first,
        pad: 8 * first + 64 - end,
        mask: ((1u128 << bits) - 1) as u64,
        meaning,
        sure: is_sure(bits, meaning),
    })
}

/// The operation of a type at a place, if the type is a scalar and eight octets hold it.
pub(crate) fn operation_of_type(table: &TypeTable, at: u32, id: TypeId) -> Option<Operation>
    requires { at ≤ 2 ^ 24 }
    ensures typed { IfSome result (λ o. o.id ≡ id) }
    ensures place { IfSome result (λ o. o.at ≡ at) }
    ensures few { IfSome result (λ o. o.bits ≤ 64) }
    ensures is { IfSome result (IsOperation table.now) }
{
    if id.0 >= table.len() {
        return None;
    }
    let (bits, meaning) = meaning_of(&table.row(id).kind)?;
    operation_at(id, at, bits, meaning)
}

/// The operations of the types of a table, each at the number of its type; those that are no scalars have none.
pub(crate) fn scalars_of_all(
    alloc: Global,
    table: &TypeTable,
) -> Result<Vec<Option<Operation>>, Memory>
    ensures { IfOk result (λ each. AreScalars table.now each.items) }
{
    let mut each = Vec::with_capacity(alloc, table.len() as usize)?;
    for number in 0..table.len() {
        each.push(operation_of_type(table, 0, TypeId(number)))?;
    }
    Ok(each)
}

/// The operation of an entry at a place, if its type is a scalar and eight octets hold it.
fn operation_of(table: &TypeTable, at: u32, part: &Part) -> Option<Operation>
    requires { at ≤ 2 ^ 24 }
    ensures place { IfSome result (λ o. o.at ≡ at) }
    ensures few { IfSome result (λ o. o.bits ≤ 64) }
    ensures is { IfSome result (IsOperationOf table.now part.now) }
{
    match part {
        Part::Plain(_, id) => operation_of_type(table, at, *id),
        _ => None,
    }
}

/// The operations of entries, one right behind the other, up to the first entry that has none, and how many bits they have.
fn operations_of(
    alloc: Global,
    table: &TypeTable,
    entries: &[Part],
) -> Result<(Vec<Operation>, u32), Memory>
    requires { length entries.now ≤ 32767 }
    ensures are { IfOk result (λ x. AreOperationsOf table.now 0 x.1 (take (length x.0.items) entries.now) x.0.items) }
    ensures few { IfOk result (λ x. length x.0.items ≤ length entries.now) }
{
    let mut operations = Vec::new(alloc);
    let mut bits = 0;
    for part in entries {
        let Some(operation) = operation_of(table, bits, part) else {
            return Ok((operations, bits));
        };
        bits += operation.bits;
        operations.push(operation)?;
    }
    Ok((operations, bits))
}

/// The fewest entries that are read by a segment where others follow them.
const FEWEST: usize = 2;

/// The segment of the scalars that a container begins with: of all its entries, where these are all that it has, or else of
/// two at least.
pub(crate) fn segment_of(
    alloc: Global,
    table: &TypeTable,
    id: TypeId,
) -> Result<Option<Segment>, Memory>
    ensures { IfOk result (λ o. IfSome o (IsHeadOf table.now id.0)) }
{
    let entries = table.entries_of(id);
    let (operations, bits) = operations_of(alloc, table, entries)?;
    let whole = operations.len() == entries.len() && is_straight(table, id);
    if !whole && operations.len() < FEWEST {
        return Ok(None);
    }
    Ok(Some(Segment {
        operations,
        bits,
        whole,
    }))
}
