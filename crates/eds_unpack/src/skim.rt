//! Passing over numbers, labels, truth values, texts, binaries and padding, without memory.

ghost use Rattle.std.specs.Prelude.{◌≡◌, ◌*◌, ◌/◌, ◌-◌, ◌^◌, ◌≤◌, ℕ, List, length, take, drop, true, false, Some, Ok, Err, IfOk, IfErr, OnOk};
ghost use Rattle.eds_base.specs.declared.fault.Reason.TheVariants.{FixedDiffers};
ghost use Rattle.eds_base.specs.Reading.{same as same_octets};
ghost use Rattle.eds_bits.specs.Bits.{Bits, octets_of, unsigned_of};
ghost use Rattle.eds_bits.specs.IntForms.{number_of};
ghost use Rattle.eds_bits.specs.Lists.{Has};
ghost use Rattle.eds_bits.specs.Reader.{bits_left};
ghost use Rattle.eds_bits.specs.Scalars.{before_stop};
ghost use Rattle.eds_bits.specs.Texts.{front_octets};
ghost use Rattle.eds_types.specs.Failing.{fault_here};
ghost use Rattle.eds_types.specs.Fields.{listed};
ghost use Rattle.eds_types.specs.Plain.{Plain, plain, num, label, truth, text, bits as binary};
ghost use Rattle.eds_types.specs.Reading.{Read, judge, read_bits, read_kind, read_text, ranged, named, truth_of, same, expected};
ghost use Rattle.eds_types.specs.Rows.{Table};
ghost use Rattle.eds_types.specs.Rules.{IsValueOf, KindKeeps};
ghost use Rattle.eds_unpack.specs.Answers.{IsOfReading};
ghost use Rattle.eds_unpack.specs.Entries.{read_number, reason_of as reason_of_fault};
ghost use Rattle.eds_unpack.specs.Labels.{AreLabels};
ghost use Rattle.eds_unpack.specs.Readers.{passed};

use crate::lookup::label_of;
use eds_base::{Octets, Reason, Spans, Text};
use eds_bits::{BitReader, BoolForm, IntForm, TextForm, decode_int};
use eds_codec::{TextFault, read_bool, skip_text};
use eds_types::{Kind, Listing, TypeRow, Value};

/// The number of the next bits in a form, whatever the domain.
#[inline(always)]
pub(crate) fn number(form: IntForm, reader: &mut BitReader) -> Result<i128, Reason>
    ensures read { IfOk result (λ n. read_number form (bits_left reader.old) ≡ Ok (n, bits_left reader.new)) }
    ensures fault { IfErr result (λ r. read_number form (bits_left reader.old) ≡ Err (fault_here r)) }
    ensures reason { IfErr result IsOfReading }
{
    match reader.take(form.bits) {
        Some(raw) => match decode_int(form, raw) {
            Some(number) => Ok(number),
            None => Err(Reason::BadDigit),
        },
        None => Err(Reason::Short),
    }
}

/// Passes a number of an integer type or sub-range, and tells it. A digit above 9 comes before a number outside the domain.
#[inline(always)]
pub(crate) fn skim_integer(
    form: IntForm,
    spans: &Spans,
    reader: &mut BitReader,
) -> Result<i128, Reason>
    ensures read { IfOk result (λ n. judge (λ d. ranged spans.now (number_of form d)) (read_bits form.bits (bits_left reader.old)) ≡ Ok (num n, bits_left reader.new)) }
    ensures fault { IfErr result (λ r. judge (λ d. ranged spans.now (number_of form d)) (read_bits form.bits (bits_left reader.old)) ≡ Err (fault_here r)) }
    ensures reason { IfErr result IsOfReading }
{
    let number = number(form, reader)?;
    if spans.holds(number) {
        Ok(number)
    } else {
        Err(Reason::OutOfRange)
    }
}

/// Passes a label of an enumerated type, in which each label and number is listed once, and tells its number.
#[inline(always)]
pub(crate) fn skim_label(
    form: IntForm,
    listing: &Listing,
    reader: &mut BitReader,
) -> Result<i128, Reason>
    requires { AreLabels listing.now }
    ensures read { IfOk result (λ n. (l : List ℕ) × (judge (λ d. named listing.now (number_of form d)) (read_bits form.bits (bits_left reader.old)) ≡ Ok (label l, bits_left reader.new)) × (listed listing.now l ≡ Some n)) }
    ensures fault { IfErr result (λ r. judge (λ d. named listing.now (number_of form d)) (read_bits form.bits (bits_left reader.old)) ≡ Err (fault_here r)) }
    ensures reason { IfErr result IsOfReading }
{
    let number = number(form, reader)?;
    match label_of(listing, number) {
        Some(_) => Ok(number),
        None => Err(Reason::NoLabel),
    }
}

/// Passes a truth value, and tells it.
#[inline(always)]
pub(crate) fn skim_truth(form: BoolForm, reader: &mut BitReader) -> Result<bool, Reason>
    ensures read { IfOk result (λ x. judge (λ d. Ok (truth (truth_of form d))) (read_bits form.bits (bits_left reader.old)) ≡ Ok (truth x, bits_left reader.new)) }
    ensures fault { IfErr result (λ r. judge (λ d. Ok (truth (truth_of form d))) (read_bits form.bits (bits_left reader.old)) ≡ Err (fault_here r)) }
    ensures reason { IfErr result IsOfReading }
{
    match read_bool(form, reader) {
        Some(truth) => Ok(truth),
        None => Err(Reason::Short),
    }
}

/// The reason for which no text is read.
pub(crate) fn reason_of(fault: TextFault) -> Reason
    ensures value { result ≡ reason_of_fault fault }
    ensures reason { IsOfReading result }
{
    match fault {
        TextFault::Short => Reason::Short,
        TextFault::BadText => Reason::BadText,
        TextFault::Unterminated => Reason::Unterminated,
    }
}

/// Passes a text.
pub(crate) fn skim_text(form: TextForm, reader: &mut BitReader) -> Result<(), Reason>
    ensures read { OnOk result ((s : List ℕ) × (read_text form form.fixed (bits_left reader.old) ≡ Ok (text s, bits_left reader.new))) }
    ensures fault { IfErr result (λ r. read_text form form.fixed (bits_left reader.old) ≡ Err (fault_here r)) }
    ensures reason { IfErr result IsOfReading }
{
    match skip_text(form, reader) {
        Ok(()) => Ok(()),
        Err(fault) => Err(reason_of(fault)),
    }
}

/// Passes so many bits, whatever they are.
pub(crate) fn skim_padding(bits: u32, reader: &mut BitReader) -> Result<(), Reason>
    ensures read { OnOk result (passed (read_bits bits (bits_left reader.old)) ≡ Ok (bits_left reader.new)) }
    ensures fault { IfErr result (λ r. passed (read_bits bits (bits_left reader.old)) ≡ Err (fault_here r)) }
    ensures reason { IfErr result IsOfReading }
{
    if reader.left() < u64::from(bits) {
        return Err(Reason::Short);
    }
    reader.skip(u64::from(bits));
    Ok(())
}

/// Passes a binary of so many bits.
pub(crate) fn skim_octets(bits: u32, reader: &mut BitReader) -> Result<(), Reason>
    ensures read { OnOk result ((o : List ℕ) × (judge (λ d. Ok (binary bits (octets_of d))) (read_bits bits (bits_left reader.old)) ≡ Ok (binary bits o, bits_left reader.new))) }
    ensures fault { IfErr result (λ r. judge (λ d. Ok (binary bits (octets_of d))) (read_bits bits (bits_left reader.old)) ≡ Err (fault_here r)) }
    ensures reason { IfErr result IsOfReading }
{
    skim_padding(bits, reader)
}

/// The octet of the next bits, at most eight, with zeros behind them.
#[inline(always)]
fn next_octet(n: u32, reader: &mut BitReader) -> u64
    requires few { n ≤ 8 }
    requires enough { n ≤ length (bits_left reader.old) }
    ensures value { result ≡ unsigned_of (take n (bits_left reader.old)) * 2 ^ (8 - n) }
    ensures after { bits_left reader.new ≡ drop n (bits_left reader.old) }
{
    match reader.take(n) {
        Some(number) => number << (8 - n),
        None => 0,
    }
}

/// Whether these are the octets of the next bits, the last filled with zeros.
fn octets_are(bits: u64, octets: &[u8], reader: BitReader<'_>) -> bool
    requires { bits ≤ length (bits_left reader) }
    ensures { result ≡ same_octets (octets_of (take bits (bits_left reader.entry))) octets.now }
{
    let mut ahead = reader;
    let mut left = bits;
    for octet in octets {
        if left == 0 {
            return false;
        }
        let n = left.min(8) as u32;
        if next_octet(n, &mut ahead) != u64::from(*octet) {
            return false;
        }
        left -= u64::from(n);
    }
    left == 0
}

/// Whether a text in which the termination octet does not stand is what stands before the first termination octet among the
/// next octets, or is all of them where there is none.
fn text_is(wanted: &[u8], stop: u8, count: u64, reader: BitReader<'_>) -> bool
    requires enough { 8 * count ≤ length (bits_left reader) }
    requires free { Has wanted.now stop → ⊥ }
    ensures { result ≡ same_octets (before_stop stop (front_octets count (bits_left reader.entry))) wanted.now }
{
    let size = wanted.len() as u64;
    if count < size {
        return false;
    }
    let bits = 8 * size;
    if !octets_are(bits, wanted, reader) {
        return false;
    }
    if count == size {
        return true;
    }
    let mut ahead = reader;
    ahead.skip(bits);
    next_octet(8, &mut ahead) == u64::from(stop)
}

/// Whether a value is this number.
#[tactic(auto, unfolding(eds_types::specs::Reading::same))]
fn is_number(value: &Value, found: i128) -> bool
    ensures { result ≡ same (num found) (plain value.now) }
{
    match value {
        Value::Num(wanted) => found == *wanted,
        _ => false,
    }
}

/// Whether a value is this label.
#[tactic(auto, unfolding(eds_types::specs::Reading::same))]
fn is_label(value: &Value, found: &Text) -> bool
    ensures { result ≡ same (label found.now) (plain value.now) }
{
    match value {
        Value::Label(wanted) => found.as_str() == wanted.as_str(),
        _ => false,
    }
}

/// Whether a value is this truth value.
#[tactic(auto, unfolding(eds_types::specs::Reading::same))]
fn is_truth(value: &Value, found: bool) -> bool
    ensures { result ≡ same (truth found) (plain value.now) }
{
    match value {
        Value::Bool(wanted) => found == *wanted,
        _ => false,
    }
}

/// Whether a value is the text before the first termination octet among the next octets, or of all of them where there is
/// none. In a value that is a text the termination octet does not stand.
#[tactic(auto, unfolding(eds_types::specs::Reading::same))]
fn is_text(value: &Value, stop: u8, count: u64, reader: BitReader<'_>) -> bool
    requires enough { 8 * count ≤ length (bits_left reader) }
    requires free { (s : List ℕ) → plain value.now ≡ text s → Has s stop → ⊥ }
    ensures { result ≡ same (text (before_stop stop (front_octets count (bits_left reader.entry)))) (plain value.now) }
{
    match value {
        Value::Text(wanted) => text_is(wanted.as_str().as_bytes(), stop, count, reader),
        _ => false,
    }
}

/// Whether a value is the binary of so many bits that are next.
#[tactic(auto, unfolding(eds_types::specs::Reading::same))]
fn is_binary(value: &Value, bits: u32, reader: BitReader<'_>) -> bool
    requires { bits ≤ length (bits_left reader) }
    ensures { result ≡ same (binary bits (octets_of (take bits (bits_left reader.entry)))) (plain value.now) }
{
    match value {
        Value::Bits(size, octets) => {
            bits == *size && octets_are(u64::from(bits), octets.as_slice(), reader)
        }
        _ => false,
    }
}

/// In how many of the next octets a text of the form ends, if it does.
fn octets_of_text(form: TextForm, reader: BitReader<'_>) -> u64
    ensures fixed { form.fixed ≡ true → result ≡ form.length }
    ensures open { form.fixed ≡ false → result ≡ length (bits_left reader.entry) / 8 }
{
    if form.fixed {
        u64::from(form.length)
    } else {
        reader.left() / 8
    }
}

/// Passes a label of an enumerated type, in which each label and number is listed once, and tells whether it is this value.
fn skim_label_as(
    form: IntForm,
    listing: &Listing,
    value: &Value,
    reader: &mut BitReader,
) -> Result<bool, Reason>
    requires { AreLabels listing.now }
    ensures read { IfOk result (λ x. (l : List ℕ) × (judge (λ d. named listing.now (number_of form d)) (read_bits form.bits (bits_left reader.old)) ≡ Ok (label l, bits_left reader.new)) × (x ≡ same (label l) (plain value.now))) }
    ensures fault { IfErr result (λ r. judge (λ d. named listing.now (number_of form d)) (read_bits form.bits (bits_left reader.old)) ≡ Err (fault_here r)) }
    ensures reason { IfErr result IsOfReading }
{
    let number = number(form, reader)?;
    match label_of(listing, number) {
        Some(found) => Ok(is_label(value, found)),
        None => Err(Reason::NoLabel),
    }
}

/// Passes a text, and tells whether it is this value.
fn skim_text_as(form: TextForm, value: &Value, reader: &mut BitReader) -> Result<bool, Reason>
    requires { (s : List ℕ) → plain value.now ≡ text s → Has s form.stop → ⊥ }
    ensures read { IfOk result (λ x. (s : List ℕ) × (read_text form form.fixed (bits_left reader.old) ≡ Ok (text s, bits_left reader.new)) × (x ≡ same (text s) (plain value.now))) }
    ensures fault { IfErr result (λ r. read_text form form.fixed (bits_left reader.old) ≡ Err (fault_here r)) }
    ensures reason { IfErr result IsOfReading }
{
    let start = *reader;
    skim_text(form, reader)?;
    let count = octets_of_text(form, start);
    Ok(is_text(value, form.stop, count, start))
}

/// Passes a binary of so many bits, and tells whether it is this value.
fn skim_octets_as(bits: u32, value: &Value, reader: &mut BitReader) -> Result<bool, Reason>
    ensures read { IfOk result (λ x. (o : List ℕ) × (judge (λ d. Ok (binary bits (octets_of d))) (read_bits bits (bits_left reader.old)) ≡ Ok (binary bits o, bits_left reader.new)) × (x ≡ same (binary bits o) (plain value.now))) }
    ensures fault { IfErr result (λ r. judge (λ d. Ok (binary bits (octets_of d))) (read_bits bits (bits_left reader.old)) ≡ Err (fault_here r)) }
    ensures reason { IfErr result IsOfReading }
{
    let start = *reader;
    skim_padding(bits, reader)?;
    Ok(is_binary(value, bits, start))
}

/// Passes a value of a scalar, text or binary type, and tells whether it is this one.
fn skim_as(kind: &Kind, value: &Value, reader: &mut BitReader) -> Result<bool, Reason>
    requires value { IsValueOf kind.now (plain value.now) }
    requires kind { KindKeeps kind.now }
    ensures read { (t : Table) (inner : ℕ → Bits → Read Plain) (id : ℕ) → IfOk result (λ x. (w : Plain) × (read_kind t inner id kind.now (bits_left reader.old) ≡ Ok (w, bits_left reader.new)) × (x ≡ same w (plain value.now))) }
    ensures fault { (t : Table) (inner : ℕ → Bits → Read Plain) (id : ℕ) → IfErr result (λ r. read_kind t inner id kind.now (bits_left reader.old) ≡ Err (fault_here r)) }
    ensures reason { IfErr result IsOfReading }
{
    match kind {
        Kind::Int(form, spans) => {
            let found = skim_integer(*form, spans, reader)?;
            Ok(is_number(value, found))
        }
        Kind::Enum(form, listing) => skim_label_as(*form, listing, value, reader),
        Kind::Bool(form) => {
            let found = skim_truth(*form, reader)?;
            Ok(is_truth(value, found))
        }
        Kind::Str(form) => skim_text_as(*form, value, reader),
        Kind::Bin(bits, _) => skim_octets_as(*bits, value, reader),
        Kind::Arr(_, _) => Ok(false),
        Kind::Con(_) => Ok(false),
    }
}

/// Passes a value of a row's type, which must be the fixed one.
pub(crate) fn skim_fixed(row: &TypeRow, fixed: &Value, reader: &mut BitReader) -> Result<(), Reason>
    requires value { IsValueOf row.now.kind (plain fixed.now) }
    requires kind { KindKeeps row.now.kind }
    ensures read { (t : Table) (inner : ℕ → Bits → Read Plain) (id : ℕ) → OnOk result (judge (expected (plain fixed.now) FixedDiffers) (read_kind t inner id row.now.kind (bits_left reader.old)) ≡ Ok (tt, bits_left reader.new)) }
    ensures fault { (t : Table) (inner : ℕ → Bits → Read Plain) (id : ℕ) → IfErr result (λ r. judge (expected (plain fixed.now) FixedDiffers) (read_kind t inner id row.now.kind (bits_left reader.old)) ≡ Err (fault_here r)) }
    ensures reason { IfErr result IsOfReading }
{
    if skim_as(&row.kind, fixed, reader)? {
        Ok(())
    } else {
        Err(Reason::FixedDiffers)
    }
}
