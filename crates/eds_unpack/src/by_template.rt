//! Reading scalars and texts by a template.

ghost use Rattle.std.specs.Prelude.{◌+◌, ◌≡◌, slice_get, nat_abs, ◌^◌, ◌++◌, ◌<◌, ◌≤◌, ℤ, pos, ◌+ℤ◌, ◌*ℤ◌, List, Option, Some, length, map, take, true, vec_len, vec_capacity, IfOk, IfSome, IsAscii};
ghost use Rattle.std.specs.Bool.{OnTrue};
ghost use Rattle.std.specs.List.{All, AllByRecursion, flat_map};
ghost use Rattle.eds_bits.specs.Bits.{Bits, bits_of, octets_for};
ghost use Rattle.eds_bits.specs.Reader.{bits_left};
ghost use Rattle.eds_bits.specs.Scalars.{IsText, before_stop, check_of};
ghost use Rattle.eds_bits.specs.Style.{any};
ghost use Rattle.eds_types.specs.declared.row.TypeRow.{TypeRow};
ghost use Rattle.eds_types.specs.Fields.{Holds, number_by, number_on, value_at};
ghost use Rattle.eds_types.specs.Plain.{Plain, num};
ghost use Rattle.eds_types.specs.Rows.{Table, constraints_of, numbers_of};
ghost use Rattle.eds_unpack.specs.Courses.{fields_at};
ghost use Rattle.eds_unpack.specs.Scalars.{plain_of};
ghost use Rattle.eds_unpack.specs.Segments.{IsOperation};
ghost use Rattle.eds_unpack.specs.declared.template.Role.TheVariants as role;
ghost use Rattle.eds_unpack.specs.Templates.{IsSmall, IsOfType, PartSays, PartsSay, RoleSays, TextSays, begin_of, size_of, use_of};

use crate::meaning::{put_scalar, scalar_at};
use crate::scalar::Scalar;
use crate::segment::Operation;
use crate::template::{Role, Template, TemplatePart, TextPart, is_step};
use crate::told::told_octets;
use crate::values::{number_of_bits, octets_left};
use eds_base::{Memory, TypeId};
use eds_bits::{BitReader, CheckKind, TextForm};
use eds_codec::check_next;
use eds_types::{Constraint, TypeTable};
use std::str;

// ---- parts

/// The number of a scalar that is one.
fn whole_of(scalar: Scalar<'_>) -> Option<i128>
    ensures number { IfSome result (λ n. plain_of scalar.entry ≡ num n) }
    ensures few { IfSome result (λ n. nat_abs n ≤ 2 ^ 64) }
{
    match scalar {
        Scalar::Num(number) => Some(i128::from(number)),
        Scalar::Large(number) => Some(i128::from(number)),
        Scalar::Label(_) | Scalar::Bool(_) | Scalar::Text(_) => None,
    }
}

/// Whether a length entry of this value tells so many octets.
fn tells(c0: &i64, c1: &i64, scalar: Scalar<'_>, octets: u32) -> bool
    requires { IsSmall (role.Length c0.now c1.now) }
    ensures { OnTrue result ((n : ℤ) × (plain_of scalar.entry ≡ num n) × ((c0.now +ℤ (c1.now *ℤ n)) ≡ pos octets)) }
{
    let offset = *c0;
    let factor = *c1;
    match whole_of(scalar) {
        Some(number) => told_octets(offset, factor, number) == i128::from(octets),
        None => false,
    }
}

/// Whether this value is the check of so many bits from a reader on.
fn is_check(kind: CheckKind, bits: u32, scalar: Scalar<'_>, reader: &BitReader<'_>) -> bool
    requires { bits ≤ length (bits_left reader.now) }
    ensures { OnTrue result (plain_of scalar.entry ≡ num (pos (check_of kind (take bits (bits_left reader.now))))) }
{
    match whole_of(scalar) {
        Some(number) => number == i128::from(check_next(kind, *reader, bits)),
        None => false,
    }
}

/// Puts the value of a scalar last in a room, if it is a field, and otherwise judges it. Whether the bits have it, and it is right.
#[inline(always)]
fn put_role<'a>(
    table: &'a TypeTable,
    operation: &Operation,
    role: &Role,
    all: u32,
    octets: &[u8],
    reader: &BitReader<'_>,
    room: &mut Vec<Scalar<'a>>,
) -> bool
    requires is { IsOperation table.now operation.now }
    requires near { IsSmall role.now }
    requires within { operation.now.at + operation.now.bits ≤ length (bits_left reader.now) }
    requires octets { 1 ≤ length octets.now → bits_left reader.now ≡ bits_of octets.now }
    requires spare { vec_len room.old < vec_capacity room.old }
    ensures says { OnTrue result ((vs : List Plain) × (map plain_of room.new.items ≡ map plain_of room.old.items ++ vs) × RoleSays table.now (bits_left reader.now) all operation.now role.now vs) }
    ensures few { vec_len room.new ≤ vec_len room.old + 1 }
    ensures room { vec_capacity room.new ≡ vec_capacity room.old }
{
    let number = number_of_bits(operation, octets, reader);
    match role {
        Role::Field => put_scalar(table, operation, number, room),
        Role::Length(c0, c1) => match scalar_at(table, operation, number) {
            Some(scalar) => tells(c0, c1, scalar, all),
            None => false,
        },
        Role::Check(kind) => match scalar_at(table, operation, number) {
            Some(scalar) => is_check(*kind, operation.at, scalar, reader),
            None => false,
        },
    }
}

/// How many octets stand before the first termination octet, or in all where there is none, if each of them is one of ASCII.
fn text_size(stop: u8, octets: &[u8]) -> Option<usize>
    ensures within { IfSome result (λ n. n ≤ length octets.now) }
    ensures text { IfSome result (λ n. take n octets.now ≡ before_stop stop octets.now) }
    ensures ascii { IfSome result (λ n. IsAscii (take n octets.now)) }
{
    for size in 0..octets.len() {
        let octet = octets[size];
        if octet == stop {
            return Some(size);
        }
        if octet > 127 {
            return None;
        }
    }
    Some(octets.len())
}

/// The text of so many octets as its form tells, lent from them, if it is one of ASCII.
fn ascii_text(form: TextForm, octets: &[u8]) -> Option<&str>
    requires fixed { form.fixed ≡ true }
    requires size { length octets.now ≡ form.length }
    ensures { IfSome result (λ s. IsText any form s.now (bits_of octets.now)) }
{
    let size = text_size(form.stop, octets)?;
    // SAFETY: octets of ASCII are UTF-8.
    Some(unsafe { str::from_utf8_unchecked(&octets[..size]) })
}

/// Puts a text last in a room, lent from the octets that hold it, if they are there and it is one of ASCII. Another one isn't told.
fn put_text<'a>(part: &TextPart, octets: &'a [u8], room: &mut Vec<Scalar<'a>>) -> bool
    requires fixed { part.now.form.fixed ≡ true }
    requires spare { vec_len room.old < vec_capacity room.old }
    ensures says { (b : Bits) → (1 ≤ length octets.now → b ≡ bits_of octets.now) → OnTrue result ((vs : List Plain) × (map plain_of room.new.items ≡ map plain_of room.old.items ++ vs) × TextSays b part.now vs) }
    ensures few { vec_len room.new ≤ vec_len room.old + 1 }
    ensures room { vec_capacity room.new ≡ vec_capacity room.old }
{
    let first = part.first as usize;
    let last = first + part.form.length as usize;
    if last > octets.len() {
        return false;
    }
    match ascii_text(part.form, &octets[first..last]) {
        Some(text) => {
            room.push_reserved(Scalar::Text(text));
            true
        }
        None => false,
    }
}

/// Puts the value of a part last in a room, if it is a field, and otherwise judges it. Whether the bits have it, and it is right.
#[inline(always)]
fn put_part<'a>(
    table: &'a TypeTable,
    part: &TemplatePart,
    all: u32,
    octets: &'a [u8],
    reader: &BitReader<'_>,
    room: &mut Vec<Scalar<'a>>,
) -> bool
    requires is { IsOfType table.now part.now }
    requires near { IsSmall (use_of part.now) }
    requires within { begin_of part.now + size_of part.now ≤ length (bits_left reader.now) }
    requires octets { 1 ≤ length octets.now → bits_left reader.now ≡ bits_of octets.now }
    requires spare { vec_len room.old < vec_capacity room.old }
    ensures says { OnTrue result ((vs : List Plain) × (map plain_of room.new.items ≡ map plain_of room.old.items ++ vs) × PartSays table.now (bits_left reader.now) all part.now vs) }
    ensures few { vec_len room.new ≤ vec_len room.old + 1 }
    ensures room { vec_capacity room.new ≡ vec_capacity room.old }
{
    match part {
        TemplatePart::Scalar(operation, role) => {
            put_role(table, operation, role, all, octets, reader, room)
        }
        TemplatePart::Text(text) => put_text(text, octets, room),
    }
}

/// Puts the scalars of a template's fields into a room, in place of what is there, if the bits have a value for each part, which
/// is right.
pub(crate) fn fill_by<'a>(
    table: &'a TypeTable,
    template: &Template,
    reader: &BitReader<'a>,
    room: &mut Vec<Scalar<'a>>,
) -> Result<bool, Memory>
    requires are { All (λ x. IsOfType table.now x) template.now.parts.items }
    requires near { All (λ x. IsSmall (use_of x)) template.now.parts.items }
    requires within { All (λ x. begin_of x + size_of x ≤ length (bits_left reader.now)) template.now.parts.items }
    ensures { IfOk result (λ all. OnTrue all (PartsSay table.now (bits_left reader.now) (octets_for template.now.bits) template.now.parts.items (map plain_of room.new.items))) }
{
    let octets = octets_left(reader);
    let all = template.bits.div_ceil(8);
    let parts = template.parts.as_slice();
    room.clear();
    room.reserve(parts.len())?;
    for part in parts {
        if !put_part(table, part, all, octets, reader, room) {
            return Ok(false);
        }
    }
    Ok(true)
}

// ---- constraints

/// The number of a scalar; that of a label, which its listing tells, isn't looked for, and a text has none.
pub(crate) fn number_of(scalar: Scalar<'_>) -> Option<i128>
    ensures { (row : Option TypeRow) → IfSome result (λ n. number_by row (Some (plain_of scalar.entry)) ≡ Some n) }
{
    match scalar {
        Scalar::Num(number) => Some(i128::from(number)),
        Scalar::Large(number) => Some(i128::from(number)),
        Scalar::Bool(truth) => Some(i128::from(truth)),
        Scalar::Label(_) | Scalar::Text(_) => None,
    }
}

/// The position of the first field at which a step leads to it, if there is one.
fn position_of(places: &[(TypeId, u16)], step: (TypeId, u16)) -> Option<usize>
    ensures { (vs : List Plain) → length places.now ≡ length vs → IfSome result (λ i. value_at (fields_at places.now vs) (step.0).0 step.1 ≡ slice_get vs i) }
{
    for index in 0..places.len() {
        if is_step(places[index], step) {
            return Some(index);
        }
    }
    None
}

/// The number on a path of the fields at some places, if it leads to one of them and that is no label.
fn number_on(places: &[(TypeId, u16)], room: &[Scalar<'_>], path: &[(TypeId, u16)]) -> Option<i128>
    ensures { (t : Table) → length places.now ≡ length room.now → IfSome result (λ n. number_on t (fields_at places.now (map plain_of room.now)) path.now ≡ Some n) }
{
    let [step] = path else {
        return None;
    };
    let position = position_of(places, *step)?;
    number_of(*room.get(position)?)
}

/// Whether a constraint holds of the fields at some places.
fn holds(places: &[(TypeId, u16)], room: &[Scalar<'_>], constraint: &Constraint) -> bool
    ensures { (t : Table) → length places.now ≡ length room.now → OnTrue result (Holds t (fields_at places.now (map plain_of room.now)) constraint.now) }
{
    match number_on(places, room, constraint.path.as_slice()) {
        Some(number) => constraint.set.holds(number),
        None => false,
    }
}

/// Whether some constraints hold.
fn hold(places: &[(TypeId, u16)], room: &[Scalar<'_>], constraints: &[Constraint]) -> bool
    ensures { (t : Table) → length places.now ≡ length room.now → OnTrue result (AllByRecursion (Holds t (fields_at places.now (map plain_of room.now))) constraints.now) }
{
    for constraint in constraints {
        if !holds(places, room, constraint) {
            return false;
        }
    }
    true
}

/// Whether those of some containers hold.
pub(crate) fn hold_along(
    table: &TypeTable,
    containers: &[TypeId],
    places: &[(TypeId, u16)],
    room: &[Scalar<'_>],
) -> bool
    ensures { length places.now ≡ length room.now → OnTrue result (AllByRecursion (Holds table.now (fields_at places.now (map plain_of room.now))) (flat_map (constraints_of table.now) (numbers_of containers.now))) }
{
    for one in containers {
        if !hold(places, room, table.constraints_of(*one)) {
            return false;
        }
    }
    true
}
