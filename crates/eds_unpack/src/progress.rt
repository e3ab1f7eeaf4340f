//! How far the reader of a container has come.

ghost use Rattle.std.specs.Prelude.{◌≡◌, ◌++◌, ◌∷◌, [], length, None, IfOk, OnOk};
ghost use Rattle.eds_bits.specs.Bits.{octets_for};
ghost use Rattle.eds_bits.specs.Reader.{bits_left};
ghost use Rattle.eds_types.specs.Fields.{field_at};
ghost use Rattle.eds_types.specs.Plain.{plain};
ghost use Rattle.eds_types.specs.Reading.{front, size_fits};
ghost use Rattle.eds_types.specs.Spelling.{started};
ghost use Rattle.eds_unpack.specs.Courses.{AreHeld, IsUnderWay, MovesOn, fields_of, parts_from, progress_of};

use crate::fields::ReadFields;
use eds_base::{Memory, TypeId};
use eds_bits::BitReader;
use eds_types::{TypeTable, Value};
use std::alloc::Global;

/// How far the reader of a container has come: the fields so far, how many octets the length entry tells, and a reader
/// before the container's first bit.
#[derive(Drop)]
pub(crate) struct Reached<'a> {
    pub fields: ReadFields,
    pub octets: Option<i128>,
    pub start: BitReader<'a>,
}

/// The most fields that room is made for before any is read.
pub(crate) const FEW: usize = 32;

/// How many fields more room is made for where a container is derived from this one.
const MORE: usize = 8;

/// Before the first part of a container, with room for the fields of its entries, or for a few where they are more.
pub(crate) fn begin<'a>(
    alloc: Global,
    table: &TypeTable,
    id: TypeId,
    reader: &BitReader<'a>,
) -> Result<Reached<'a>, Memory>
    ensures fields { IfOk result (λ r. fields_of r.fields ≡ []) }
    ensures held { IfOk result (λ r. AreHeld r.fields) }
    ensures octets { IfOk result (λ r. r.octets ≡ None) }
    ensures start { IfOk result (λ r. bits_left r.start ≡ bits_left reader.now) }
{
    let own = table.entries_of(id).len();
    let more = if table.family_of(id).len() > 1 {
        MORE
    } else {
        0
    };
    let room = own.saturating_add(more).min(FEW);
    let values = Vec::with_capacity(alloc, room)?;
    let parts = Vec::with_capacity(alloc, room)?;
    Ok(Reached {
        fields: ReadFields { values, parts },
        octets: None,
        start: *reader,
    })
}

/// Puts the value of the part at a place of a container last.
#[inline(always)]
pub(crate) fn keep_field(
    reached: &mut Reached<'_>,
    container: TypeId,
    place: u16,
    value: Value,
) -> Result<(), Memory>
    requires { AreHeld reached.old.fields }
    ensures fields { OnOk result (fields_of reached.new.fields ≡ fields_of reached.old.fields ++ field_at container.0 place (plain value) ∷ []) }
    ensures held { OnOk result (AreHeld reached.new.fields) }
    ensures octets { reached.new.octets ≡ reached.old.octets }
    ensures start { reached.new.start ≡ reached.old.start }
{
    let part = (container, place);
    reached.fields.values.push(value)?;
    reached.fields.parts.push(part)?;
    Ok(())
}

/// Puts so many first parts of a container last.
pub(crate) fn keep_first_parts(
    parts: &mut Vec<(TypeId, u16)>,
    container: TypeId,
    count: u16,
) -> Result<(), Memory>
    ensures { OnOk result (parts.new.items ≡ parts.old.items ++ parts_from container 0 count) }
{
    for place in 0..count {
        parts.push((container, place))?;
    }
    Ok(())
}

/// How many bits stand from where one reader is to where another is, which moved on from there.
pub(crate) fn bits_between(start: &BitReader<'_>, reader: &BitReader<'_>) -> u64
    requires { MovesOn (bits_left start.now) (bits_left reader.now) }
    ensures { result ≡ length (front (bits_left start.now) (bits_left reader.now)) }
{
    start.left() - reader.left()
}

/// Whether the bits between two readers have as many octets as are told, if any are.
pub(crate) fn is_told_size(
    told: Option<i128>,
    start: &BitReader<'_>,
    reader: &BitReader<'_>,
) -> bool
    requires { MovesOn (bits_left start.now) (bits_left reader.now) }
    ensures { result ≡ size_fits told (front (bits_left start.now) (bits_left reader.now)) }
{
    match told {
        Some(told) => told == i128::from(bits_between(start, reader).div_ceil(8)),
        None => true,
    }
}

/// How many bits of the container are before those that are left.
pub(crate) fn bits_before(reached: &Reached<'_>, reader: &BitReader<'_>) -> u64
    requires begun { IsUnderWay reached.now (bits_left reader.now) }
    ensures { result ≡ length (progress_of reached.now (bits_left reader.now)).before }
{
    bits_between(&reached.start, reader)
}

/// Whether the container has as many octets as its length entry tells, if it has one.
pub(crate) fn has_told_size(reached: &Reached<'_>, reader: &BitReader<'_>) -> bool
    requires begun { IsUnderWay reached.now (bits_left reader.now) }
    ensures { result ≡ size_fits reached.now.octets (progress_of reached.now (bits_left reader.now)).before }
{
    is_told_size(reached.octets, &reached.start, reader)
}
