//! Reading the scalars and texts of a container into a room that serves for many of them.

ghost use Rattle.std.specs.Prelude.{◌≡◌, ◌+◌, ◌<◌, ◌≤◌, Some, length, map, take, IfOk, IfSome};
ghost use Rattle.std.specs.Bool.{OnTrue};
ghost use Rattle.eds_bits.specs.Reader.{bits_left, view_bits};
ghost use Rattle.eds_types.specs.declared.row.Container.{Container as Shape};
ghost use Rattle.eds_types.specs.Overlap.{IsClear};
ghost use Rattle.eds_types.specs.Plain.{fields, plains_of};
ghost use Rattle.eds_types.specs.Rows.{container_of};
ghost use Rattle.eds_types.specs.Spelling.{Spells};
ghost use Rattle.eds_unpack.specs.Scalars.{plain_of};
ghost use Rattle.eds_unpack.specs.Templates.{IsTemplateOf};

use crate::by_template::{fill_by, hold_along, number_of};
use crate::entries::{Entries, entries_by};
use crate::meaning::scalar_at;
use crate::scalar::Scalar;
use crate::segments::Segments;
use crate::selector::stretch_at;
use crate::template::Template;
use crate::values::{number_of_bits, octets_left};
use eds_base::{Memory, TypeId};
use eds_bits::{BitReader, BitView};
use eds_types::{TypeTable, is_among};

/// The most containers of which each one is tried.
const FEW: usize = 4;

// ---- containers of scalars alone, from which none derives and which derive from none

/// Puts the scalars of entries into a room, in place of what is there, if the bits of each have one.
fn fill<'a>(entries: &Entries<'_, 'a>, room: &mut Vec<Scalar<'a>>) -> Result<bool, Memory>
    ensures { IfOk result (λ all. OnTrue all (entries.now ≡ map Some (map plain_of room.new.items))) }
{
    room.clear();
    room.reserve(entries.len())?;
    for position in 0..entries.len() {
        match entries.get(position) {
            Some(scalar) => room.push_reserved(scalar),
            None => return Ok(false),
        }
    }
    Ok(true)
}

/// Reads the entries of a container, and gives how many bits they have. None, where it isn't made of scalars alone, or the bits
/// of one have no value.
fn fill_entries<'a>(
    segments: &Segments<'a>,
    id: TypeId,
    view: BitView<'_>,
    room: &mut Vec<Scalar<'a>>,
) -> Result<Option<u32>, Memory>
    requires known { id.0 < length segments.now }
    requires clear { IsClear segments.now id.0 }
    ensures size { IfOk result (λ o. IfSome o (λ n. n ≤ length (view_bits view.entry))) }
    ensures value { IfOk result (λ o. IfSome o (λ n. Spells segments.now id.0 (fields id.0 (plains_of (map plain_of room.new.items))) (take n (view_bits view.entry)))) }
{
    let Some((entries, bits)) = entries_by(segments, id, view) else {
        return Ok(None);
    };
    if fill(&entries, room)? {
        Ok(Some(bits))
    } else {
        Ok(None)
    }
}

// ---- containers with templates

/// The few containers among which that of the bits is most likely: those of a small family, or of a large one those whose
/// constraints allow the number by which a selector chooses, if they are few.
fn likely<'s>(
    table: &'s TypeTable,
    segments: &'s Segments<'_>,
    id: TypeId,
    reader: &BitReader<'_>,
) -> &'s [TypeId]
    requires { segments.now ≡ table.now }
{
    let family = table.family_of(id);
    let Some(selector) = segments.selector(id) else {
        return if family.len() <= FEW { family } else { &[] };
    };
    match key_number(table, segments, id, reader) {
        Some(number) => match stretch_at(selector.stretches.as_slice(), number) {
            Some(stretch) if stretch.members.len() <= FEW => stretch.members.as_slice(),
            _ => &[],
        },
        None => &[],
    }
}

/// The number by which the selector of a container chooses, if it stands at a fixed place.
fn key_number(
    table: &TypeTable,
    segments: &Segments<'_>,
    id: TypeId,
    reader: &BitReader<'_>,
) -> Option<i128>
    requires { segments.now ≡ table.now }
{
    let key = segments.key(id)?;
    if reader.left() < u64::from(key.at) + u64::from(key.bits) {
        return None;
    }
    let number = number_of_bits(key, octets_left(reader), reader);
    number_of(scalar_at(table, key, number)?)
}

/// Reads the fields of a container by the template of one at or under it. Whether the bits are those of such a value.
fn fits<'a>(
    table: &'a TypeTable,
    template: &Template,
    id: TypeId,
    member: TypeId,
    reader: &BitReader<'a>,
    room: &mut Vec<Scalar<'a>>,
) -> Result<bool, Memory>
    requires template { IsTemplateOf table.now member.0 template.now }
    requires container { (c : Shape) × (container_of table.now id.0 ≡ Some c) }
    ensures size { IfOk result (λ fits. OnTrue fits (template.now.bits ≤ length (bits_left reader.now))) }
    ensures value { IfOk result (λ fits. OnTrue fits (Spells table.now id.0 (fields member.0 (plains_of (map plain_of room.new.items))) (take template.now.bits (bits_left reader.now)))) }
{
    table.keeps_rules();
    let chain = template.chain.as_slice();
    if !is_among(chain, id) || reader.left() < u64::from(template.bits) {
        return Ok(false);
    }
    if !fill_by(table, template, reader, room)? {
        return Ok(false);
    }
    Ok(hold_along(table, chain, template.places.as_slice(), room.as_slice()))
}

/// Reads the fields of a container by the template of one of some containers. Gives which one it is, and how many bits its
/// parts have. None, where no template tells.
pub(crate) fn fill_template<'a>(
    table: &'a TypeTable,
    segments: &Segments<'a>,
    id: TypeId,
    reader: &BitReader<'a>,
    room: &mut Vec<Scalar<'a>>,
) -> Result<Option<(TypeId, u32)>, Memory>
    requires segments { segments.now ≡ table.now }
    ensures size { IfOk result (λ o. IfSome o (λ x. x.1 ≤ length (bits_left reader.now))) }
    ensures value { IfOk result (λ o. IfSome o (λ x. Spells table.now id.0 (fields (x.0).0 (plains_of (map plain_of room.new.items))) (take x.1 (bits_left reader.now)))) }
{
    if table.container_of(id).is_none() {
        return Ok(None);
    }
    for member in likely(table, segments, id, reader) {
        if let Some(template) = segments.template(*member) {
            if fits(table, template, id, *member, reader, room)? {
                return Ok(Some((*member, template.bits)));
            }
        }
    }
    Ok(None)
}

/// Reads the value of a container that the bits of a view begin with into a room, one scalar for each entry, in place of what
/// is there, and gives which container it is, at or under the type, and its size in bits. None, where the container isn't made of
/// scalars and texts of fixed size at fixed places alone, the bits aren't those of such a value, or one of its texts has octets
/// above 127: then what is in the room means nothing, and `unpack_by` tells. The room grows to the most entries of a container that
/// is read into it, and takes no memory after that. Texts stand in it as they stand in the view, up to their termination octets.
pub fn scalars_by<'a>(
    segments: &Segments<'a>,
    id: TypeId,
    view: BitView<'a>,
    room: &mut Vec<Scalar<'a>>,
) -> Result<Option<(TypeId, u32)>, Memory>
    requires known { id.0 < length segments.now }
    requires clear { IsClear segments.now id.0 }
    ensures size { IfOk result (λ o. IfSome o (λ x. x.1 ≤ length (view_bits view.entry))) }
    ensures value { IfOk result (λ o. IfSome o (λ x. Spells segments.now id.0 (fields (x.0).0 (plains_of (map plain_of room.new.items))) (take x.1 (view_bits view.entry)))) }
{
    let table = segments.table();
    let reader = BitReader::new(view);
    match fill_entries(segments, id, view, room)? {
        Some(bits) => Ok(Some((id, bits))),
        None => fill_template(table, segments, id, &reader, room),
    }
}
