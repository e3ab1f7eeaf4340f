//! The value at the front of some bits.

ghost use Rattle.eds_base.specs.declared.fault.Fault.{Fault};
ghost use Rattle.std.specs.Prelude.{◌≡◌, ◌++◌, ◌<◌, ◌≤◌, [], Ok, length, map, take, IfErr, IfOk, IfSome, OnOk};
ghost use Rattle.eds_bits.specs.Bits.{Bits};
ghost use Rattle.eds_bits.specs.Reader.{view_bits};
ghost use Rattle.eds_overlap.specs.Laws.{read_type};
ghost use Rattle.eds_types.specs.Failing.{FailsAt};
ghost use Rattle.eds_types.specs.Overlap.{IsClear};
ghost use Rattle.eds_types.specs.Plain.{Plain, plain};
ghost use Rattle.eds_types.specs.Spelling.{Spells};
ghost use Rattle.eds_unpack.specs.Answers.{IsOfReading, IsValue, IsFault, IfFault};
ghost use Rattle.eds_unpack.specs.Readers.{Gives, StopsReading, sized, with_path};
ghost use Rattle.eds_unpack.specs.Scalars.{plain_of};

use crate::fault::{FaultRoom, forget, stop_in};
use crate::read::{Level, read_value};
use crate::room::fill_template;
use crate::scalar::{Scalar, value_of};
use crate::segments::Segments;
use crate::values::read_segment;
use eds_base::{Fail, Fault, Memory, Path, Reason, TypeId};
use eds_bits::{BitReader, BitView};
use eds_overlap::law::reading_is_exact;
use eds_types::{TypeTable, Value};
use std::alloc::Global;

/// How deep types are nested at most.
pub(crate) const NESTING: u32 = 32;

/// The value of a container that the bits of a view begin with, and how many bits it takes, by the container's segment, with no
/// room for the path of a fault. None, where it has none, or the segment doesn't tell its values.
fn straight_front(
    alloc: Global,
    table: &TypeTable,
    segments: &Segments<'_>,
    id: TypeId,
    view: BitView,
) -> Result<Option<(Value, u32)>, Memory>
    requires { segments.now ≡ table.now }
    ensures { IfOk result (λ o. IfSome o (λ x. sized (view_bits view.entry) (read_type table.now id.0 (view_bits view.entry)) ≡ Ok (plain x.0, x.1))) }
{
    table.keeps_rules();
    let Some(segment) = segments.find(id) else {
        return Ok(None);
    };
    let mut reader = BitReader::new(view);
    match read_segment(alloc, table, segment, id, &mut reader)? {
        Some(values) => Ok(Some((Value::Fields(id, values), segment.bits))),
        None => Ok(None),
    }
}

/// The values of scalars.
fn values_of(alloc: Global, room: &[Scalar<'_>]) -> Result<Vec<Value>, Memory>
    ensures { IfOk result (λ vs. map plain vs.items ≡ map plain_of room.now) }
{
    let mut values = Vec::with_capacity(alloc, room.len())?;
    for scalar in room {
        values.push(value_of(alloc, *scalar)?)?;
    }
    Ok(values)
}

/// The value of a container that the bits of a view begin with, and how many bits it takes, by a template. None, where none
/// tells.
fn template_front<'a>(
    alloc: Global,
    segments: &Segments<'a>,
    id: TypeId,
    view: BitView<'a>,
) -> Result<Option<(Value, u32)>, Memory>
    requires known { id.0 < length segments.now }
    requires clear { IsClear segments.now id.0 }
    ensures { IfOk result (λ o. IfSome o (λ x. sized (view_bits view.entry) (read_type segments.now id.0 (view_bits view.entry)) ≡ Ok (plain x.0, x.1))) }
{
    let table = segments.table();
    table.keeps_rules();
    reading_is_exact();
    let reader = BitReader::new(view);
    let mut room = Vec::new(alloc);
    let Some((found, bits)) = fill_template(table, segments, id, &reader, &mut room)? else {
        return Ok(None);
    };
    let values = values_of(alloc, room.as_slice())?;
    Ok(Some((Value::Fields(found, values), bits)))
}

/// The value that the bits of a view begin with, and how many bits it takes, or the reason for which reading fails, with the
/// path to where it does, by the reader that knows both.
fn read_exactly(
    alloc: Global,
    table: &TypeTable,
    segments: &Segments<'_>,
    id: TypeId,
    view: BitView,
    path: &mut Path,
) -> Result<(Value, u32), Fail<Reason>>
    requires segments { segments.now ≡ table.now }
    requires known { id.0 < length table.now }
    requires clear { IsClear table.now id.0 }
    requires most { length (view_bits view) ≤ 524288 }
    requires root { path.old ≡ [] }
    ensures gives { Gives (λ x. (plain x.0, x.1)) (with_path path.new result) (sized (view_bits view.entry) (read_type table.now id.0 (view_bits view.entry))) }
    ensures calm { OnOk result (path.new ≡ []) }
    ensures reason { IfErr result StopsReading }
{
    table.keeps_rules();
    reading_is_exact();
    let mut reader = BitReader::new(view);
    let all = reader.left();
    let level = Level {
        alloc,
        table,
        segments,
        depth: NESTING,
    };
    let value = read_value(&level, id, path, &mut reader)?;
    let left = reader.left();
    let bits = (all - left) as u32;
    Ok((value, bits))
}

/// The same, by a segment or a template where one tells.
fn read_front(
    alloc: Global,
    table: &TypeTable,
    segments: &Segments<'_>,
    id: TypeId,
    view: BitView,
    path: &mut Path,
) -> Result<(Value, u32), Fail<Reason>>
    requires segments { segments.now ≡ table.now }
    requires known { id.0 < length table.now }
    requires clear { IsClear table.now id.0 }
    requires most { length (view_bits view) ≤ 524288 }
    requires root { path.old ≡ [] }
    ensures gives { Gives (λ x. (plain x.0, x.1)) (with_path path.new result) (sized (view_bits view.entry) (read_type table.now id.0 (view_bits view.entry))) }
    ensures calm { OnOk result (path.new ≡ []) }
    ensures reason { IfErr result StopsReading }
{
    if let Some(found) = straight_front(alloc, table, segments, id, view)? {
        return Ok(found);
    }
    if let Some(found) = template_front(alloc, segments, id, view)? {
        return Ok(found);
    }
    read_exactly(alloc, table, segments, id, view, path)
}

/// The value of a type that the bits of a view begin with, and how many bits it takes, exactly as `unpack` gives them, for a caller
/// who has asked `scalars_by` before. None, where the bits spell none: then `unpack_in` tells why. What this answers is small, where
/// an answer with a fault has room for its path, which is cleared and moved for each value. The room is that of `unpack_in`.
pub fn value_by(
    alloc: Global,
    table: &TypeTable,
    segments: &Segments<'_>,
    id: TypeId,
    view: BitView,
    room: &mut FaultRoom,
) -> Result<Option<(Value, u32)>, Memory>
    requires segments { segments.now ≡ table.now }
    requires known { id.0 < length table.now }
    requires clear { IsClear table.now id.0 }
    requires most { length (view_bits view) ≤ 524288 }
    ensures size { IfOk result (λ o. IfSome o (λ x. x.1 ≤ length (view_bits view.entry))) }
    ensures value { IfOk result (λ o. IfSome o (λ x. Spells table.now id.0 (plain x.0) (take x.1 (view_bits view.entry)))) }
{
    table.keeps_rules();
    reading_is_exact();
    match read_exactly(alloc, table, segments, id, view, &mut room.path) {
        Ok(found) => Ok(Some(found)),
        Err(stop) => {
            forget(&mut room.path);
            match stop {
                Fail::Named(_) => Ok(None),
                Fail::Memory => Err(Memory),
            }
        }
    }
}

/// The value of a type that the bits of a view begin with, and how many bits it takes, exactly as `unpack` gives them, read by
/// the segments of its table, with a room for the path of a fault. Segments and room are made once, and pay where many values
/// are read.
pub fn unpack_in(
    alloc: Global,
    table: &TypeTable,
    segments: &Segments<'_>,
    id: TypeId,
    view: BitView,
    room: &mut FaultRoom,
) -> Result<(Value, u32), Fail<Fault>>
    requires segments { segments.now ≡ table.now }
    requires known { id.0 < length table.now }
    requires clear { IsClear table.now id.0 }
    requires most { length (view_bits view) ≤ 524288 }
    ensures size { IfOk result (λ x. x.1 ≤ length (view_bits view.entry)) }
    ensures value { IfOk result (λ x. Spells table.now id.0 (plain x.0) (take x.1 (view_bits view.entry))) }
    ensures only_value { (v : Plain) (c rest : Bits) → view_bits view.entry ≡ c ++ rest → Spells table.now id.0 v c → IsValue v (length c) result }
    ensures fault { IfFault (FailsAt table.now id.0 (view_bits view.entry)) result }
    ensures only_fault { (g : Fault) → FailsAt table.now id.0 (view_bits view.entry) g → IsFault g result }
    ensures reason { IfFault (λ (g : Fault). IsOfReading g.reason) result }
{
    table.keeps_rules();
    reading_is_exact();
    match read_front(alloc, table, segments, id, view, &mut room.path) {
        Ok(found) => Ok(found),
        Err(stop) => Err(stop_in(&mut room.path, stop)),
    }
}

/// The value of a type that the bits of a view begin with, and how many bits it takes, exactly as `unpack` gives them, read by
/// the segments of its table. These are made once, and pay where many values are read.
pub fn unpack_by(
    alloc: Global,
    table: &TypeTable,
    segments: &Segments<'_>,
    id: TypeId,
    view: BitView,
) -> Result<(Value, u32), Fail<Fault>>
    requires segments { segments.now ≡ table.now }
    requires known { id.0 < length table.now }
    requires clear { IsClear table.now id.0 }
    requires most { length (view_bits view) ≤ 524288 }
    ensures size { IfOk result (λ x. x.1 ≤ length (view_bits view.entry)) }
    ensures value { IfOk result (λ x. Spells table.now id.0 (plain x.0) (take x.1 (view_bits view.entry))) }
    ensures only_value { (v : Plain) (c rest : Bits) → view_bits view.entry ≡ c ++ rest → Spells table.now id.0 v c → IsValue v (length c) result }
    ensures fault { IfFault (FailsAt table.now id.0 (view_bits view.entry)) result }
    ensures only_fault { (g : Fault) → FailsAt table.now id.0 (view_bits view.entry) g → IsFault g result }
    ensures reason { IfFault (λ (g : Fault). IsOfReading g.reason) result }
{
    let mut room = FaultRoom::new();
    unpack_in(alloc, table, segments, id, view, &mut room)
}

/// The value of a type that the bits of a view begin with, and how many bits it takes: it is exactly the one that they
/// spell. Where none is spelled, the first entry, constraint or choice at which reading fails, and why. No two containers
/// overlap under the type. The view has at most 524,288 bits.
pub fn unpack(
    alloc: Global,
    table: &TypeTable,
    id: TypeId,
    view: BitView,
) -> Result<(Value, u32), Fail<Fault>>
    requires known { id.0 < length table.now }
    requires clear { IsClear table.now id.0 }
    requires most { length (view_bits view) ≤ 524288 }
    ensures size { IfOk result (λ x. x.1 ≤ length (view_bits view.entry)) }
    ensures value { IfOk result (λ x. Spells table.now id.0 (plain x.0) (take x.1 (view_bits view.entry))) }
    ensures only_value { (v : Plain) (c rest : Bits) → view_bits view.entry ≡ c ++ rest → Spells table.now id.0 v c → IsValue v (length c) result }
    ensures fault { IfFault (FailsAt table.now id.0 (view_bits view.entry)) result }
    ensures only_fault { (g : Fault) → FailsAt table.now id.0 (view_bits view.entry) g → IsFault g result }
    ensures reason { IfFault (λ (g : Fault). IsOfReading g.reason) result }
{
    let segments = Segments::of(alloc, table)?;
    unpack_by(alloc, table, &segments, id, view)
}
