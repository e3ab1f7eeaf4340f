//! Reading the value of a type from the bits that are left, by the kind of the type.

ghost use Rattle.std.specs.Prelude.{◌≡◌, ◌+◌, ◌*◌, ◌<◌, ◌≤◌, [], length, map, reverse, slice_get, true, Some, IfErr, OnOk};
ghost use Rattle.std.specs.List.{AllByRecursion};
ghost use Rattle.eds_bits.specs.Reader.{bits_left};
ghost use Rattle.eds_types.specs.Plain.{plain};
ghost use Rattle.eds_base.specs.declared.fault.Step.TheVariants.{Part as ToPart};
ghost use Rattle.eds_types.specs.Reading.{inside, read_within, read_kind, read_items as items_read, read_part as part_read, read_entry as entry_read, read_parts as parts_read, read_chain as chain_read, read_under as under_read, ended, read_to_end};
ghost use Rattle.eds_types.specs.Rows.{placed_from, placed_entries, numbers_of};
ghost use Rattle.eds_base.specs.declared.ids.TypeId.{TypeId as Id};
ghost use Rattle.eds_types.specs.Seeking.{trailers_in_turn};
ghost use Rattle.eds_unpack.specs.Courses.{IsUnderWay, progress_of};
ghost use Rattle.eds_unpack.specs.Entries.{IsInner, IsLow, PartIsRead, placed};
ghost use Rattle.eds_unpack.specs.Readers.{Gives, with_path, StopsReading};
ghost use Rattle.eds_unpack.specs.Straight.{is_straight};

use crate::choice::{Next, next_container};
use crate::constraint::check_constraints;
use crate::expected::{expect_check, expect_value};
use crate::fields::count_at;
use crate::head::{behind, put_head, read_head};
use crate::octets::{read_octets, read_string, skip_padding};
use crate::progress::{FEW, Reached, begin, has_told_size, keep_field};
use crate::scalar::{read_integer, read_label, read_truth};
use crate::scalars::{read_scalar, read_scalars};
use crate::segments::Segments;
use crate::straight::{is_straight, type_of};
use crate::sum::sum_before;
use crate::tail::{open_bits, read_tail, tell_length};
use crate::told::keep_told;
use crate::values::read_by_segment;
use eds_base::{Fail, Memory, Path, Reason, Step, TypeId};
use eds_bits::BitReader;
use eds_types::{Kind, Part, TypeRow, TypeTable, Value};
use std::alloc::Global;

/// What values are read by: where memory comes from, the table, the segments of its containers, and how many types are nested
/// in each other at most.
#[derive(Drop)]
pub(crate) struct Level<'a> {
    pub alloc: Global,
    pub table: &'a TypeTable,
    pub segments: &'a Segments<'a>,
    pub depth: u32,
    pub ghost right: { segments.now ≡ table.now },
}

/// The most containers of a chain.
const CHAIN: usize = 16;

/// Reads the value of a type.
#[cycle(read)]
#[inline(always)]
pub(crate) fn read_value(
    level: &Level<'_>,
    id: TypeId,
    path: &mut Path,
    reader: &mut BitReader,
) -> Result<Value, Fail<Reason>>
    requires inner { IsInner level.now.table.now level.now.depth id.0 }
    requires few { level.now.depth ≤ 32 }
    requires root { path.old ≡ [] }
    ensures gives { Gives (λ v. (plain v, bits_left reader.new)) (with_path path.new result) (read_within level.now.depth level.now.table.now id.0 (bits_left reader.old)) }
    ensures near { length path.new ≤ 2 * level.now.depth }
    ensures calm { OnOk result (path.new ≡ []) }
    ensures reason { IfErr result StopsReading }
{
    let inner = Level {
        alloc: level.alloc,
        table: level.table,
        segments: level.segments,
        depth: level.depth - 1,
    };
    if let Some(value) = read_scalar(level.alloc, level.table, level.segments, id, reader)? {
        return Ok(value);
    }
    read_row(&inner, id, level.table.row(id), path, reader)
}

/// Reads the value of the type in a row, where so many types are nested in it at most.
#[cycle(read)]
#[inline(always)]
fn read_row(
    level: &Level<'_>,
    id: TypeId,
    row: &TypeRow,
    path: &mut Path,
    reader: &mut BitReader,
) -> Result<Value, Fail<Reason>>
    requires inner { IsLow level.now.table.now (level.now.depth + 1) id.0 }
    requires known { slice_get level.now.table.now id.0 ≡ Some row.now }
    requires few { level.now.depth < 32 }
    requires root { path.old ≡ [] }
    ensures gives { Gives (λ v. (plain v, bits_left reader.new)) (with_path path.new result) (read_kind level.now.table.now (read_within level.now.depth level.now.table.now) id.0 row.now.kind (bits_left reader.old)) }
    ensures near { length path.new ≤ 2 * level.now.depth + 2 }
    ensures calm { OnOk result (path.new ≡ []) }
    ensures reason { IfErr result StopsReading }
{
    level.table.keeps_rules();
    match &row.kind {
        Kind::Int(form, spans) => read_integer(*form, spans, reader),
        Kind::Enum(form, listing) => read_label(level.alloc, *form, listing, reader),
        Kind::Bool(form) => read_truth(*form, reader),
        Kind::Str(form) => read_string(level.alloc, *form, reader),
        Kind::Bin(bits, _) => read_octets(level.alloc, *bits, reader),
        Kind::Arr(item, count) => {
            let items = read_items(level, *item, u128::from(*count), path, reader)?;
            Ok(Value::Items(items))
        }
        Kind::Con(_) => read_fields(level, id, path, reader),
    }
}

/// Reads so many items of a type.
#[cycle(read)]
#[tactic(auto, unfolding(eds_types::specs::Reading::read_items))]
fn read_items(
    level: &Level<'_>,
    id: TypeId,
    count: u128,
    path: &mut Path,
    reader: &mut BitReader,
) -> Result<Vec<Value>, Fail<Reason>>
    requires inner { IsInner level.now.table.now level.now.depth id.0 }
    requires few { level.now.depth < 32 }
    requires root { path.old ≡ [] }
    ensures gives { Gives (λ vs. (map plain vs.items, bits_left reader.new)) (with_path path.new result) (items_read (read_within level.now.depth level.now.table.now id.0) count 0 (bits_left reader.old)) }
    ensures near { length path.new ≤ 2 * level.now.depth + 1 }
    ensures calm { OnOk result (path.new ≡ []) }
    ensures reason { IfErr result StopsReading }
{
    if let Some(values) = read_scalars(
        level.alloc,
        level.table,
        level.segments,
        id,
        count,
        reader,
    )? {
        return Ok(values);
    }
    let mut values = Vec::new(level.alloc);
    let mut place: u32 = 0;
    while u128::from(place) < count {
        match read_value(level, id, path, reader) {
            Ok(value) => values.push(value)?,
            Err(stop) => {
                path.put_first(Step::Item(place));
                return Err(stop);
            }
        }
        place = place.checked_add(1).ok_or(Memory)?;
    }
    Ok(values)
}

/// Reads the value of an entry at a place of a container.
#[cycle(read)]
#[inline(always)]
fn read_field(
    level: &Level<'_>,
    container: TypeId,
    place: u16,
    id: TypeId,
    path: &mut Path,
    reader: &mut BitReader,
) -> Result<Value, Fail<Reason>>
    requires inner { IsInner level.now.table.now level.now.depth id.0 }
    requires few { level.now.depth < 32 }
    requires root { path.old ≡ [] }
    ensures gives { Gives (λ v. (plain v, bits_left reader.new)) (with_path path.new result) (inside (ToPart container place) (read_within level.now.depth level.now.table.now id.0 (bits_left reader.old))) }
    ensures near { length path.new ≤ 2 * level.now.depth + 1 }
    ensures calm { OnOk result (path.new ≡ []) }
    ensures reason { IfErr result StopsReading }
{
    match read_value(level, id, path, reader) {
        Ok(value) => Ok(value),
        Err(stop) => {
            path.put_first(Step::Part(container, place));
            Err(stop)
        }
    }
}

/// Reads the fields of a container whose entries are all that it has: those that it begins with by its segment, where that
/// tells their values, and then the others one by one.
#[cycle(read)]
fn read_straight(
    level: &Level<'_>,
    container: TypeId,
    path: &mut Path,
    reader: &mut BitReader,
) -> Result<Value, Fail<Reason>>
    requires inner { IsLow level.now.table.now (level.now.depth + 1) container.0 }
    requires straight { is_straight level.now.table.now container.0 ≡ true }
    requires few { level.now.depth < 32 }
    requires root { path.old ≡ [] }
    ensures gives { Gives (λ v. (plain v, bits_left reader.new)) (with_path path.new result) (ended level.now.table.now (read_within level.now.depth level.now.table.now) (read_to_end level.now.table.now (read_within level.now.depth level.now.table.now) container.0 (bits_left reader.old))) }
    ensures near { length path.new ≤ 2 * level.now.depth + 2 }
    ensures calm { OnOk result (path.new ≡ []) }
    ensures reason { IfErr result StopsReading }
{
    let entries = level.table.entries_of(container);
    let mut values = Vec::with_capacity(level.alloc, entries.len().min(FEW))?;
    let first = put_head(
        level.alloc,
        level.table,
        level.segments,
        container,
        &mut values,
        reader,
    )?;
    let rest = behind(entries, usize::from(first));
    let mut place = first;
    for part in rest {
        let value = read_field(level, container, place, type_of(part), path, reader)?;
        values.push(value)?;
        place += 1;
    }
    Ok(Value::Fields(container, values))
}

/// Reads a part of a container, and keeps its value, where it has one.
#[cycle(read)]
#[inline(always)]
fn read_part(
    level: &Level<'_>,
    container: TypeId,
    place: u16,
    part: &Part,
    reached: &mut Reached<'_>,
    path: &mut Path,
    reader: &mut BitReader,
) -> Result<(), Fail<Reason>>
    requires inner { PartIsRead level.now.table.now level.now.depth part.now }
    requires few { level.now.depth < 32 }
    requires begun { IsUnderWay reached.old (bits_left reader.old) }
    requires root { path.old ≡ [] }
    ensures gives { Gives (λ u. (progress_of reached.new (bits_left reader.new), bits_left reader.new)) (with_path path.new result) (part_read level.now.table.now (read_within level.now.depth level.now.table.now) (progress_of reached.old (bits_left reader.old)) (placed container.0 place part.now) part.now (bits_left reader.old)) }
    ensures begun { OnOk result (IsUnderWay reached.new (bits_left reader.new)) }
    ensures near { length path.new ≤ 2 * level.now.depth + 1 }
    ensures calm { OnOk result (path.new ≡ []) }
    ensures reason { IfErr result StopsReading }
{
    match part {
        Part::Plain(_, id) => {
            let value = read_value(level, *id, path, reader)?;
            Ok(keep_field(reached, container, place, value)?)
        }
        Part::Fixed(_, id, fixed) => {
            let value = read_value(level, *id, path, reader)?;
            expect_value(fixed, &value)?;
            Ok(())
        }
        Part::Pad(bits) => {
            skip_padding(*bits, reader)?;
            Ok(())
        }
        Part::List(_, id, teller, told) => {
            let count = count_at(&reached.fields, *teller, *told);
            let items = read_items(level, *id, count, path, reader)?;
            Ok(keep_field(reached, container, place, Value::Items(items))?)
        }
        Part::Length(_, id, c0, c1) => {
            let value = read_value(level, *id, path, reader)?;
            keep_told(reached, c0, c1, &value)?;
            Ok(())
        }
        Part::Check(_, id, check) => {
            let sum = sum_before(*check, reached, reader)?;
            let value = read_value(level, *id, path, reader)?;
            expect_check(sum, &value)?;
            Ok(())
        }
    }
}

/// Reads the part at a place of a container, a tail among them.
#[cycle(read)]
#[inline(always)]
fn read_entry(
    level: &Level<'_>,
    container: TypeId,
    place: u16,
    part: &Part,
    reached: &mut Reached<'_>,
    path: &mut Path,
    reader: &mut BitReader,
) -> Result<(), Fail<Reason>>
    requires inner { PartIsRead level.now.table.now level.now.depth part.now }
    requires few { level.now.depth < 32 }
    requires begun { IsUnderWay reached.old (bits_left reader.old) }
    requires root { path.old ≡ [] }
    ensures gives { Gives (λ u. (progress_of reached.new (bits_left reader.new), bits_left reader.new)) (with_path path.new result) (entry_read level.now.table.now (read_within level.now.depth level.now.table.now) (progress_of reached.old (bits_left reader.old)) (placed container.0 place part.now) (bits_left reader.old)) }
    ensures begun { OnOk result (IsUnderWay reached.new (bits_left reader.new)) }
    ensures near { length path.new ≤ 2 * level.now.depth + 2 }
    ensures calm { OnOk result (path.new ≡ []) }
    ensures reason { IfErr result StopsReading }
{
    if let Some(most) = open_bits(level.table, part) {
        return read_tail(
            level.alloc,
            level.table,
            level.segments,
            most,
            container,
            place,
            reached,
            path,
            reader,
        );
    }
    match read_part(level, container, place, part, reached, path, reader) {
        Ok(()) => Ok(()),
        Err(stop) => {
            path.put_first(Step::Part(container, place));
            Err(stop)
        }
    }
}

/// Reads parts of a container, of which the first stands at a given place.
#[cycle(read)]
#[tactic(auto, unfolding(eds_types::specs::Reading::read_parts))]
fn read_parts(
    level: &Level<'_>,
    container: TypeId,
    first: u16,
    parts: &[Part],
    reached: &mut Reached<'_>,
    path: &mut Path,
    reader: &mut BitReader,
) -> Result<(), Fail<Reason>>
    requires inner { AllByRecursion (PartIsRead level.now.table.now level.now.depth) parts.now }
    requires many { first + length parts.now ≤ 65534 }
    requires few { level.now.depth < 32 }
    requires begun { IsUnderWay reached.old (bits_left reader.old) }
    requires root { path.old ≡ [] }
    ensures gives { Gives (λ u. (progress_of reached.new (bits_left reader.new), bits_left reader.new)) (with_path path.new result) (parts_read level.now.table.now (read_within level.now.depth level.now.table.now) (placed_from container.0 first parts.now) (progress_of reached.old (bits_left reader.old)) (bits_left reader.old)) }
    ensures begun { OnOk result (IsUnderWay reached.new (bits_left reader.new)) }
    ensures near { length path.new ≤ 2 * level.now.depth + 2 }
    ensures calm { OnOk result (path.new ≡ []) }
    ensures reason { IfErr result StopsReading }
{
    let mut place = first;
    for part in parts {
        read_entry(level, container, place, part, reached, path, reader)?;
        place += 1;
    }
    Ok(())
}

/// Reads the entries of a container: those that it begins with by its segment, where that tells their values, and then the
/// others one by one.
#[cycle(read)]
#[inline(always)]
fn read_own(
    level: &Level<'_>,
    id: TypeId,
    reached: &mut Reached<'_>,
    path: &mut Path,
    reader: &mut BitReader,
) -> Result<(), Fail<Reason>>
    requires inner { IsLow level.now.table.now (level.now.depth + 1) id.0 }
    requires few { level.now.depth < 32 }
    requires begun { IsUnderWay reached.old (bits_left reader.old) }
    requires root { path.old ≡ [] }
    ensures gives { Gives (λ u. (progress_of reached.new (bits_left reader.new), bits_left reader.new)) (with_path path.new result) (parts_read level.now.table.now (read_within level.now.depth level.now.table.now) (placed_entries level.now.table.now id.0) (progress_of reached.old (bits_left reader.old)) (bits_left reader.old)) }
    ensures begun { OnOk result (IsUnderWay reached.new (bits_left reader.new)) }
    ensures near { length path.new ≤ 2 * level.now.depth + 2 }
    ensures calm { OnOk result (path.new ≡ []) }
    ensures reason { IfErr result StopsReading }
{
    let entries = level.table.entries_of(id);
    let first = read_head(
        level.alloc,
        level.table,
        level.segments,
        id,
        reached,
        reader,
    )?;
    let rest = behind(entries, usize::from(first));
    read_parts(level, id, first, rest, reached, path, reader)
}

/// Reads the entries of a chain of containers, each behind its container's constraints.
#[cycle(read)]
#[tactic(auto, unfolding(eds_types::specs::Reading::read_chain))]
fn read_chain(
    level: &Level<'_>,
    chain: &[TypeId],
    reached: &mut Reached<'_>,
    path: &mut Path,
    reader: &mut BitReader,
) -> Result<(), Fail<Reason>>
    requires inner { AllByRecursion (λ (id : Id). IsLow level.now.table.now (level.now.depth + 1) id.0) chain.now }
    requires few { level.now.depth < 32 }
    requires begun { IsUnderWay reached.old (bits_left reader.old) }
    requires root { path.old ≡ [] }
    ensures gives { Gives (λ u. (progress_of reached.new (bits_left reader.new), bits_left reader.new)) (with_path path.new result) (chain_read level.now.table.now (read_within level.now.depth level.now.table.now) (numbers_of chain.now) (progress_of reached.old (bits_left reader.old)) (bits_left reader.old)) }
    ensures begun { OnOk result (IsUnderWay reached.new (bits_left reader.new)) }
    ensures near { length path.new ≤ 2 * level.now.depth + 2 }
    ensures calm { OnOk result (path.new ≡ []) }
    ensures reason { IfErr result StopsReading }
{
    let table = level.table;
    table.keeps_rules();
    for id in chain {
        let constraints = table.constraints_of(*id);
        check_constraints(table, constraints, &reached.fields, path)?;
        read_own(level, *id, reached, path, reader)?;
    }
    Ok(())
}

/// Reads the trailers of a chain of containers, from the last container up.
#[cycle(read)]
fn read_trailers(
    level: &Level<'_>,
    chain: &[TypeId],
    reached: &mut Reached<'_>,
    path: &mut Path,
    reader: &mut BitReader,
) -> Result<(), Fail<Reason>>
    requires inner { AllByRecursion (λ (id : Id). IsLow level.now.table.now (level.now.depth + 1) id.0) chain.now }
    requires short { length chain.now ≤ 16 }
    requires few { level.now.depth < 32 }
    requires begun { IsUnderWay reached.old (bits_left reader.old) }
    requires root { path.old ≡ [] }
    ensures gives { Gives (λ u. (progress_of reached.new (bits_left reader.new), bits_left reader.new)) (with_path path.new result) (parts_read level.now.table.now (read_within level.now.depth level.now.table.now) (trailers_in_turn level.now.table.now (reverse chain.now)) (progress_of reached.old (bits_left reader.old)) (bits_left reader.old)) }
    ensures begun { OnOk result (IsUnderWay reached.new (bits_left reader.new)) }
    ensures near { length path.new ≤ 2 * level.now.depth + 2 }
    ensures calm { OnOk result (path.new ≡ []) }
    ensures reason { IfErr result StopsReading }
{
    let table = level.table;
    table.keeps_rules();
    let mut rest = chain;
    while let [front @ .., id] = rest {
        let first = table.entries_of(*id).len() as u16;
        read_parts(
            level,
            *id,
            first,
            table.trailers_of(*id),
            reached,
            path,
            reader,
        )?;
        rest = front;
    }
    Ok(())
}

/// Reads what follows the entries of a container and its bases: those of the containers that are chosen under it, and the
/// trailers. Says which container it is.
#[cycle(read)]
#[tactic(auto, unfolding(eds_types::specs::Reading::read_under))]
fn read_under(
    level: &Level<'_>,
    id: TypeId,
    reached: &mut Reached<'_>,
    path: &mut Path,
    reader: &mut BitReader,
) -> Result<TypeId, Fail<Reason>>
    requires inner { IsLow level.now.table.now (level.now.depth + 1) id.0 }
    requires few { level.now.depth < 32 }
    requires begun { IsUnderWay reached.old (bits_left reader.old) }
    requires root { path.old ≡ [] }
    ensures gives { Gives (λ (x : Id). (x.0, progress_of reached.new (bits_left reader.new), bits_left reader.new)) (with_path path.new result) (under_read level.now.table.now (read_within level.now.depth level.now.table.now) 16 id.0 (progress_of reached.old (bits_left reader.old)) (bits_left reader.old)) }
    ensures begun { OnOk result (IsUnderWay reached.new (bits_left reader.new)) }
    ensures near { length path.new ≤ 2 * level.now.depth + 2 }
    ensures calm { OnOk result (path.new ≡ []) }
    ensures reason { IfErr result StopsReading }
{
    let table = level.table;
    table.keeps_rules();
    let mut at = id;
    for _ in 0..CHAIN {
        match next_container(table, level.segments, at, &reached.fields) {
            Next::Stay => {
                let chain = table.chain_of(at);
                read_trailers(level, chain.as_slice(), reached, path, reader)?;
                if has_told_size(reached, reader) {
                    return Ok(at);
                }
                tell_length(table, at, path);
                return Err(Fail::Named(Reason::LengthDiffers));
            }
            Next::Nowhere => break,
            Next::Under(child) => {
                read_own(level, child, reached, path, reader)?;
                at = child;
            }
        }
    }
    path.put_first(Step::Choice(at));
    Err(Fail::Named(Reason::NoDerived))
}

/// Reads the fields of a container.
#[cycle(read)]
fn read_container(
    level: &Level<'_>,
    id: TypeId,
    path: &mut Path,
    reader: &mut BitReader,
) -> Result<Value, Fail<Reason>>
    requires inner { IsLow level.now.table.now (level.now.depth + 1) id.0 }
    requires few { level.now.depth < 32 }
    requires root { path.old ≡ [] }
    ensures gives { Gives (λ v. (plain v, bits_left reader.new)) (with_path path.new result) (ended level.now.table.now (read_within level.now.depth level.now.table.now) (read_to_end level.now.table.now (read_within level.now.depth level.now.table.now) id.0 (bits_left reader.old))) }
    ensures near { length path.new ≤ 2 * level.now.depth + 2 }
    ensures calm { OnOk result (path.new ≡ []) }
    ensures reason { IfErr result StopsReading }
{
    if is_straight(level.table, id) {
        return read_straight(level, id, path, reader);
    }
    let mut reached = begin(level.alloc, level.table, id, reader)?;
    let chain = level.table.chain_of(id);
    read_chain(level, chain.as_slice(), &mut reached, path, reader)?;
    let found = read_under(level, id, &mut reached, path, reader)?;
    Ok(Value::Fields(found, reached.fields.values))
}

/// Reads the fields of a container, by its segment, where that tells them.
#[cycle(read)]
#[inline(always)]
fn read_fields(
    level: &Level<'_>,
    id: TypeId,
    path: &mut Path,
    reader: &mut BitReader,
) -> Result<Value, Fail<Reason>>
    requires inner { IsLow level.now.table.now (level.now.depth + 1) id.0 }
    requires few { level.now.depth < 32 }
    requires root { path.old ≡ [] }
    ensures gives { Gives (λ v. (plain v, bits_left reader.new)) (with_path path.new result) (ended level.now.table.now (read_within level.now.depth level.now.table.now) (read_to_end level.now.table.now (read_within level.now.depth level.now.table.now) id.0 (bits_left reader.old))) }
    ensures near { length path.new ≤ 2 * level.now.depth + 2 }
    ensures calm { OnOk result (path.new ≡ []) }
    ensures reason { IfErr result StopsReading }
{
    match read_by_segment(level.alloc, level.table, level.segments, id, reader)? {
        Some(values) => Ok(Value::Fields(id, values)),
        None => read_container(level, id, path, reader),
    }
}
