//! Passing over the value of a type in the bits that are left, without keeping it.

ghost use Rattle.std.specs.Prelude.{◌≡◌, ◌++◌, ◌∷◌, ◌+◌, ◌+ℤ◌, ◌*◌, ◌*ℤ◌, ◌^◌, ◌<◌, ◌≤◌, ℕ, [], List, length, nat_abs, pos, reverse, slice_get, Ok, Err, None, Some, IfErr, IfOk, IfSome, IsSome, OnOk};
ghost use Rattle.std.specs.List.{AllByRecursion, flat_map};
ghost use Rattle.eds_base.specs.declared.fault.Reason.TheVariants.{Short};
ghost use Rattle.eds_bits.specs.Reader.{bits_left};
ghost use Rattle.eds_types.specs.Failing.{fault_at};
ghost use Rattle.eds_types.specs.Fields.{value_at};
ghost use Rattle.eds_types.specs.Plain.{Plain, bits as binary};
ghost use Rattle.eds_types.specs.Reading.{front, number_is, read_tail as tail_read, tail_room, read_within, read_kind, read_items as items_read, read_part as part_read, read_entry as entry_read, read_parts as parts_read, read_chain as chain_read, read_under as under_read, ended, read_to_end};
ghost use Rattle.eds_types.specs.Rows.{Placed, chain as chain_of, numbers_of, placed_entries, placed_from, placed_trailers};
ghost use Rattle.eds_types.specs.declared.row.Part.{Part as Piece};
ghost use Rattle.eds_types.specs.Spelling.{Progress, started, with_value};
ghost use Rattle.eds_unpack.specs.Answers.{IsOfReading};
ghost use Rattle.eds_unpack.specs.Asked.{asked};
ghost use Rattle.eds_unpack.specs.Courses.{MovesOn};
ghost use Rattle.eds_unpack.specs.Entries.{IsInner, IsLow, PartIsRead, placed};
ghost use Rattle.eds_unpack.specs.Noted.{KeepsOuter};
ghost use Rattle.eds_unpack.specs.Walks.{Ended, Goes, IsAt, IsFront, IsNotedField, IsPassed, IsTold, IsWalking, Stands};
ghost use Rattle.eds_overlap.specs.Common.{each_once};

use crate::choice::Next;
use crate::chosen::next_noted;
use crate::noted::{check_noted, count_noted, note_field};
use crate::notes::Notes;
use crate::progress::{bits_between, is_told_size};
use crate::segments::Segments;
use crate::skim::{
    skim_fixed, skim_integer, skim_label, skim_octets, skim_padding, skim_text, skim_truth,
};
use crate::sum::sum_of;
use crate::tail::{open_bits, tail_octets_left, tell_length};
use crate::told::told_octets;
use eds_base::{Path, Reason, Step, TypeId};
use eds_bits::BitReader;
use eds_types::{Kind, Part, TypeRow, TypeTable};

/// What values are passed over by: the table, the segments of its containers, the paths that are asked for, and how many types
/// are nested in each other at most.
#[derive(Drop)]
pub(crate) struct Walk<'a> {
    pub table: &'a TypeTable,
    pub segments: &'a Segments<'a>,
    pub notes: &'a Notes,
    pub depth: u32,
    pub ghost right: { segments.now ≡ table.now },
}

/// What is seen of a value: its most derived container, or its type where it is none, and its number, where it has one.
#[derive(Clone, Copy)]
pub(crate) struct Seen {
    pub found: TypeId,
    pub number: Option<i128>,
}

/// How far the walk over a container has come: how many octets the length entry tells, and a reader before the container's
/// first bit.
#[derive(Clone, Copy)]
pub(crate) struct Walked<'a> {
    pub octets: Option<i128>,
    pub start: BitReader<'a>,
}

/// The most containers of a chain.
const CHAIN: usize = 16;

/// Passes over the value of a type.
#[cycle(walk)]
pub(crate) fn walk_value(
    walk: &Walk<'_>,
    id: TypeId,
    numbers: &mut [Option<i128>],
    path: &mut Path,
    reader: &mut BitReader,
) -> Result<Seen, Reason>
    requires notes { walk.now.notes.now ≡ each_once (asked walk.now.table.now) }
    requires room { length walk.now.notes.now ≤ length numbers.old }
    requires inner { IsInner walk.now.table.now walk.now.depth id.0 }
    requires few { walk.now.depth ≤ 32 }
    requires short { length (bits_left reader.old) ≤ 524288 }
    requires root { path.old ≡ [] }
    ensures passed { IfOk result (IsPassed walk.now.table.now walk.now.notes.now id.0 numbers.new (read_within walk.now.depth walk.now.table.now id.0 (bits_left reader.old)) (bits_left reader.new)) }
    ensures fault { IfErr result (λ r. read_within walk.now.depth walk.now.table.now id.0 (bits_left reader.old) ≡ Err (fault_at r path.new)) }
    ensures outer { KeepsOuter walk.now.table.now walk.now.notes.now id.0 numbers.old numbers.new }
    ensures near { length path.new ≤ 2 * walk.now.depth }
    ensures calm { OnOk result (path.new ≡ []) }
    ensures reason { IfErr result IsOfReading }
{
    let inner = Walk {
        table: walk.table,
        segments: walk.segments,
        notes: walk.notes,
        depth: walk.depth - 1,
    };
    walk_row(&inner, id, walk.table.row(id), numbers, path, reader)
}

/// Passes over the value of the type in a row, where so many types are nested in it at most.
#[cycle(walk)]
fn walk_row(
    walk: &Walk<'_>,
    id: TypeId,
    row: &TypeRow,
    numbers: &mut [Option<i128>],
    path: &mut Path,
    reader: &mut BitReader,
) -> Result<Seen, Reason>
    requires notes { walk.now.notes.now ≡ each_once (asked walk.now.table.now) }
    requires room { length walk.now.notes.now ≤ length numbers.old }
    requires inner { IsLow walk.now.table.now (walk.now.depth + 1) id.0 }
    requires known { slice_get walk.now.table.now id.0 ≡ Some row.now }
    requires few { walk.now.depth < 32 }
    requires short { length (bits_left reader.old) ≤ 524288 }
    requires root { path.old ≡ [] }
    ensures passed { IfOk result (IsPassed walk.now.table.now walk.now.notes.now id.0 numbers.new (read_kind walk.now.table.now (read_within walk.now.depth walk.now.table.now) id.0 row.now.kind (bits_left reader.old)) (bits_left reader.new)) }
    ensures fault { IfErr result (λ r. read_kind walk.now.table.now (read_within walk.now.depth walk.now.table.now) id.0 row.now.kind (bits_left reader.old) ≡ Err (fault_at r path.new)) }
    ensures outer { KeepsOuter walk.now.table.now walk.now.notes.now id.0 numbers.old numbers.new }
    ensures near { length path.new ≤ 2 * walk.now.depth + 2 }
    ensures calm { OnOk result (path.new ≡ []) }
    ensures reason { IfErr result IsOfReading }
{
    walk.table.keeps_rules();
    let number = match &row.kind {
        Kind::Int(form, spans) => Some(skim_integer(*form, spans, reader)?),
        Kind::Enum(form, listing) => Some(skim_label(*form, listing, reader)?),
        Kind::Bool(form) => Some(i128::from(skim_truth(*form, reader)?)),
        Kind::Str(form) => {
            skim_text(*form, reader)?;
            None
        }
        Kind::Bin(bits, _) => {
            skim_octets(*bits, reader)?;
            None
        }
        Kind::Arr(item, count) => {
            walk_items(walk, *item, u128::from(*count), numbers, path, reader)?;
            None
        }
        Kind::Con(_) => return walk_container(walk, id, numbers, path, reader),
    };
    Ok(Seen { found: id, number })
}

/// Passes over so many items of a type.
#[cycle(walk)]
#[tactic(auto, unfolding(eds_types::specs::Reading::read_items))]
fn walk_items(
    walk: &Walk<'_>,
    id: TypeId,
    count: u128,
    numbers: &mut [Option<i128>],
    path: &mut Path,
    reader: &mut BitReader,
) -> Result<(), Reason>
    requires notes { walk.now.notes.now ≡ each_once (asked walk.now.table.now) }
    requires room { length walk.now.notes.now ≤ length numbers.old }
    requires inner { IsInner walk.now.table.now walk.now.depth id.0 }
    requires few { walk.now.depth < 32 }
    requires short { length (bits_left reader.old) ≤ 524288 }
    requires root { path.old ≡ [] }
    ensures passed { OnOk result ((vs : List Plain) × (items_read (read_within walk.now.depth walk.now.table.now id.0) count 0 (bits_left reader.old) ≡ Ok (vs, bits_left reader.new))) }
    ensures fault { IfErr result (λ r. items_read (read_within walk.now.depth walk.now.table.now id.0) count 0 (bits_left reader.old) ≡ Err (fault_at r path.new)) }
    ensures outer { KeepsOuter walk.now.table.now walk.now.notes.now id.0 numbers.old numbers.new }
    ensures near { length path.new ≤ 2 * walk.now.depth + 1 }
    ensures calm { OnOk result (path.new ≡ []) }
    ensures reason { IfErr result IsOfReading }
{
    let mut place: u32 = 0;
    while u128::from(place) < count {
        let left = reader.left();
        if let Err(reason) = walk_value(walk, id, numbers, path, reader) {
            path.put_first(Step::Item(place));
            return Err(reason);
        }
        if reader.left() == left {
            // All further ones are the same, of no bits.
            return Ok(());
        }
        place += 1;
    }
    Ok(())
}

/// Keeps how many octets a length entry with this number tells.
fn keep_octets(
    walked: &mut Walked<'_>,
    c0: &i64,
    c1: &i64,
    number: Option<i128>,
) -> Result<(), Reason>
    requires offset { nat_abs c0.now ≤ 2 ^ 32 }
    requires factor { nat_abs c1.now ≤ 2 ^ 32 }
    requires number { IfSome number (λ n. nat_abs n ≤ 2 ^ 64) }
    ensures told { OnOk result (IfSome number (λ n. walked.new.octets ≡ Some (c0.now +ℤ (c1.now *ℤ n)))) }
    ensures few { OnOk result (IfSome walked.new.octets (λ n. nat_abs n ≤ 2 ^ 97)) }
    ensures some { OnOk result (IsSome number) }
    ensures start { walked.new.start ≡ walked.old.start }
    ensures none { IfErr result (λ r. (number ≡ None) × (r ≡ Short)) }
{
    let offset = *c0;
    let factor = *c1;
    match number {
        Some(number) => {
            walked.octets = Some(told_octets(offset, factor, number));
            Ok(())
        }
        None => Err(Reason::Short),
    }
}

/// Whether the number of an error control is a sum.
fn is_sum(number: Option<i128>, sum: u64) -> bool
    ensures { result ≡ number_is number (pos sum) }
{
    match number {
        Some(number) => number == i128::from(sum),
        None => false,
    }
}

/// Passes over a part of a container that is no tail, and notes what is asked for of it.
#[cycle(walk)]
fn walk_part(
    walk: &Walk<'_>,
    container: TypeId,
    place: u16,
    part: &Part,
    walked: &mut Walked<'_>,
    numbers: &mut [Option<i128>],
    path: &mut Path,
    reader: &mut BitReader,
) -> Result<(), Reason>
    requires notes { walk.now.notes.now ≡ each_once (asked walk.now.table.now) }
    requires room { length walk.now.notes.now ≤ length numbers.old }
    requires low { IsLow walk.now.table.now (walk.now.depth + 1) container.0 }
    requires inner { PartIsRead walk.now.table.now walk.now.depth part.now }
    requires stands { Stands walk.now.table.now (placed container.0 place part.now) }
    requires few { walk.now.depth < 32 }
    requires begun { IsWalking walked.old (bits_left reader.old) }
    requires short { length (bits_left walked.old.start) ≤ 524288 }
    requires root { path.old ≡ [] }
    ensures passed { OnOk result ((done : List Placed) (s : Progress) → IsAt walk.now.table.now walk.now.notes.now container.0 walked.old numbers.old (bits_left reader.old) done s → value_at s.fields container.0 place ≡ None → IsTold s.fields part.now → Goes walk.now.table.now walk.now.notes.now container.0 walked.new numbers.new (bits_left reader.new) (done ++ placed container.0 place part.now ∷ []) (part_read walk.now.table.now (read_within walk.now.depth walk.now.table.now) s (placed container.0 place part.now) part.now (bits_left reader.old))) }
    ensures fault { IfErr result (λ r. (done : List Placed) (s : Progress) → IsAt walk.now.table.now walk.now.notes.now container.0 walked.old numbers.old (bits_left reader.old) done s → value_at s.fields container.0 place ≡ None → IsTold s.fields part.now → part_read walk.now.table.now (read_within walk.now.depth walk.now.table.now) s (placed container.0 place part.now) part.now (bits_left reader.old) ≡ Err (fault_at r path.new)) }
    ensures begun { OnOk result (IsWalking walked.new (bits_left reader.new)) }
    ensures start { walked.new.start ≡ walked.old.start }
    ensures outer { KeepsOuter walk.now.table.now walk.now.notes.now container.0 numbers.old numbers.new }
    ensures near { length path.new ≤ 2 * walk.now.depth + 1 }
    ensures calm { OnOk result (path.new ≡ []) }
    ensures reason { IfErr result IsOfReading }
{
    match part {
        Part::Plain(_, id) => {
            let seen = walk_value(walk, *id, numbers, path, reader)?;
            note_field(walk.notes, numbers, container, place, seen.number);
            Ok(())
        }
        Part::Fixed(_, id, fixed) => {
            walk.table.keeps_rules();
            skim_fixed(walk.table.row(*id), fixed, reader)
        }
        Part::Pad(bits) => skim_padding(*bits, reader),
        Part::List(_, id, teller, told) => {
            let count = count_noted(walk.notes, numbers, *teller, *told);
            walk_items(walk, *id, count, numbers, path, reader)
        }
        Part::Length(_, id, c0, c1) => {
            let seen = walk_value(walk, *id, numbers, path, reader)?;
            keep_octets(walked, c0, c1, seen.number)
        }
        Part::Check(_, id, check) => {
            let sum = sum_of(*check, &walked.start, reader);
            let seen = walk_value(walk, *id, numbers, path, reader)?;
            if is_sum(seen.number, sum) {
                Ok(())
            } else {
                Err(Reason::CheckDiffers)
            }
        }
    }
}

/// Passes over a tail of at most so many bits, the part at a place of a container: it has the size that the length entry
/// leaves it.
fn walk_tail(
    walk: &Walk<'_>,
    most: u32,
    container: TypeId,
    place: u16,
    walked: &mut Walked<'_>,
    numbers: &mut [Option<i128>],
    path: &mut Path,
    reader: &mut BitReader,
) -> Result<(), Reason>
    requires room { length walk.now.notes.now ≤ length numbers.old }
    requires begun { IsWalking walked.old (bits_left reader.old) }
    requires root { path.old ≡ [] }
    ensures passed { OnOk result ((p : Piece) (s : Progress) → s.before ≡ front (bits_left walked.old.start) (bits_left reader.old) → s.octets ≡ walked.old.octets → (j : ℕ) × (o : List ℕ) × (tail_read walk.now.table.now (tail_room walk.now.table.now most s (placed container.0 place p)) s (placed container.0 place p) (bits_left reader.old) ≡ Ok (with_value s (placed container.0 place p) (binary j o) (front (bits_left reader.old) (bits_left reader.new)), bits_left reader.new))) }
    ensures on { OnOk result (MovesOn (bits_left reader.old) (bits_left reader.new)) }
    ensures fault { IfErr result (λ r. (p : Piece) (s : Progress) → s.before ≡ front (bits_left walked.old.start) (bits_left reader.old) → s.octets ≡ walked.old.octets → tail_read walk.now.table.now (tail_room walk.now.table.now most s (placed container.0 place p)) s (placed container.0 place p) (bits_left reader.old) ≡ Err (fault_at r path.new)) }
    ensures same { walked.new ≡ walked.old }
    ensures noted { OnOk result (IsNotedField walk.now.notes.now container.0 place None numbers.old numbers.new) }
    ensures still { IfErr result (λ r. numbers.new ≡ numbers.old) }
    ensures near { length path.new ≤ 1 }
    ensures calm { OnOk result (path.new ≡ []) }
    ensures reason { IfErr result IsOfReading }
{
    let before = bits_between(&walked.start, reader);
    let told = walked.octets;
    match tail_octets_left(walk.table, walk.segments, most, container, told, before) {
        Some(octets) => match skim_octets(8 * octets, reader) {
            Ok(()) => {
                note_field(walk.notes, numbers, container, place, None);
                Ok(())
            }
            Err(reason) => {
                path.put_first(Step::Part(container, place));
                Err(reason)
            }
        },
        None => {
            tell_length(walk.table, container, path);
            Err(Reason::LengthDiffers)
        }
    }
}

/// Passes over the part at a place of a container, a tail among them.
#[cycle(walk)]
fn walk_entry(
    walk: &Walk<'_>,
    container: TypeId,
    place: u16,
    part: &Part,
    walked: &mut Walked<'_>,
    numbers: &mut [Option<i128>],
    path: &mut Path,
    reader: &mut BitReader,
) -> Result<(), Reason>
    requires notes { walk.now.notes.now ≡ each_once (asked walk.now.table.now) }
    requires room { length walk.now.notes.now ≤ length numbers.old }
    requires low { IsLow walk.now.table.now (walk.now.depth + 1) container.0 }
    requires inner { PartIsRead walk.now.table.now walk.now.depth part.now }
    requires stands { Stands walk.now.table.now (placed container.0 place part.now) }
    requires few { walk.now.depth < 32 }
    requires begun { IsWalking walked.old (bits_left reader.old) }
    requires short { length (bits_left walked.old.start) ≤ 524288 }
    requires root { path.old ≡ [] }
    ensures passed { OnOk result ((done : List Placed) (s : Progress) → IsAt walk.now.table.now walk.now.notes.now container.0 walked.old numbers.old (bits_left reader.old) done s → value_at s.fields container.0 place ≡ None → IsTold s.fields part.now → Goes walk.now.table.now walk.now.notes.now container.0 walked.new numbers.new (bits_left reader.new) (done ++ placed container.0 place part.now ∷ []) (entry_read walk.now.table.now (read_within walk.now.depth walk.now.table.now) s (placed container.0 place part.now) (bits_left reader.old))) }
    ensures fault { IfErr result (λ r. (done : List Placed) (s : Progress) → IsAt walk.now.table.now walk.now.notes.now container.0 walked.old numbers.old (bits_left reader.old) done s → value_at s.fields container.0 place ≡ None → IsTold s.fields part.now → entry_read walk.now.table.now (read_within walk.now.depth walk.now.table.now) s (placed container.0 place part.now) (bits_left reader.old) ≡ Err (fault_at r path.new)) }
    ensures begun { OnOk result (IsWalking walked.new (bits_left reader.new)) }
    ensures start { walked.new.start ≡ walked.old.start }
    ensures outer { KeepsOuter walk.now.table.now walk.now.notes.now container.0 numbers.old numbers.new }
    ensures near { length path.new ≤ 2 * walk.now.depth + 2 }
    ensures calm { OnOk result (path.new ≡ []) }
    ensures reason { IfErr result IsOfReading }
{
    if let Some(most) = open_bits(walk.table, part) {
        return walk_tail(walk, most, container, place, walked, numbers, path, reader);
    }
    match walk_part(walk, container, place, part, walked, numbers, path, reader) {
        Ok(()) => Ok(()),
        Err(reason) => {
            path.put_first(Step::Part(container, place));
            Err(reason)
        }
    }
}

/// Passes over parts of a container, of which the first stands at a given place.
#[cycle(walk)]
#[tactic(auto, unfolding(eds_types::specs::Reading::read_parts))]
fn walk_parts(
    walk: &Walk<'_>,
    container: TypeId,
    first: u16,
    parts: &[Part],
    walked: &mut Walked<'_>,
    numbers: &mut [Option<i128>],
    path: &mut Path,
    reader: &mut BitReader,
) -> Result<(), Reason>
    requires notes { walk.now.notes.now ≡ each_once (asked walk.now.table.now) }
    requires room { length walk.now.notes.now ≤ length numbers.old }
    requires low { IsLow walk.now.table.now (walk.now.depth + 1) container.0 }
    requires inner { AllByRecursion (PartIsRead walk.now.table.now walk.now.depth) parts.now }
    requires stands { AllByRecursion (Stands walk.now.table.now) (placed_from container.0 first parts.now) }
    requires many { first + length parts.now ≤ 65534 }
    requires few { walk.now.depth < 32 }
    requires begun { IsWalking walked.old (bits_left reader.old) }
    requires short { length (bits_left walked.old.start) ≤ 524288 }
    requires root { path.old ≡ [] }
    ensures passed { OnOk result ((done : List Placed) (s : Progress) → IsAt walk.now.table.now walk.now.notes.now container.0 walked.old numbers.old (bits_left reader.old) done s → IsFront walk.now.table.now (done ++ placed_from container.0 first parts.now) → Goes walk.now.table.now walk.now.notes.now container.0 walked.new numbers.new (bits_left reader.new) (done ++ placed_from container.0 first parts.now) (parts_read walk.now.table.now (read_within walk.now.depth walk.now.table.now) (placed_from container.0 first parts.now) s (bits_left reader.old))) }
    ensures fault { IfErr result (λ r. (done : List Placed) (s : Progress) → IsAt walk.now.table.now walk.now.notes.now container.0 walked.old numbers.old (bits_left reader.old) done s → IsFront walk.now.table.now (done ++ placed_from container.0 first parts.now) → parts_read walk.now.table.now (read_within walk.now.depth walk.now.table.now) (placed_from container.0 first parts.now) s (bits_left reader.old) ≡ Err (fault_at r path.new)) }
    ensures begun { OnOk result (IsWalking walked.new (bits_left reader.new)) }
    ensures start { walked.new.start ≡ walked.old.start }
    ensures outer { KeepsOuter walk.now.table.now walk.now.notes.now container.0 numbers.old numbers.new }
    ensures near { length path.new ≤ 2 * walk.now.depth + 2 }
    ensures calm { OnOk result (path.new ≡ []) }
    ensures reason { IfErr result IsOfReading }
{
    let mut place = first;
    for part in parts {
        walk_entry(walk, container, place, part, walked, numbers, path, reader)?;
        place += 1;
    }
    Ok(())
}

/// Passes over the entries of a chain of containers, each behind its container's constraints, from the first bit on.
#[cycle(walk)]
#[tactic(auto, unfolding(eds_types::specs::Reading::read_chain))]
fn walk_chain(
    walk: &Walk<'_>,
    id: TypeId,
    chain: &[TypeId],
    walked: &mut Walked<'_>,
    numbers: &mut [Option<i128>],
    path: &mut Path,
    reader: &mut BitReader,
) -> Result<(), Reason>
    requires notes { walk.now.notes.now ≡ each_once (asked walk.now.table.now) }
    requires room { length walk.now.notes.now ≤ length numbers.old }
    requires low { IsLow walk.now.table.now (walk.now.depth + 1) id.0 }
    requires chain { numbers_of chain.now ≡ chain_of walk.now.table.now id.0 }
    requires few { walk.now.depth < 32 }
    requires first { bits_left walked.old.start ≡ bits_left reader.old }
    requires told { walked.old.octets ≡ None }
    requires short { length (bits_left walked.old.start) ≤ 524288 }
    requires root { path.old ≡ [] }
    ensures passed { OnOk result (Goes walk.now.table.now walk.now.notes.now id.0 walked.new numbers.new (bits_left reader.new) (flat_map (placed_entries walk.now.table.now) (chain_of walk.now.table.now id.0)) (chain_read walk.now.table.now (read_within walk.now.depth walk.now.table.now) (chain_of walk.now.table.now id.0) started (bits_left reader.old))) }
    ensures fault { IfErr result (λ r. chain_read walk.now.table.now (read_within walk.now.depth walk.now.table.now) (chain_of walk.now.table.now id.0) started (bits_left reader.old) ≡ Err (fault_at r path.new)) }
    ensures begun { OnOk result (IsWalking walked.new (bits_left reader.new)) }
    ensures start { walked.new.start ≡ walked.old.start }
    ensures outer { KeepsOuter walk.now.table.now walk.now.notes.now id.0 numbers.old numbers.new }
    ensures near { length path.new ≤ 2 * walk.now.depth + 2 }
    ensures calm { OnOk result (path.new ≡ []) }
    ensures reason { IfErr result IsOfReading }
{
    let table = walk.table;
    table.keeps_rules();
    for one in chain {
        check_noted(walk.notes, numbers, table.constraints_of(*one), path)?;
        let entries = table.entries_of(*one);
        walk_parts(walk, *one, 0, entries, walked, numbers, path, reader)?;
    }
    Ok(())
}

/// Passes over the trailers of a chain of containers, from the last container up.
#[cycle(walk)]
fn walk_trailers(
    walk: &Walk<'_>,
    id: TypeId,
    chain: &[TypeId],
    walked: &mut Walked<'_>,
    numbers: &mut [Option<i128>],
    path: &mut Path,
    reader: &mut BitReader,
) -> Result<(), Reason>
    requires notes { walk.now.notes.now ≡ each_once (asked walk.now.table.now) }
    requires room { length walk.now.notes.now ≤ length numbers.old }
    requires low { IsLow walk.now.table.now (walk.now.depth + 1) id.0 }
    requires chain { numbers_of chain.now ≡ chain_of walk.now.table.now id.0 }
    requires few { walk.now.depth < 32 }
    requires begun { IsWalking walked.old (bits_left reader.old) }
    requires short { length (bits_left walked.old.start) ≤ 524288 }
    requires root { path.old ≡ [] }
    ensures passed { OnOk result ((done : List Placed) (s : Progress) → IsAt walk.now.table.now walk.now.notes.now id.0 walked.old numbers.old (bits_left reader.old) done s → IsFront walk.now.table.now (done ++ flat_map (placed_trailers walk.now.table.now) (reverse (chain_of walk.now.table.now id.0))) → Goes walk.now.table.now walk.now.notes.now id.0 walked.new numbers.new (bits_left reader.new) (done ++ flat_map (placed_trailers walk.now.table.now) (reverse (chain_of walk.now.table.now id.0))) (parts_read walk.now.table.now (read_within walk.now.depth walk.now.table.now) (flat_map (placed_trailers walk.now.table.now) (reverse (chain_of walk.now.table.now id.0))) s (bits_left reader.old))) }
    ensures fault { IfErr result (λ r. (done : List Placed) (s : Progress) → IsAt walk.now.table.now walk.now.notes.now id.0 walked.old numbers.old (bits_left reader.old) done s → IsFront walk.now.table.now (done ++ flat_map (placed_trailers walk.now.table.now) (reverse (chain_of walk.now.table.now id.0))) → parts_read walk.now.table.now (read_within walk.now.depth walk.now.table.now) (flat_map (placed_trailers walk.now.table.now) (reverse (chain_of walk.now.table.now id.0))) s (bits_left reader.old) ≡ Err (fault_at r path.new)) }
    ensures begun { OnOk result (IsWalking walked.new (bits_left reader.new)) }
    ensures start { walked.new.start ≡ walked.old.start }
    ensures outer { KeepsOuter walk.now.table.now walk.now.notes.now id.0 numbers.old numbers.new }
    ensures near { length path.new ≤ 2 * walk.now.depth + 2 }
    ensures calm { OnOk result (path.new ≡ []) }
    ensures reason { IfErr result IsOfReading }
{
    let table = walk.table;
    table.keeps_rules();
    let mut rest = chain;
    while let [front @ .., one] = rest {
        let first = table.entries_of(*one).len() as u16;
        let trailers = table.trailers_of(*one);
        walk_parts(walk, *one, first, trailers, walked, numbers, path, reader)?;
        rest = front;
    }
    Ok(())
}

/// Passes over what follows the entries of a container and its bases: those of the containers that are chosen under it, and
/// the trailers. Says which container it is.
#[cycle(walk)]
#[tactic(auto, unfolding(eds_types::specs::Reading::read_under))]
fn walk_under(
    walk: &Walk<'_>,
    id: TypeId,
    walked: &mut Walked<'_>,
    numbers: &mut [Option<i128>],
    path: &mut Path,
    reader: &mut BitReader,
) -> Result<TypeId, Reason>
    requires notes { walk.now.notes.now ≡ each_once (asked walk.now.table.now) }
    requires room { length walk.now.notes.now ≤ length numbers.old }
    requires low { IsLow walk.now.table.now (walk.now.depth + 1) id.0 }
    requires few { walk.now.depth < 32 }
    requires begun { IsWalking walked.old (bits_left reader.old) }
    requires short { length (bits_left walked.old.start) ≤ 524288 }
    requires at { (s : Progress) × IsAt walk.now.table.now walk.now.notes.now id.0 walked.old numbers.old (bits_left reader.old) (flat_map (placed_entries walk.now.table.now) (chain_of walk.now.table.now id.0)) s }
    requires root { path.old ≡ [] }
    ensures passed { IfOk result (λ x. (s : Progress) → IsAt walk.now.table.now walk.now.notes.now id.0 walked.old numbers.old (bits_left reader.old) (flat_map (placed_entries walk.now.table.now) (chain_of walk.now.table.now id.0)) s → Ended walk.now.table.now walk.now.notes.now id.0 walked.new numbers.new (bits_left reader.new) (under_read walk.now.table.now (read_within walk.now.depth walk.now.table.now) 16 id.0 s (bits_left reader.old)) x) }
    ensures fault { IfErr result (λ r. (s : Progress) → IsAt walk.now.table.now walk.now.notes.now id.0 walked.old numbers.old (bits_left reader.old) (flat_map (placed_entries walk.now.table.now) (chain_of walk.now.table.now id.0)) s → under_read walk.now.table.now (read_within walk.now.depth walk.now.table.now) 16 id.0 s (bits_left reader.old) ≡ Err (fault_at r path.new)) }
    ensures outer { KeepsOuter walk.now.table.now walk.now.notes.now id.0 numbers.old numbers.new }
    ensures near { length path.new ≤ 2 * walk.now.depth + 2 }
    ensures calm { OnOk result (path.new ≡ []) }
    ensures reason { IfErr result IsOfReading }
{
    let table = walk.table;
    table.keeps_rules();
    let mut at = id;
    for _ in 0..CHAIN {
        match next_noted(table, walk.segments, walk.notes, numbers, at) {
            Next::Stay => {
                let chain = table.chain_of(at);
                let chain = chain.as_slice();
                walk_trailers(walk, at, chain, walked, numbers, path, reader)?;
                if is_told_size(walked.octets, &walked.start, reader) {
                    return Ok(at);
                }
                tell_length(table, at, path);
                return Err(Reason::LengthDiffers);
            }
            Next::Nowhere => break,
            Next::Under(child) => {
                let entries = table.entries_of(child);
                walk_parts(walk, child, 0, entries, walked, numbers, path, reader)?;
                at = child;
            }
        }
    }
    path.put_first(Step::Choice(at));
    Err(Reason::NoDerived)
}

/// Passes over the fields of a container.
#[cycle(walk)]
fn walk_container(
    walk: &Walk<'_>,
    id: TypeId,
    numbers: &mut [Option<i128>],
    path: &mut Path,
    reader: &mut BitReader,
) -> Result<Seen, Reason>
    requires notes { walk.now.notes.now ≡ each_once (asked walk.now.table.now) }
    requires room { length walk.now.notes.now ≤ length numbers.old }
    requires low { IsLow walk.now.table.now (walk.now.depth + 1) id.0 }
    requires few { walk.now.depth < 32 }
    requires short { length (bits_left reader.old) ≤ 524288 }
    requires root { path.old ≡ [] }
    ensures passed { IfOk result (IsPassed walk.now.table.now walk.now.notes.now id.0 numbers.new (ended walk.now.table.now (read_within walk.now.depth walk.now.table.now) (read_to_end walk.now.table.now (read_within walk.now.depth walk.now.table.now) id.0 (bits_left reader.old))) (bits_left reader.new)) }
    ensures fault { IfErr result (λ r. ended walk.now.table.now (read_within walk.now.depth walk.now.table.now) (read_to_end walk.now.table.now (read_within walk.now.depth walk.now.table.now) id.0 (bits_left reader.old)) ≡ Err (fault_at r path.new)) }
    ensures outer { KeepsOuter walk.now.table.now walk.now.notes.now id.0 numbers.old numbers.new }
    ensures near { length path.new ≤ 2 * walk.now.depth + 2 }
    ensures calm { OnOk result (path.new ≡ []) }
    ensures reason { IfErr result IsOfReading }
{
    let mut walked = Walked {
        octets: None,
        start: *reader,
    };
    let chain = walk.table.chain_of(id);
    let chain = chain.as_slice();
    walk_chain(walk, id, chain, &mut walked, numbers, path, reader)?;
    let found = walk_under(walk, id, &mut walked, numbers, path, reader)?;
    Ok(Seen {
        found,
        number: Some(i128::from(found.0)),
    })
}
