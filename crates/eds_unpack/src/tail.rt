//! Open binaries at the ends of containers.

ghost use Rattle.std.specs.Prelude.{◌≡◌, ◌+◌, ◌≤◌, ◌^◌, ◌*◌, [], ℕ, length, unwrap_or, reverse, pos, nat_abs, IfErr, IfOk, IfSome, OnOk};
ghost use Rattle.eds_bits.specs.Reader.{bits_left};
ghost use Rattle.eds_types.specs.Failing.{length_path};
ghost use Rattle.eds_types.specs.Reading.{octets_left, tail_octets, tail_room, read_tail as tail_read};
ghost use Rattle.eds_types.specs.declared.row.Part.{Part as Piece};
ghost use Rattle.eds_types.specs.Spelling.{Progress};
ghost use Rattle.eds_types.specs.Sizes.{open_by, tail_of, size_within, kind_size, part_size, trailers_size};
ghost use Rattle.eds_unpack.specs.Courses.{IsUnderWay, progress_of};
ghost use Rattle.eds_unpack.specs.Entries.{placed};
ghost use Rattle.eds_unpack.specs.Readers.{Gives, with_path, StopsReading};
ghost use Rattle.eds_unpack.specs.Tails.{AreBehind, limit, limited, limited_size, sizes_of, trailers_sizes};

use crate::octets::read_octets;
use crate::progress::{Reached, bits_before, keep_field};
use crate::seek::length_step;
use crate::segments::Segments;
use eds_base::{Fail, Memory, Path, Reason, Step, TypeId};
use eds_bits::BitReader;
use eds_types::{Kind, Part, TypeTable, row_of};
use std::alloc::Global;

/// How deep types are nested at most.
const NESTING: u32 = 32;

/// More bits than any length entry tells octets for.
const LIMIT: u128 = 1 << 101;

fn open_by(kind: &Kind) -> Option<u32>
    ensures { result ≡ open_by kind.now }
{
    match kind {
        Kind::Bin(bits, open) => { if *open { Some(*bits) } else { None } }
        _ => None,
    }
}

/// The most bits of a part whose type is an open binary; None of any other part.
pub(crate) fn open_bits(table: &TypeTable, part: &Part) -> Option<u32>
    ensures { result ≡ tail_of table.now part.now }
{
    match part {
        Part::Plain(_, id) => open_by(&row_of(table.rows(), *id)?.kind),
        _ => None,
    }
}

/// Puts the step to the length entry of a container into a path, if it has one.
pub(crate) fn tell_length(table: &TypeTable, id: TypeId, path: &mut Path)
    requires root { path.old ≡ [] }
    ensures value { path.new ≡ length_path table.now id.0 }
    ensures near { length path.new ≤ 1 }
{
    match length_step(table, id) {
        Some(step) => path.put_first(step),
        None => {}
    }
}

fn limited(bits: u128) -> u128
    ensures { result ≡ limited bits }
{
    bits.min(LIMIT)
}

/// The size of a type in bits, 0 where it has none, where at most `depth` types are nested in each other.
#[cycle(size)]
#[tactic(auto, unfolding(eds_types::specs::Sizes::size_within))]
fn type_size(table: &TypeTable, depth: u32, id: TypeId) -> u128
    ensures { result ≡ limited_size (size_within depth table.now id.0) }
{
    if depth == 0 {
        return 0;
    }
    match row_of(table.rows(), id) {
        Some(row) => limited(kind_size(table, depth - 1, &row.kind)),
        None => 0,
    }
}

#[cycle(size)]
fn kind_size(table: &TypeTable, depth: u32, kind: &Kind) -> u128
    ensures { limited result ≡ limited_size (kind_size (size_within depth table.now) kind.now) }
{
    match kind {
        Kind::Int(form, _) => u128::from(form.bits),
        Kind::Enum(form, _) => u128::from(form.bits),
        Kind::Bool(form) => u128::from(form.bits),
        Kind::Str(form) if form.fixed => 8 * u128::from(form.length),
        Kind::Bin(bits, false) => u128::from(*bits),
        Kind::Arr(item, count) => u128::from(*count).saturating_mul(type_size(table, depth, *item)),
        _ => 0,
    }
}

fn part_size(table: &TypeTable, part: &Part) -> u128
    ensures { result ≡ limited_size (part_size table.now part.now) }
{
    match part {
        Part::Plain(_, id) => type_size(table, NESTING, *id),
        Part::Fixed(_, id, _) => type_size(table, NESTING, *id),
        Part::Pad(bits) => u128::from(*bits),
        Part::List(_, _, _, _) => 0,
        Part::Length(_, id, _, _) => type_size(table, NESTING, *id),
        Part::Check(_, id, _) => type_size(table, NESTING, *id),
    }
}

/// The size of parts in bits behind so many.
fn parts_size(table: &TypeTable, parts: &[Part], before: u128) -> u128
    requires { before ≤ limit }
    ensures { result ≡ limited (before + sizes_of table.now parts.now) }
{
    let mut size = before;
    for part in parts {
        size = limited(size + part_size(table, part));
    }
    size
}

/// The size of the trailers of a chain of containers in bits.
fn trailers_size(table: &TypeTable, chain: &[TypeId]) -> u128
    requires few { length chain.now ≤ 16 }
    ensures { result ≡ limited (trailers_sizes table.now (reverse chain.now)) }
{
    let mut size = 0;
    let mut rest = chain;
    while let [front @ .., id] = rest {
        size = parts_size(table, table.trailers_of(*id), size);
        rest = front;
    }
    size
}

/// The size of the trailers of a container's chain in bits.
pub(crate) fn trailers_along(table: &TypeTable, id: TypeId) -> u128
    ensures { result ≡ limited (trailers_size table.now id.0) }
{
    let chain = table.chain_of(id);
    trailers_size(table, chain.as_slice())
}

/// The size of the trailers behind a container's tail, if its entries end with one.
fn trailers_behind(table: &TypeTable, id: TypeId) -> Option<u128>
    ensures { IfSome result (λ size. size ≡ limited (trailers_size table.now id.0)) }
{
    let last = table.entries_of(id).last()?;
    open_bits(table, last)?;
    Some(trailers_along(table, id))
}

/// The size of the trailers behind the tail of each container of a table, at its number, if its entries end with one.
pub(crate) fn trailers_of_all(alloc: Global, table: &TypeTable) -> Result<Vec<Option<u128>>, Memory>
    ensures { IfOk result (λ each. AreBehind table.now each.items) }
{
    let mut each = Vec::with_capacity(alloc, table.len() as usize)?;
    for number in 0..table.len() {
        each.push(trailers_behind(table, TypeId(number)))?;
    }
    Ok(each)
}

/// How many octets a tail of at most so many bits has, where the length entry tells octets, and the other parts have some.
fn tail_octets(most: u32, told: Option<i128>, others: u128) -> Option<u32>
    requires told { IfSome told (λ n. nat_abs n ≤ 2 ^ 97) }
    requires others { others ≤ 2 ^ 100 }
    ensures value { result ≡ tail_octets most (octets_left (unwrap_or told (pos 0)) others) }
    ensures few { IfSome result (λ j. 8 * j ≤ most) }
{
    let told = match told {
        Some(told) => told,
        None => 0,
    };
    if told < 0 {
        return None;
    }
    let told = told as u128;
    if told < others {
        return None;
    }
    let octets = told - others;
    if u128::from(most) < 8 * octets {
        None
    } else {
        Some(octets as u32)
    }
}

/// How many octets the tail of at most so many bits has that stands in a container behind so many bits, where the length
/// entry told octets; None where it told another number than any tail would make.
pub(crate) fn tail_octets_left(
    table: &TypeTable,
    segments: &Segments<'_>,
    most: u32,
    container: TypeId,
    told: Option<i128>,
    before: u64,
) -> Option<u32>
    requires same { segments.now ≡ table.now }
    requires told { IfSome told (λ n. nat_abs n ≤ 2 ^ 97) }
    ensures value { (s : Progress) (i : ℕ) (p : Piece) → s.octets ≡ told → length s.before ≡ before → result ≡ tail_room table.now most s (placed container.0 i p) }
    ensures few { IfSome result (λ j. 8 * j ≤ most) }
{
    let trailers = segments.trailers_along(container);
    tail_octets(most, told, (u128::from(before) + trailers).div_ceil(8))
}

/// How many octets the tail of at most so many bits has that stands next in a container, None where the length entry
/// tells another number than any tail would make.
fn tail_room(
    table: &TypeTable,
    segments: &Segments<'_>,
    most: u32,
    container: TypeId,
    reached: &Reached<'_>,
    reader: &BitReader<'_>,
) -> Option<u32>
    requires same { segments.now ≡ table.now }
    requires begun { IsUnderWay reached.now (bits_left reader.now) }
    ensures value { (i : ℕ) (p : Piece) → result ≡ tail_room table.now most (progress_of reached.now (bits_left reader.now)) (placed container.0 i p) }
    ensures few { IfSome result (λ j. 8 * j ≤ most) }
{
    let before = bits_before(reached, reader);
    tail_octets_left(table, segments, most, container, reached.octets, before)
}

/// Reads a tail of at most so many bits, the part at a place of a container: it has the size that the length entry leaves
/// it.
pub(crate) fn read_tail(
    alloc: Global,
    table: &TypeTable,
    segments: &Segments<'_>,
    most: u32,
    container: TypeId,
    place: u16,
    reached: &mut Reached<'_>,
    path: &mut Path,
    reader: &mut BitReader,
) -> Result<(), Fail<Reason>>
    requires same { segments.now ≡ table.now }
    requires begun { IsUnderWay reached.old (bits_left reader.old) }
    requires root { path.old ≡ [] }
    ensures gives { (p : Piece) → Gives (λ u. (progress_of reached.new (bits_left reader.new), bits_left reader.new)) (with_path path.new result) (tail_read table.now (tail_room table.now most (progress_of reached.old (bits_left reader.old)) (placed container.0 place p)) (progress_of reached.old (bits_left reader.old)) (placed container.0 place p) (bits_left reader.old)) }
    ensures begun { OnOk result (IsUnderWay reached.new (bits_left reader.new)) }
    ensures near { length path.new ≤ 1 }
    ensures calm { OnOk result (path.new ≡ []) }
    ensures reason { IfErr result StopsReading }
{
    match tail_room(table, segments, most, container, reached, reader) {
        Some(octets) => match read_octets(alloc, 8 * octets, reader) {
            Ok(value) => Ok(keep_field(reached, container, place, value)?),
            Err(stop) => {
                path.put_first(Step::Part(container, place));
                Err(stop)
            }
        },
        None => {
            tell_length(table, container, path);
            Err(Fail::Named(Reason::LengthDiffers))
        }
    }
}
