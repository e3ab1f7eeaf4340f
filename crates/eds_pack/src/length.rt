//! Length entries: where a container has one, and the number that tells its octets.

ghost use Rattle.std.specs.Prelude.{◌≡◌, ◌≤◌, ◌<◌, ◌+◌, ◌^◌, ℕ, ℤ, pos, [], Ok, Err, Some, None, cond, length, reverse, is_ok, ◌+ℤ◌, ◌*ℤ◌, OnOk};
ghost use Rattle.std.specs.List.{list_all};
ghost use Rattle.std.specs.Ordering.{int_eq};
ghost use Rattle.eds_bits.specs.Bits.{octets_for};
ghost use Rattle.eds_pack.specs.Counting.{found};
ghost use Rattle.eds_types.specs.Seeking.{entries_in_turn, trailers_in_turn};
ghost use Rattle.eds_pack.specs.Lengths.{length_among, tells_octets};
ghost use Rattle.eds_pack.specs.Nesting.{IsLow};
ghost use Rattle.eds_types.specs.Failing.{length_path};
ghost use Rattle.eds_types.specs.Packing.{pack_fault_at};
ghost use Rattle.eds_types.specs.declared.reason.PackReason.TheVariants.{LengthField};
ghost use Rattle.eds_types.specs.PackedSizes.{length_fits, packed_size_within, told_by};
ghost use Rattle.eds_types.specs.Plain.{num};
ghost use Rattle.eds_types.specs.Rows.{Placed, placed_from, sequence};
ghost use Rattle.eds_types.specs.Rules.{IsScale};

use crate::fields::Fields;
use crate::tally::Tally;
use eds_base::{Path, Step, TypeId};
use eds_types::{Kind, PackReason, Part, TypeTable};

/// A length entry: the container that has it, its place there, its type, and its coefficients. With the number r it tells
/// c0 + c1 * r octets.
#[derive(Clone, Copy)]
pub(crate) struct LengthEntry {
    pub container: TypeId,
    pub place: u16,
    pub id: TypeId,
    pub c0: i64,
    pub c1: i64,
}

/// The first length entry among parts of the container `id`, the first of which has a given place.
fn length_among(parts: &[Part], id: TypeId, first: u16) -> Option<LengthEntry>
    requires few { first + length parts.now < 2 ^ 16 }
    ensures { result ≡ length_among (placed_from id.0 first parts.now) }
{
    let mut place = first;
    for part in parts {
        if let Part::Length(_, length, c0, c1) = part {
            return Some(LengthEntry {
                container: id,
                place,
                id: *length,
                c0: *c0,
                c1: *c1,
            });
        }
        place += 1;
    }
    None
}

fn length_in_entries(table: &TypeTable, chain: &[TypeId]) -> Option<LengthEntry>
    ensures { result ≡ length_among (entries_in_turn table.now chain.now) }
{
    for id in chain {
        match length_among(table.entries_of(*id), *id, 0) {
            Some(entry) => return Some(entry),
            None => {}
        }
    }
    None
}

fn length_in_trailers(table: &TypeTable, chain: &[TypeId]) -> Option<LengthEntry>
    requires few { length chain.now ≤ 16 }
    ensures { result ≡ length_among (trailers_in_turn table.now (reverse chain.now)) }
{
    let mut rest = chain;
    while let [front @ .., id] = rest {
        let first = table.entries_of(*id).len() as u16;
        match length_among(table.trailers_of(*id), *id, first) {
            Some(entry) => return Some(entry),
            None => {}
        }
        rest = front;
    }
    None
}

/// The length entry of a container, None where it has none.
fn length_entry(table: &TypeTable, id: TypeId) -> Option<LengthEntry>
    ensures { result ≡ length_among (sequence table.now id.0) }
{
    let chain = table.chain_of(id);
    match length_in_entries(table, chain.as_slice()) {
        Some(entry) => Some(entry),
        None => length_in_trailers(table, chain.as_slice()),
    }
}

/// The number with which a length entry tells so many octets, None where there is none.
pub(crate) fn number_telling(c0: i64, c1: i64, octets: u128) -> Option<i128>
    requires scale { IsScale c0 c1 }
    requires few { octets ≤ 2 ^ 100 }
    ensures { result ≡ cond (int_eq (c0 +ℤ (c1 *ℤ told_by c0 c1 octets)) (pos octets)) (Some (told_by c0 c1 octets)) None }
{
    let told = octets as i128;
    let offset = i128::from(c0);
    let factor = i128::from(c1);
    let number = (told - offset) / factor;
    if offset + factor * number == told {
        Some(number)
    } else {
        None
    }
}

/// Whether an integer type has a number.
fn has_number(table: &TypeTable, id: TypeId, number: i128) -> bool
    requires known { id.0 < length table.now }
    ensures { (n : ℕ) → 1 ≤ n → result ≡ is_ok (packed_size_within n table.now id.0 (num number)) }
{
    match &table.row(id).kind {
        Kind::Int(_, spans) => spans.holds(number),
        _ => false,
    }
}

/// Whether a number of a length entry's type tells so many octets.
fn can_tell(table: &TypeTable, entry: LengthEntry, octets: u128) -> bool
    requires known { entry.id.0 < length table.now }
    requires scale { IsScale entry.c0 entry.c1 }
    requires few { octets ≤ 2 ^ 100 }
    ensures { (n : ℕ) → 1 ≤ n → result ≡ tells_octets (packed_size_within n table.now) octets entry }
{
    match number_telling(entry.c0, entry.c1, octets) {
        Some(number) => has_number(table, entry.id, number),
        None => false,
    }
}

/// The length entry of the fields' container, if it has one, can tell the octets of so many bits, or its path is told.
pub(crate) fn check_length(
    fields: &Fields<'_>,
    size: &Tally,
    path: &mut Path,
) -> Result<(), PackReason>
    requires low { IsLow fields.now.table.now (fields.now.depth + 1) fields.now.own.0 }
    requires root { path.old ≡ [] }
    ensures adds { found result 0 path.new ≡ cond (list_all (λ (p : Placed). length_fits fields.now.table.now (packed_size_within fields.now.depth fields.now.table.now) (octets_for size.now) p.part) (sequence fields.now.table.now fields.now.own.0)) (Ok 0) (Err (pack_fault_at LengthField (length_path fields.now.table.now fields.now.own.0))) }
    ensures near { length path.new ≤ 1 }
    ensures calm { OnOk result (path.new ≡ []) }
{
    fields.table.keeps_rules();
    match length_entry(fields.table, fields.own) {
        Some(entry) => {
            if can_tell(fields.table, entry, size.octets()) {
                Ok(())
            } else {
                path.put_first(Step::Part(entry.container, entry.place));
                Err(PackReason::LengthField)
            }
        }
        None => Ok(()),
    }
}
