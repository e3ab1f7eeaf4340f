//! What rows say of a type, looked up by its number.

ghost use Rattle.std.specs.Prelude.{◌≡◌, map, slice_get};
ghost use Rattle.std.specs.Option.{option_copied};
ghost use Rattle.eds_types.specs.Fields.{part_at};
ghost use Rattle.eds_types.specs.Domains.{int_domain_by, int_domain};
ghost use Rattle.eds_types.specs.Rows.{base_id_in, container_by, container_of, entries_of, trailers_of, constraints_of, is_concrete, chain, id_of};

use crate::{Chain, Constraint, Container, Kind, Part, TypeRow};
use eds_base::{Spans, TypeId};

/// The row of a type, None exactly where there is no such type.
pub(crate) fn row_of(rows: &[TypeRow], id: TypeId) -> Option<&TypeRow>
    ensures { option_copied result ≡ slice_get rows.now id.0 }
{
    rows.get(id.0 as usize)
}

/// The type that this one derives from.
pub(crate) fn base_of(rows: &[TypeRow], id: TypeId) -> Option<TypeId>
    ensures { result ≡ base_id_in (slice_get rows.now id.0) }
{
    row_of(rows, id)?.base
}

/// The container of a kind.
pub(crate) fn container_by(kind: &Kind) -> Option<&Container>
    ensures { option_copied result ≡ container_by kind.now }
{
    match kind {
        Kind::Con(container) => Some(container),
        _ => None,
    }
}

/// The container of a type, None exactly where the type is no container.
pub(crate) fn container_of(rows: &[TypeRow], id: TypeId) -> Option<&Container>
    ensures { option_copied result ≡ container_of rows.now id.0 }
{
    container_by(&row_of(rows, id)?.kind)
}

/// The numbers of an integer type or sub-range.
pub(crate) fn domain_by(kind: &Kind) -> Option<&Spans>
    ensures { option_copied result ≡ int_domain_by kind.now }
{
    match kind {
        Kind::Int(_, spans) => Some(spans),
        _ => None,
    }
}

/// The numbers of an integer type or sub-range, None exactly for any other type.
pub(crate) fn domain_of(rows: &[TypeRow], id: TypeId) -> Option<&Spans>
    ensures { option_copied result ≡ int_domain rows.now id.0 }
{
    domain_by(&row_of(rows, id)?.kind)
}

/// The entries of a container; any other type has none.
pub(crate) fn entries_of(rows: &[TypeRow], id: TypeId) -> &[Part]
    ensures { result.now ≡ entries_of rows.now id.0 }
{
    match container_of(rows, id) {
        Some(container) => container.entries.as_slice(),
        None => &[],
    }
}

/// The trailers of a container; any other type has none.
pub(crate) fn trailers_of(rows: &[TypeRow], id: TypeId) -> &[Part]
    ensures { result.now ≡ trailers_of rows.now id.0 }
{
    match container_of(rows, id) {
        Some(container) => container.trailers.as_slice(),
        None => &[],
    }
}

/// The constraints of a container; any other type has none.
pub(crate) fn constraints_of(rows: &[TypeRow], id: TypeId) -> &[Constraint]
    ensures { result.now ≡ constraints_of rows.now id.0 }
{
    match container_of(rows, id) {
        Some(container) => container.constraints.as_slice(),
        None => &[],
    }
}

/// The part at a position among a container's entries and then its trailers, None exactly where there is none.
pub(crate) fn part_at(rows: &[TypeRow], id: TypeId, place: u16) -> Option<&Part>
    ensures { option_copied result ≡ part_at rows.now (id, place) }
{
    let entries = entries_of(rows, id);
    let place = place as usize;
    if place < entries.len() {
        entries.get(place)
    } else {
        trailers_of(rows, id).get(place - entries.len())
    }
}

/// Whether the type is a container that isn't abstract.
pub(crate) fn is_concrete(rows: &[TypeRow], id: TypeId) -> bool
    ensures { result ≡ is_concrete rows.now id.0 }
{
    match container_of(rows, id) {
        Some(container) => !container.hidden,
        None => false,
    }
}

/// The types from the root of the bases down to this one.
pub(crate) fn chain_of(rows: &[TypeRow], id: TypeId) -> Chain
    ensures { result ≡ map id_of (chain rows.now id.0) }
{
    let mut chain = Chain::of_one(id);
    let mut at = id;
    for _ in 1..16_usize {
        match base_of(rows, at) {
            Some(base) => {
                chain.put_first(base);
                at = base;
            }
            None => return chain,
        }
    }
    chain
}
