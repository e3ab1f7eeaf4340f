//! How many values the parts of containers have.

ghost use Rattle.std.specs.Prelude.{◌≡◌, [], ◌∷◌, ◌&&◌, ◌==◌, is_some, ◌≤◌, ◌<◌, ◌+◌, ◌^◌, length, map, option_map, slice_get};
ghost use Rattle.std.specs.Option.{option_copied};
ghost use Rattle.eds_types.specs.Packing.{valued as valued_of};
ghost use Rattle.eds_types.specs.Plain.{plain};
ghost use Rattle.eds_types.specs.Rows.{container_of, sequence};
ghost use Rattle.eds_types.specs.Seeking.{entries_in_turn, trailers_in_turn};
ghost use Rattle.eds_pack.specs.Seeking.{values_in};

use eds_base::TypeId;
use eds_types::{Part, TypeTable, Value};

/// The value at a place.
pub(crate) fn value_in(values: &[Value], place: usize) -> Option<&Value>
    ensures { option_map plain (option_copied result) ≡ slice_get (map plain values.now) place }
{
    values.get(place)
}

/// How many of the parts have a value.
fn valued(parts: &[Part]) -> usize
    requires { length parts.now ≤ 32767 }
    ensures value { result ≡ values_in parts.now }
    ensures few { result ≤ length parts.now }
{
    let mut count = 0;
    for part in parts {
        if part.has_value() {
            count += 1;
        }
    }
    count
}

/// How many values stand before the next part.
pub(crate) fn behind(used: usize, part: &Part) -> usize
    requires { used < 2 ^ 32 }
    ensures { result ≡ used + values_in (part.now ∷ []) }
{
    if part.has_value() { used + 1 } else { used }
}

/// How many of the parts of a chain of containers have a value.
fn valued_along(table: &TypeTable, chain: &[TypeId]) -> usize
    requires few { length chain.now ≤ 16 }
    ensures { result ≡ valued_of (entries_in_turn table.now chain.now) + valued_of (trailers_in_turn table.now chain.now) }
{
    let mut count = 0;
    for id in chain {
        count += valued(table.entries_of(*id)) + valued(table.trailers_of(*id));
    }
    count
}

/// Whether a type is a container with so many values.
pub(crate) fn has_fields(table: &TypeTable, own: TypeId, count: usize) -> bool
    ensures { result ≡ (is_some (container_of table.now own.0) && count == valued_of (sequence table.now own.0)) }
{
    match table.container_of(own) {
        Some(_) => count == valued_along(table, table.chain_of(own).as_slice()),
        None => false,
    }
}
