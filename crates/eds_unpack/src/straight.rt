//! Containers whose value is that of their entries alone, one after another.

ghost use Rattle.std.specs.Prelude.{◌≡◌, ℕ, length, Some};
ghost use Rattle.std.specs.List.{list_all};
ghost use Rattle.eds_types.specs.Fields.{type_by};
ghost use Rattle.eds_types.specs.Rows.{numbers_of};
ghost use Rattle.eds_unpack.specs.Straight.{is_only, is_straight_entry, is_straight};

use crate::tail::open_bits;
use eds_base::TypeId;
use eds_types::{Part, TypeTable};

/// Whether a type, and no other, is listed.
pub(crate) fn is_only(id: TypeId, ids: &[TypeId]) -> bool
    ensures { result ≡ is_only id.0 (numbers_of ids.now) }
{
    match ids {
        [one] => one.0 == id.0,
        _ => false,
    }
}

/// Whether a part is an entry with a value, and no open binary.
fn is_straight_entry(table: &TypeTable, part: &Part) -> bool
    ensures { result ≡ is_straight_entry table.now part.now }
{
    match part {
        Part::Plain(..) => open_bits(table, part).is_none(),
        _ => false,
    }
}

/// The type of such an entry.
#[inline(always)]
pub(crate) fn type_of(part: &Part) -> TypeId
    ensures { (id : ℕ) → type_by (Some part.now) ≡ Some id → result.0 ≡ id }
{
    match part.type_id() {
        Some(id) => id,
        None => TypeId(0),
    }
}

/// Whether all parts are such entries.
fn are_straight(table: &TypeTable, parts: &[Part]) -> bool
    ensures { result ≡ list_all (is_straight_entry table.now) parts.now }
{
    parts.iter().all(|part| is_straight_entry(table, part))
}

/// Whether a container derives from none and none derives from it, and it has such entries alone: then no part of it is
/// looked up while it is read.
pub(crate) fn is_straight(table: &TypeTable, id: TypeId) -> bool
    ensures { result ≡ is_straight table.now id.0 }
{
    table.is_concrete(id)
        && is_only(id, table.family_of(id))
        && is_only(id, table.chain_of(id).as_slice())
        && table.constraints_of(id).is_empty()
        && table.trailers_of(id).is_empty()
        && are_straight(table, table.entries_of(id))
}
