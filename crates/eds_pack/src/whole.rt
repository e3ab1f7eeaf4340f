//! The size of a whole value, or its first fault.

ghost use Rattle.std.specs.Prelude.{◌≡◌, ◌↔◌, ◌<◌, ℕ, Ok, Err, length, IfOk, IfErr, IsTrue};
ghost use Rattle.eds_types.specs.Packing.{PackFault, PackFailsAt};
ghost use Rattle.eds_types.specs.PackedSizes.{packed_size};
ghost use Rattle.eds_types.specs.Plain.{plain};
ghost use Rattle.eds_pack.specs.Counting.{given};
ghost use Rattle.eds_pack.specs.Packs.{Packs, where_of, fail_at};

use crate::PackFail;
use crate::plain::flat_size;
use crate::size::add_value;
use crate::tally::{Tally, packs_at_once};
use eds_base::{Path, TypeId};
use eds_types::packs::packed_sizes;
use eds_types::{Kind, PackReason, TypeTable, Value};

/// How many types are nested in each other at most.
pub(crate) const MOST_NESTED: u32 = 32;

fn size_of(table: &TypeTable, id: TypeId, value: &Value) -> Result<u32, PackFail>
    requires known { id.0 < length table.now }
    ensures { result ≡ given (packed_size table.now id.0 (plain value.now)) }
{
    table.keeps_rules();
    let mut total = Tally::new();
    let mut path = Path::root();
    if let Err(reason) = add_value(table, MOST_NESTED, id, value, &mut total, &mut path) {
        return Err(PackFail::at(reason, path));
    }
    match total.packed() {
        Some(size) => Ok(size),
        None => Err(PackFail::at(PackReason::TooLong, path)),
    }
}

/// How many bits the canonical spelling of a value of a type has, or the first fault: `need` is 0. It takes no memory.
pub fn packed_bits(table: &TypeTable, id: TypeId, value: &Value) -> Result<u32, PackFail>
    requires known { id.0 < length table.now }
    ensures size { IfOk result (λ n. Packs table.now id.0 (plain value.now) n) }
    ensures packs { (n : ℕ) → Packs table.now id.0 (plain value.now) n → result ≡ Ok n }
    ensures fault { IfErr result (λ f. PackFailsAt table.now id.0 (plain value.now) (where_of f)) }
    ensures fails { (g : PackFault) → PackFailsAt table.now id.0 (plain value.now) g → result ≡ Err (fail_at g) }
{
    table.keeps_rules();
    packed_sizes();
    size_of(table, id, value)
}

/// Whether a value packs as a type. No fault is made where nothing is nested in it.
pub fn conforms(table: &TypeTable, id: TypeId, value: &Value) -> bool
    requires known { id.0 < length table.now }
    ensures { IsTrue result ↔ ((n : ℕ) × Packs table.now id.0 (plain value.now) n) }
{
    table.keeps_rules();
    packed_sizes();
    match &table.row(id).kind {
        Kind::Arr(_, _) | Kind::Con(_) => packed_bits(table, id, value).is_ok(),
        kind => packs_at_once(flat_size(kind, value)),
    }
}
