//! The numbers that a packer works out: those of length entries, and the checks of error controls.

ghost use Rattle.std.specs.Prelude.{◌≡◌, ◌+◌, ◌*◌, ◌^◌, ◌<◌, ◌≤◌, ◌+ℤ◌, ◌*ℤ◌, ℤ, pos, length, map};
ghost use Rattle.eds_bits.specs.Scalars.{check_of};
ghost use Rattle.eds_pack.specs.Nesting.{IsLow};
ghost use Rattle.eds_pack.specs.Putting.{IsSized, between, own_octets};
ghost use Rattle.eds_types.specs.PackedSizes.{told_by};
ghost use Rattle.eds_types.specs.Plain.{num, plain};
ghost use Rattle.eds_types.specs.Rules.{IsScale};

use crate::fields::Fields;
use crate::length::number_telling;
use crate::size::own_size;
use eds_base::Path;
use eds_bits::{BitView, CheckKind};
use eds_codec::check_sum;
use eds_types::Value;

// How many octets the fields have, which the first pass has found to pass.
fn octets_of(fields: &Fields<'_>) -> u128
    requires low { IsLow fields.now.table.now (fields.now.depth + 1) fields.now.own.0 }
    requires few { fields.now.depth < 32 }
    requires sized { IsSized fields.now.table.now fields.now.depth fields.now.own.0 (map plain fields.now.values.now) }
    ensures value { result ≡ own_octets fields.now.table.now fields.now.depth fields.now.own.0 (map plain fields.now.values.now) }
    ensures bound { result ≤ 2 ^ 100 }
{
    let mut path = Path::root();
    match own_size(fields, &mut path) {
        Ok(size) => size.octets(),
        Err(_) => unreachable!(),
    }
}

/// The number with which a length entry of the fields' container tells their octets.
pub(crate) fn length_value(fields: &Fields<'_>, c0: i64, c1: i64) -> Value
    requires scale { IsScale c0 c1 }
    requires low { IsLow fields.now.table.now (fields.now.depth + 1) fields.now.own.0 }
    requires few { fields.now.depth < 32 }
    requires sized { IsSized fields.now.table.now fields.now.depth fields.now.own.0 (map plain fields.now.values.now) }
    requires told { (r : ℤ) × (c0 +ℤ (c1 *ℤ r) ≡ pos (own_octets fields.now.table.now fields.now.depth fields.now.own.0 (map plain fields.now.values.now))) }
    ensures { plain result ≡ num (told_by c0 c1 (own_octets fields.now.table.now fields.now.depth fields.now.own.0 (map plain fields.now.values.now))) }
{
    match number_telling(c0, c1, octets_of(fields)) {
        Some(number) => Value::Num(number),
        None => unreachable!(),
    }
}

/// The check of the bits of a room from one to another.
pub(crate) fn check_value(kind: CheckKind, start: u64, room: &[u8], at: u64) -> Value
    requires order { start ≤ at }
    requires fits { at ≤ 8 * length room.now }
    requires few { at ≤ 524288 }
    ensures { plain result ≡ num (pos (check_of kind (between start at room.now))) }
{
    let octets = &room[..at.div_ceil(8) as usize];
    let view = BitView::new(octets).after(start);
    Value::Num(i128::from(check_sum(kind, view, (at - start) as u32)))
}
