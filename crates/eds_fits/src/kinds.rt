//! Types that fit each other, and values that fit types.

ghost use Rattle.std.specs.Prelude.{◌≡◌, Some};
ghost use Rattle.std.specs.Option.{option_copied};
ghost use Rattle.eds_types.specs.Plain.{plain};
ghost use Rattle.eds_fits.specs.Deciding.{kind_of as kind_in_table, is_numeric as is_numeric_kind, are_alike as alike, fit_together as fit_in, value_fits as value_fits_in, entry_of, entry_at as entry_in, led as led_by};

use eds_base::TypeId;
use eds_pack::conforms;
use eds_types::packs::packed_sizes;
use eds_types::{Kind, Part, TypeTable, Value, is_under};

fn kind_of(table: &TypeTable, id: TypeId) -> Option<&Kind>
    ensures { option_copied result ≡ kind_in_table table.now id.0 }
{
    let row = table.rows().get(id.0 as usize)?;
    Some(&row.kind)
}

/// Whether a type is of numbers.
pub(crate) fn is_numeric(table: &TypeTable, id: TypeId) -> bool
    ensures { result ≡ is_numeric_kind (kind_in_table table.now id.0) }
{
    match kind_of(table, id) {
        Some(Kind::Int(_, _)) => true,
        _ => false,
    }
}

fn are_alike(table: &TypeTable, a: TypeId, one: &Kind, b: TypeId, other: &Kind) -> bool
    ensures { result ≡ alike table.now a.0 one.now b.0 other.now }
{
    match one {
        Kind::Int(_, _) => match other {
            Kind::Int(_, _) => true,
            _ => false,
        },
        Kind::Bool(_) => match other {
            Kind::Bool(_) => true,
            _ => false,
        },
        Kind::Str(_) => match other {
            Kind::Str(_) => true,
            _ => false,
        },
        Kind::Bin(_, _) => match other {
            Kind::Bin(_, _) => true,
            _ => false,
        },
        Kind::Enum(_, _) => match other {
            Kind::Enum(_, _) => a.0 == b.0,
            _ => false,
        },
        Kind::Arr(_, _) => match other {
            Kind::Arr(_, _) => a.0 == b.0,
            _ => false,
        },
        Kind::Con(_) => match other {
            Kind::Con(_) => is_under(table, b, a) || is_under(table, a, b),
            _ => false,
        },
    }
}

/// Whether values of two types may stand for each other.
pub(crate) fn fit_together(table: &TypeTable, a: TypeId, b: TypeId) -> bool
    ensures { result ≡ fit_in table.now a.0 b.0 }
{
    match kind_of(table, a) {
        None => false,
        Some(one) => match kind_of(table, b) {
            None => false,
            Some(other) => are_alike(table, a, one, b, other),
        },
    }
}

/// Whether a type is there, and a value packs as it.
pub(crate) fn value_fits(table: &TypeTable, id: TypeId, value: &Value) -> bool
    ensures { result ≡ value_fits_in table.now id.0 (plain value.now) }
{
    if id.0 as usize >= table.rows().len() {
        return false;
    }
    packed_sizes();
    table.keeps_rules();
    conforms(table, id, value)
}

// ---- paths

fn type_of_entry(part: &Part) -> Option<TypeId>
    ensures { result ≡ entry_of (Some part.now) }
{
    match part {
        Part::Plain(_, id) => Some(*id),
        _ => None,
    }
}

// The type of the entry at a place that a container type has, or a base of it.
fn entry_at(table: &TypeTable, id: TypeId, place: (TypeId, u16)) -> Option<TypeId>
    ensures { result ≡ entry_in table.now id.0 place }
{
    if !is_under(table, id, place.0) {
        return None;
    }
    let part = table.part_at(place.0, place.1)?;
    type_of_entry(part)
}

/// The type to which a path leads.
pub(crate) fn led(table: &TypeTable, id: TypeId, path: &[(TypeId, u16)]) -> Option<TypeId>
    ensures { result ≡ led_by table.now id path.now }
{
    let mut at = id;
    for place in path {
        at = entry_at(table, at, *place)?;
    }
    Some(at)
}
