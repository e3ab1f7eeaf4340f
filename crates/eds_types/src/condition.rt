//! Whether a constraint holds of the fields of a container.

ghost use Rattle.std.specs.Prelude.{◌≡◌, List, option_map, slice_get};
ghost use Rattle.std.specs.Option.{option_copied};
ghost use Rattle.eds_types.specs.Fields.{Field, labelled, number_by, number_on, row_at, type_on, type_by, part_at, value_on};
ghost use Rattle.eds_types.specs.Plain.{plain};
ghost use Rattle.eds_types.specs.Reading.{number_within, holds};
ghost use Rattle.eds_types.specs.Seeking.{first_on};

use crate::{Constraint, Kind, TypeRow, TypeTable, Value, number_of_label, value_along};
use eds_base::{Spans, TypeId};

/// The number of a label of the type in a row.
fn labelled(row: Option<&TypeRow>, label: &str) -> Option<i128>
    ensures { result ≡ labelled (option_copied row.entry) label.now }
{
    match &row?.kind {
        Kind::Enum(_, listing) => number_of_label(listing.as_slice(), label),
        _ => None,
    }
}

/// The number of a value of the type in a row: 0 or 1 of a truth value, that of its container of fields.
fn number_of(row: Option<&TypeRow>, value: Option<&Value>) -> Option<i128>
    ensures { result ≡ number_by (option_copied row.entry) (option_map plain (option_copied value.entry)) }
{
    match value {
        Some(Value::Num(number)) => Some(*number),
        Some(Value::Label(label)) => labelled(row, label.as_str()),
        Some(Value::Bool(truth)) => Some(i128::from(*truth)),
        Some(Value::Fields(id, _)) => Some(i128::from(id.0)),
        _ => None,
    }
}

/// The declared type of the part at a place of a container.
fn type_at(table: &TypeTable, place: (TypeId, u16)) -> Option<TypeId>
    ensures { option_map (λ (id : TypeId). id.0) result ≡ type_by (part_at table.now place) }
{
    table.part_at(place.0, place.1)?.type_id()
}

/// The row of a type, None exactly where there is no such type.
pub fn row_of(rows: &[TypeRow], id: TypeId) -> Option<&TypeRow>
    ensures { option_copied result ≡ slice_get rows.now id.0 }
{
    rows.get(id.0 as usize)
}

/// The row of the declared type of the last entry on a path.
fn row_on<'a>(table: &'a TypeTable, path: &[(TypeId, u16)]) -> Option<&'a TypeRow>
    ensures { option_copied result ≡ row_at table.now (type_on table.now path.now) }
{
    match path {
        [] => None,
        [.., last] => match type_at(table, *last) {
            Some(id) => row_of(table.rows(), id),
            None => None,
        },
    }
}

/// The value on a path, from the one that it begins with.
fn value_from<'a>(
    table: &TypeTable,
    first: Option<&'a Value>,
    path: &[(TypeId, u16)],
) -> Option<&'a Value>
    ensures { (fs : List Field) → option_map plain (option_copied first.entry) ≡ first_on fs path.now → option_map plain (option_copied result) ≡ value_on table.now fs path.now }
{
    match path {
        [] => None,
        [_, rest @ ..] => value_along(table, first, rest),
    }
}

/// The number that fields have on a path, by the value that it begins with, None exactly where they have none.
pub fn number_from(table: &TypeTable, first: Option<&Value>, path: &[(TypeId, u16)]) -> Option<i128>
    ensures { (fs : List Field) → option_map plain (option_copied first.entry) ≡ first_on fs path.now → result ≡ number_on table.now fs path.now }
{
    number_of(row_on(table, path), value_from(table, first, path))
}

/// Whether a set has the number, if there is one.
fn has_number(set: &Spans, number: Option<i128>) -> bool
    ensures { result ≡ number_within set.now number }
{
    match number {
        Some(number) => set.holds(number),
        None => false,
    }
}

/// Whether a constraint holds of fields, by the value that its path begins with.
pub fn holds_from(table: &TypeTable, first: Option<&Value>, constraint: &Constraint) -> bool
    ensures { (fs : List Field) → option_map plain (option_copied first.entry) ≡ first_on fs constraint.now.path → result ≡ holds table.now fs constraint.now }
{
    has_number(
        &constraint.set,
        number_from(table, first, constraint.path.as_slice()),
    )
}
