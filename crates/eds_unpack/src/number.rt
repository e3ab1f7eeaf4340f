//! The number that fields have on a path.

ghost use Rattle.std.specs.Prelude.{◌≡◌};
ghost use Rattle.eds_types.specs.Fields.{number_on as number_of_fields};
ghost use Rattle.eds_unpack.specs.Courses.{fields_of};

use crate::fields::{ReadFields, field_at};
use eds_base::TypeId;
use eds_types::{TypeTable, Value, number_from};

/// The number that fields have on a path, None exactly where they have none.
pub(crate) fn number_on(
    table: &TypeTable,
    fields: &ReadFields,
    path: &[(TypeId, u16)],
) -> Option<i128>
    ensures { result ≡ number_of_fields table.now (fields_of fields.now) path.now }
{
    let [first, rest @ ..] = path else {
        return None;
    };
    let value = field_at(fields, first.0, first.1);
    match (value, rest) {
        // the row of the entry's type, which only labels need, is not looked for
        (Some(Value::Num(number)), []) => Some(*number),
        _ => number_from(table, value, path),
    }
}
