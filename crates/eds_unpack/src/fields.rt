//! The fields of a container that were read so far.

ghost use Rattle.std.specs.Prelude.{◌≡◌, map, option_map, slice_get};
ghost use Rattle.std.specs.Option.{option_copied};
ghost use Rattle.eds_types.specs.Fields.{value_at};
ghost use Rattle.eds_types.specs.Plain.{plain};
ghost use Rattle.eds_types.specs.Spelling.{count_in};
ghost use Rattle.eds_unpack.specs.Courses.{fields_of};

use eds_base::TypeId;
use eds_types::Value;

/// The values that were read, and beside each, in a list of its own, the part that holds it: the container that has the part,
/// and its place there.
#[derive(Drop)]
pub(crate) struct ReadFields {
    pub values: Vec<Value>,
    pub parts: Vec<(TypeId, u16)>,
}

/// The value at a position, if there is one.
fn nth(values: &[Value], index: usize) -> Option<&Value>
    ensures { option_map plain (option_copied result) ≡ slice_get (map plain values.now) index }
{
    values.get(index)
}

/// The value of the part at a place of a container, None exactly where none was read.
pub(crate) fn field_at(fields: &ReadFields, container: TypeId, place: u16) -> Option<&Value>
    ensures { option_map plain (option_copied result) ≡ value_at (fields_of fields.now) container.0 place }
{
    let parts = fields.parts.as_slice();
    for index in 0..parts.len() {
        let part = parts[index];
        if part.0.0 == container.0 && part.1 == place {
            return nth(fields.values.as_slice(), index);
        }
    }
    None
}

/// How many items a value tells.
fn count_of(value: Option<&Value>) -> u128
    ensures { result ≡ count_in (option_map plain (option_copied value.entry)) }
{
    match value {
        Some(Value::Num(number)) => number.unsigned_abs(),
        _ => 0,
    }
}

/// How many items the entry at a place of a container tells.
pub(crate) fn count_at(fields: &ReadFields, container: TypeId, place: u16) -> u128
    ensures { result ≡ count_in (value_at (fields_of fields.now) container.0 place) }
{
    count_of(field_at(fields, container, place))
}
