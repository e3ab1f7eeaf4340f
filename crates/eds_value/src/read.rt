//! Values from their JSON.

ghost use Rattle.std.specs.Prelude.{◌≡◌, ◌<◌, length};
ghost use Rattle.serde_json.specs.View.{view};
ghost use Rattle.eds_base.specs.Answering.{Answers, or_stop};
ghost use Rattle.eds_types.specs.Plain.{plain};
ghost use Rattle.eds_value.specs.declared.fail.ValueFail.TheVariants.{NotJson};
ghost use Rattle.eds_value.specs.Json.{json_of as json_in, value_in};

use crate::ValueFail;
use crate::value_of_json::value_of_json;
use eds_base::{Fail, TypeId};
use eds_types::{TypeTable, Value};
use serde_json::Value as Json;
use std::alloc::Global;

/// The JSON that a text is, where it is UTF-8.
pub(crate) fn json_of(alloc: Global, octets: &[u8]) -> Result<Json, Fail<ValueFail>>
    ensures { Answers view result (or_stop NotJson (json_in octets.now)) }
{
    match Json::from_slice(alloc, octets) {
        Ok(json) => Ok(json),
        Err(e) => {
            if e.is_memory() {
                Err(Fail::Memory)
            } else {
                Err(Fail::Named(ValueFail::NotJson))
            }
        }
    }
}

/// The value that a text stands for where a type is declared. It is NotJson exactly where the text isn't UTF-8 or no JSON, and
/// WrongShape exactly where the JSON has no value of the type's shape, at the path of the first place where it hasn't: a
/// container comes before its members, and these in the order of its entries.
pub fn from_json(
    alloc: Global,
    table: &TypeTable,
    id: TypeId,
    octets: &[u8],
) -> Result<Value, Fail<ValueFail>>
    requires known { id.0 < length table.now }
    ensures { Answers plain result (value_in table.now id.0 octets.now) }
{
    let json = json_of(alloc, octets)?;
    match value_of_json(alloc, table, id, &json) {
        Ok(value) => Ok(value),
        Err(Fail::Memory) => Err(Fail::Memory),
        Err(Fail::Named(path)) => Err(Fail::Named(ValueFail::WrongShape(path))),
    }
}
