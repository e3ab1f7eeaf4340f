//! Objects of arguments.

ghost use Rattle.std.specs.Prelude.{◌≡◌, IfOk, Ok, map};
ghost use Rattle.std.specs.Str.{IsUtf8};
ghost use Rattle.eds_base.specs.Answering.{Answers};
ghost use Rattle.eds_types.specs.Plain.{plain};
ghost use Rattle.eds_value.specs.Entries.{argument as argument_of, arguments as arguments_of};
ghost use Rattle.eds_value.specs.Seen.{seen};
ghost use Rattle.eds_value.specs.Json.{arguments_in};
ghost use Rattle.eds_value.specs.Laws.{AreNamed, AreOfTypes, HasNoTypeEntry};
ghost use Rattle.eds_value.specs.JsonOfValue.{arguments_text};

use crate::ValueFail;
use crate::entry::Entry;
use crate::json_of_value::writer;
use crate::member::{arranged, members_of_arguments};
use crate::read::json_of;
use crate::value_of_json::arguments_of_json;
use crate::write::write_object;
use eds_base::{Fail, Items, Memory, Octets, Text, TypeId};
use eds_types::{TypeTable, Value, Values};
use std::alloc::Global;

/// The names and types of arguments, in their order.
pub type FieldList = Items<(Text, TypeId)>;

fn argument(field: &(Text, TypeId)) -> Entry<'_>
    ensures { seen result ≡ argument_of field.now }
{
    Entry {
        step: None,
        name: field.0.as_str(),
        id: field.1,
        is_list: false,
    }
}

// What has a value in an object of arguments.
fn arguments<'a>(alloc: Global, fields: &'a [(Text, TypeId)]) -> Result<Items<Entry<'a>>, Memory>
    ensures { IfOk result (λ es. map seen es ≡ arguments_of fields.now) }
{
    let mut entries = Items::new(alloc);
    for field in fields {
        entries.push(argument(field))?;
    }
    Ok(entries)
}

// The values as a list.
fn listed(alloc: Global, values: Vec<Value>) -> Result<Values, Memory>
    ensures { IfOk result (λ vs. vs ≡ map plain values.items) }
{
    let mut list = Values::new(alloc);
    for value in values {
        list.push(value)?;
    }
    Ok(list)
}

/// The values that a text stands for, where arguments of these names and types are declared: it is an object of one member for
/// each argument and of no others, so that `$type` is a further one. It is NotJson exactly where the text isn't UTF-8 or no
/// JSON. It is WrongShape with no step where it is no such object, and else exactly where an argument's value has the wrong
/// shape, the first in their order, with the path from that value on.
pub fn args_from_json(
    alloc: Global,
    table: &TypeTable,
    fields: &FieldList,
    octets: &[u8],
) -> Result<Values, Fail<ValueFail>>
    ensures { Answers (λ vs. vs) result (arguments_in table.now fields.now octets.now) }
{
    let json = json_of(alloc, octets)?;
    let entries = arguments(alloc, fields.as_slice())?;
    match arguments_of_json(alloc, table, entries.as_slice(), &json) {
        Ok(values) => Ok(listed(alloc, values)?),
        Err(Fail::Memory) => Err(Fail::Memory),
        Err(Fail::Named(path)) => Err(Fail::Named(ValueFail::WrongShape(path))),
    }
}

/// The JSON text of arguments' values: an object of one member for each, in byte order of their names and without spaces. Where
/// the arguments' names differ and no entry of the table is named `$type`, as in every sheet, it is read as those values again.
pub fn args_to_json(
    alloc: Global,
    table: &TypeTable,
    fields: &FieldList,
    values: &Values,
) -> Result<Octets, Memory>
    requires { AreOfTypes table.now fields.now values.now }
    ensures text { IfOk result (λ o. o ≡ arguments_text table.now fields.now values.now) }
    ensures utf8 { IfOk result IsUtf8 }
    ensures reads_back { HasNoTypeEntry table.now → AreNamed fields.now → IfOk result (λ o. arguments_in table.now fields.now o ≡ Ok values.now) }
{
    table.keeps_rules();
    let entries = arguments(alloc, fields.as_slice())?;
    let members = members_of_arguments(alloc, entries.as_slice(), values)?;
    let members = arranged(alloc, members.as_slice())?;
    let mut out = writer(alloc)?;
    write_object(alloc, members.as_slice(), table, &mut out)?;
    Ok(Octets::from_vec(out.into_inner()))
}
