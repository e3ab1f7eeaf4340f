//! Writing values as JSON, token by token.

ghost use Rattle.std.specs.Prelude.{◌≡◌, ◌++◌, OnOk, map};
ghost use Rattle.serde_json.specs.Data.{array, number, object};
ghost use Rattle.serde_json.specs.Find.{of_integer};
ghost use Rattle.serde_json.specs.View.{items_of};
ghost use Rattle.eds_types.specs.Plain.{plain};
ghost use Rattle.eds_value.specs.Entries.{entries_along as entries_in};
ghost use Rattle.eds_value.specs.JsonOfValue.{fields_data, json_of_value as json_of, type_name as name_of_type};
ghost use Rattle.eds_value.specs.Members.{content_json, in_order};
ghost use Rattle.eds_value.specs.Written.{IsSound, tokens_of};

use crate::entry::entries_along;
use crate::member::{Content, Filled, arranged, members_of_fields};
use crate::path::type_name;
use eds_base::{Memory, TypeId};
use eds_types::{TypeTable, Value};
use json::Writer;
use std::alloc::{AllocError, Global};

// Writes a whole number of 64 bits.
fn write_number(n: i128, out: &mut Writer) -> Result<(), AllocError>
    requires { IsSound (number (of_integer n)) }
    ensures tokens { OnOk result (out.new.tokens ≡ out.old.tokens ++ tokens_of (number (of_integer n))) }
    ensures before { out.new.before ≡ out.old.before }
{
    if n < 0 {
        out.i64(n as i64)
    } else {
        out.u64(n as u64)
    }
}

#[cycle(write)]
fn write_items(
    alloc: Global,
    values: &[Value],
    table: &TypeTable,
    out: &mut Writer,
) -> Result<(), Memory>
    requires { IsSound (array (items_of (map (json_of table.now) (map plain values.now)))) }
    ensures tokens { OnOk result (out.new.tokens ≡ out.old.tokens ++ tokens_of (array (items_of (map (json_of table.now) (map plain values.now))))) }
    ensures before { out.new.before ≡ out.old.before }
{
    out.begin_array()?;
    for value in values {
        write_value(alloc, value, table, out)?;
    }
    out.end_array()?;
    Ok(())
}

#[cycle(write)]
fn write_content(
    alloc: Global,
    content: Content<'_>,
    table: &TypeTable,
    out: &mut Writer,
) -> Result<(), Memory>
    requires { IsSound (content_json table.now content) }
    ensures tokens { OnOk result (out.new.tokens ≡ out.old.tokens ++ tokens_of (content_json table.now content.entry)) }
    ensures before { out.new.before ≡ out.old.before }
{
    match content {
        Content::TypeName(name) => Ok(out.string(name)?),
        Content::Held(value) => write_value(alloc, value, table, out),
    }
}

/// Writes an object of these members, in this order.
#[cycle(write)]
pub(crate) fn write_object(
    alloc: Global,
    members: &[Filled<'_>],
    table: &TypeTable,
    out: &mut Writer,
) -> Result<(), Memory>
    requires { IsSound (object (in_order table.now members.now)) }
    ensures tokens { OnOk result (out.new.tokens ≡ out.old.tokens ++ tokens_of (object (in_order table.now members.now))) }
    ensures before { out.new.before ≡ out.old.before }
{
    out.begin_object()?;
    for member in members {
        out.key(member.name)?;
        write_content(alloc, member.content, table, out)?;
    }
    out.end_object()?;
    Ok(())
}

#[cycle(write)]
fn write_fields(
    alloc: Global,
    values: &[Value],
    table: &TypeTable,
    container: TypeId,
    out: &mut Writer,
) -> Result<(), Memory>
    requires { IsSound (fields_data (name_of_type table.now container.0) (entries_in table.now container.0) (map (json_of table.now) (map plain values.now))) }
    ensures tokens { OnOk result (out.new.tokens ≡ out.old.tokens ++ tokens_of (fields_data (name_of_type table.now container.0) (entries_in table.now container.0) (map (json_of table.now) (map plain values.now)))) }
    ensures before { out.new.before ≡ out.old.before }
{
    let entries = entries_along(alloc, table, container)?;
    let name = type_name(table, container);
    let members = members_of_fields(alloc, name, entries.as_slice(), values)?;
    let members = arranged(alloc, members.as_slice())?;
    write_object(alloc, members.as_slice(), table, out)
}

/// Writes the JSON of a value.
#[cycle(write)]
pub(crate) fn write_value(
    alloc: Global,
    value: &Value,
    table: &TypeTable,
    out: &mut Writer,
) -> Result<(), Memory>
    requires { IsSound (json_of table.now (plain value.now)) }
    ensures tokens { OnOk result (out.new.tokens ≡ out.old.tokens ++ tokens_of (json_of table.now (plain value.now))) }
    ensures before { out.new.before ≡ out.old.before }
{
    match value {
        Value::Num(n) => Ok(write_number(*n, out)?),
        Value::Label(label) => Ok(out.string(label.as_str())?),
        Value::Bool(truth) => Ok(out.boolean(*truth)?),
        Value::Text(text) => Ok(out.string(text.as_str())?),
        Value::Bits(_, octets) => {
            Ok(out.string(hex::encode(alloc, octets.as_slice())?.as_str())?)
        }
        Value::Items(items) => write_items(alloc, items.as_slice(), table, out),
        Value::Fields(container, values) => {
            write_fields(alloc, values.as_slice(), table, *container, out)
        }
    }
}
