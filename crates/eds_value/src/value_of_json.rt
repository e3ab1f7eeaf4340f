//! The value that JSON stands for.

ghost use Rattle.std.specs.Prelude.{◌≡◌, ◌<◌, ◌≤◌, ◌+◌, ◌*◌, ◌&&◌, IfNone, IfOk, IfSome, [], codes, false, length, map, option_and_then, option_map};
ghost use Rattle.serde_json.specs.Find.{as_integer, as_number, get as get_at};
ghost use Rattle.serde_json.specs.View.{items_view, view};
ghost use Rattle.eds_base.specs.Answering.{Answers, or_stop};
ghost use Rattle.eds_base.specs.Reading.{same};
ghost use Rattle.eds_types.specs.PackedSizes.{has_bits};
ghost use Rattle.eds_types.specs.Plain.{plain};
ghost use Rattle.eds_value.specs.Seen.{seen};
ghost use Rattle.eds_value.specs.ValueOfJson.{arguments_of_json as arguments_from, members_for as members_of, binary_by as binary_of, binary_in as binary_from, bits_for as bits_of_octets, octets_of_hex as octets_in_hex, container_named as container_in, entry_value as value_of_entry, fields_in as fields_from, has_each as has_each_of, has_members as has_members_of, has_so_many as has_so_many_of, is_container as is_con, items_from as items_of, items_in as items_of_json, member_value as value_of_member, member_values as values_of_members, named_from, or_inside, scalar_by as scalar_of, value_by as value_of_kind, value_of_json as value_from, value_within as value_in};

use crate::entry::{Entry, entries_along};
use crate::stop::{behind, behind_entry, inside};
use eds_base::{Fail, Memory, Octets, Path, Step, Text, TypeId};
use eds_types::{Kind, TypeRow, TypeTable, Value, is_binary};
use serde_json::Value as Json;
use std::alloc::Global;

// A whole number that is held as such.
fn whole(json: &Json) -> Option<i128>
    ensures { result ≡ option_and_then as_integer (as_number (view json.now)) }
{
    if let Some(number) = json.as_u64() {
        return Some(number as i128);
    }
    let number = json.as_i64()?;
    Some(number as i128)
}

// The octets of a text of hex digits in either case.
fn octets_of_hex(alloc: Global, text: &str) -> Result<Option<Vec<u8>>, Memory>
    ensures { IfOk result (λ o. option_map (λ v. v.items) o ≡ octets_in_hex text.now) }
{
    match hex::decode(alloc, text) {
        Ok(octets) => Ok(Some(octets)),
        Err(hex::FromHexError::OutOfMemory) => Err(Memory),
        Err(_) => Ok(None),
    }
}

// How many bits octets are for a binary of so many bits, or an open one of at most so many. `None` where an open one has
// fewer.
fn bits_for(size: u32, is_open: bool, octets: &[u8]) -> Option<u32>
    ensures some { IfSome result (λ n. n ≡ bits_of_octets size is_open octets.now) }
    ensures none { IfNone result (has_bits size is_open (bits_of_octets size is_open octets.now) ≡ false) }
{
    if !is_open {
        return Some(size);
    }
    let bits = 8 * octets.len() as u128;
    if bits <= u128::from(size) {
        Some(bits as u32)
    } else {
        None
    }
}

// The value of a binary of so many bits, or of an open one of at most so many.
fn binary_by(size: u32, is_open: bool, octets: Vec<u8>) -> Option<Value>
    ensures { option_map plain result ≡ binary_of size is_open octets.items }
{
    let bits = bits_for(size, is_open, octets.as_slice())?;
    if is_binary(size, is_open, bits, octets.as_slice()) {
        Some(Value::Bits(bits, Octets::from_vec(octets)))
    } else {
        None
    }
}

// The value of a binary, from the hex of its octets.
fn binary_in(alloc: Global, size: u32, is_open: bool, json: &Json) -> Result<Option<Value>, Memory>
    ensures { IfOk result (λ v. option_map plain v ≡ binary_from size is_open (view json.now)) }
{
    let Some(text) = json.as_str() else {
        return Ok(None);
    };
    match octets_of_hex(alloc, text)? {
        Some(octets) => Ok(binary_by(size, is_open, octets)),
        None => Ok(None),
    }
}

// The value of a kind whose values hold no others.
fn scalar_by(alloc: Global, kind: &Kind, json: &Json) -> Result<Option<Value>, Memory>
    ensures { IfOk result (λ v. option_map plain v ≡ scalar_of kind.now (view json.now)) }
{
    match kind {
        Kind::Int(_, _) => Ok(whole(json).map(Value::Num)),
        Kind::Enum(_, _) => match json.as_str() {
            Some(label) => Ok(Some(Value::Label(Text::of(alloc, label)?))),
            None => Ok(None),
        },
        Kind::Bool(_) => Ok(json.as_bool().map(Value::Bool)),
        Kind::Str(_) => match json.as_str() {
            Some(text) => Ok(Some(Value::Text(Text::of(alloc, text)?))),
            None => Ok(None),
        },
        Kind::Bin(size, is_open) => binary_in(alloc, *size, *is_open, json),
        Kind::Arr(_, _) => Ok(None),
        Kind::Con(_) => Ok(None),
    }
}

fn is_container(row: &TypeRow) -> bool
    ensures { result ≡ is_con row.now }
{
    match row.kind {
        Kind::Con(_) => true,
        _ => false,
    }
}

fn is_named(row: &TypeRow, word: &str) -> bool
    ensures { result ≡ (is_con row.now && same row.now.name word.now) }
{
    is_container(row) && row.name.as_str() == word
}

// The first container of a qualified name: one pass over the rows.
fn named(table: &TypeTable, word: &str) -> Option<TypeId>
    ensures { option_map (λ (id : TypeId). id.0) result ≡ named_from word.now table.now 0 }
{
    for i in 0..table.len() {
        if is_named(table.row(TypeId(i)), word) {
            return Some(TypeId(i));
        }
    }
    None
}

fn container_named(table: &TypeTable, id: TypeId, json: &Json) -> Option<TypeId>
    ensures { option_map (λ (id : TypeId). id.0) result ≡ container_in table.now id.0 (view json.now) }
{
    match json.get("$type") {
        None => Some(id),
        Some(name) => named(table, name.as_str()?),
    }
}

fn has_so_many(json: &Json, count: usize) -> bool
    ensures { result ≡ has_so_many_of count (view json.now) }
{
    match json.as_object() {
        Some(members) => members.len() == count,
        None => false,
    }
}

fn has_each(json: &Json, entries: &[Entry<'_>]) -> bool
    ensures { result ≡ has_each_of (view json.now) (map seen entries.now) }
{
    for entry in entries {
        if json.get(entry.name).is_none() {
            return false;
        }
    }
    true
}

#[tactic(auto, unfolding(crate::specs::ValueOfJson::has_members))]
fn has_members(count: usize, json: &Json, entries: &[Entry<'_>]) -> bool
    ensures { result ≡ has_members_of count (view json.now) (map seen entries.now) }
{
    has_so_many(json, count) && has_each(json, entries)
}

// The number of members of a container's object.
fn members_for(json: &Json, entries: &[Entry<'_>]) -> usize
    ensures { result ≡ members_of (view json.now) (map seen entries.now) }
{
    let named = if json.get("$type").is_some() { 1 } else { 0 };
    entries.len() + named
}

/// No text is read as JSON that is nested so deep.
const NESTING: u32 = 128;

// The items of an array or list.
#[cycle(value)]
fn items_from(
    alloc: Global,
    table: &TypeTable,
    depth: u32,
    id: TypeId,
    items: &[Json],
) -> Result<Vec<Value>, Fail<Path>>
    ensures { Answers (λ vs. map plain vs.items) result (items_of table.now (value_in depth table.now) id.0 0 (items_view items.now)) }
{
    table.keeps_rules();
    let mut values = Vec::new(alloc);
    let mut place: u32 = 0;
    for json in items {
        match value_within(alloc, table, depth, id, json) {
            Ok(value) => values.push(value)?,
            Err(stop) => return Err(behind(Step::Item(place), stop)),
        }
        // a text of JSON has fewer octets than that
        place = place.checked_add(1).ok_or(Memory)?;
    }
    Ok(values)
}

// The items of an array or list, where the JSON is an array.
#[cycle(value)]
fn items_in(
    alloc: Global,
    table: &TypeTable,
    depth: u32,
    id: TypeId,
    json: &Json,
) -> Result<Value, Fail<Path>>
    ensures { Answers plain result (items_of_json table.now (value_in depth table.now) id.0 (view json.now)) }
{
    let Some(items) = json.as_array() else {
        return Err(Fail::Named(Path::root()));
    };
    let values = items_from(alloc, table, depth, id, items.as_slice())?;
    Ok(Value::Items(values))
}

// The value of an entry, list or argument.
#[cycle(value)]
fn entry_value(
    alloc: Global,
    table: &TypeTable,
    depth: u32,
    entry: &Entry<'_>,
    json: &Json,
) -> Result<Value, Fail<Path>>
    ensures { Answers plain result (value_of_entry table.now (value_in depth table.now) (seen entry.now) (view json.now)) }
{
    if entry.is_list {
        items_in(alloc, table, depth, entry.id, json)
    } else {
        value_within(alloc, table, depth, entry.id, json)
    }
}

// The value of an entry's member.
#[cycle(value)]
fn member_value(
    alloc: Global,
    table: &TypeTable,
    depth: u32,
    json: &Json,
    entry: &Entry<'_>,
) -> Result<Value, Fail<Path>>
    ensures { Answers plain result (value_of_member table.now (value_in depth table.now) (view json.now) (seen entry.now)) }
{
    table.keeps_rules();
    let Some(member) = json.get(entry.name) else {
        return Err(behind_entry(entry.step, Fail::Named(Path::root())));
    };
    match entry_value(alloc, table, depth, entry, member) {
        Ok(value) => Ok(value),
        Err(stop) => Err(behind_entry(entry.step, stop)),
    }
}

// The values of the entries' members.
#[cycle(value)]
fn member_values(
    alloc: Global,
    table: &TypeTable,
    depth: u32,
    json: &Json,
    entries: &[Entry<'_>],
) -> Result<Vec<Value>, Fail<Path>>
    ensures { Answers (λ vs. map plain vs.items) result (values_of_members table.now (value_in depth table.now) (view json.now) (map seen entries.now)) }
{
    let mut values = Vec::new(alloc);
    for entry in entries {
        let value = member_value(alloc, table, depth, json, entry)?;
        values.push(value)?;
    }
    Ok(values)
}

// The values of the members, where a type is declared.
#[cycle(value)]
fn values_inside(
    alloc: Global,
    table: &TypeTable,
    depth: u32,
    id: TypeId,
    container: TypeId,
    json: &Json,
    entries: &[Entry<'_>],
) -> Result<Vec<Value>, Fail<Path>>
    ensures { Answers (λ vs. map plain vs.items) result
        (or_inside table.now id.0 container.0 (values_of_members table.now (value_in depth table.now) (view json.now) (map seen entries.now))) }
{
    match member_values(alloc, table, depth, json, entries) {
        Ok(values) => Ok(values),
        Err(stop) => Err(inside(table, id, container, stop)),
    }
}

// The fields that an object has, where a type is declared.
#[cycle(value)]
#[tactic(auto, unfolding(crate::specs::ValueOfJson::fields_in, crate::specs::ValueOfJson::container_for))]
fn fields_in(
    alloc: Global,
    table: &TypeTable,
    depth: u32,
    id: TypeId,
    json: &Json,
) -> Result<Value, Fail<Path>>
    ensures { Answers plain result (fields_from table.now (value_in depth table.now) id.0 (view json.now)) }
{
    let Some(container) = container_named(table, id, json) else {
        return Err(Fail::Named(Path::root()));
    };
    let entries = entries_along(alloc, table, container)?;
    let entries = entries.as_slice();
    if !has_members(members_for(json, entries), json, entries) {
        return Err(Fail::Named(Path::root()));
    }
    let values = values_inside(alloc, table, depth, id, container, json, entries)?;
    Ok(Value::Fields(container, values))
}

// The value that holds no others.
fn scalar(alloc: Global, kind: &Kind, json: &Json) -> Result<Value, Fail<Path>>
    ensures { Answers plain result (or_stop [] (scalar_of kind.now (view json.now))) }
{
    match scalar_by(alloc, kind, json)? {
        Some(value) => Ok(value),
        None => Err(Fail::Named(Path::root())),
    }
}

// The value of a type of a kind.
#[cycle(value)]
fn value_by(
    alloc: Global,
    table: &TypeTable,
    depth: u32,
    id: TypeId,
    kind: &Kind,
    json: &Json,
) -> Result<Value, Fail<Path>>
    ensures { Answers plain result (value_of_kind table.now (value_in depth table.now) id.0 kind.now (view json.now)) }
{
    match kind {
        Kind::Int(_, _) => scalar(alloc, kind, json),
        Kind::Enum(_, _) => scalar(alloc, kind, json),
        Kind::Bool(_) => scalar(alloc, kind, json),
        Kind::Str(_) => scalar(alloc, kind, json),
        Kind::Bin(_, _) => scalar(alloc, kind, json),
        Kind::Arr(item, _) => items_in(alloc, table, depth, *item, json),
        Kind::Con(_) => fields_in(alloc, table, depth, id, json),
    }
}

// The value of a type, where arrays and objects are nested less than `depth` deep.
#[cycle(value)]
fn value_within(
    alloc: Global,
    table: &TypeTable,
    depth: u32,
    id: TypeId,
    json: &Json,
) -> Result<Value, Fail<Path>>
    ensures { Answers plain result (value_in depth table.now id.0 (view json.now)) }
{
    if depth == 0 {
        return Err(Fail::Named(Path::root()));
    }
    if id.0 >= table.len() {
        return Err(Fail::Named(Path::root()));
    }
    value_by(alloc, table, depth - 1, id, &table.row(id).kind, json)
}

/// The value that JSON stands for where a type is declared, or the path of the first value of a wrong shape.
pub fn value_of_json(
    alloc: Global,
    table: &TypeTable,
    id: TypeId,
    json: &Json,
) -> Result<Value, Fail<Path>>
    ensures { Answers plain result (value_from table.now id.0 (view json.now)) }
{
    value_within(alloc, table, NESTING, id, json)
}

/// The values of arguments, from an object of one member for each: `Named` with no step where it is no such object, else with
/// the path in the first argument of a wrong shape.
#[tactic(auto, unfolding(crate::specs::ValueOfJson::arguments_of_json))]
pub fn arguments_of_json(
    alloc: Global,
    table: &TypeTable,
    entries: &[Entry<'_>],
    json: &Json,
) -> Result<Vec<Value>, Fail<Path>>
    ensures { Answers (λ vs. map plain vs.items) result (arguments_from table.now (map seen entries.now) (view json.now)) }
{
    if !has_members(entries.len(), json, entries) {
        return Err(Fail::Named(Path::root()));
    }
    member_values(alloc, table, NESTING, json, entries)
}
