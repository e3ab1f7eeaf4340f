//! What a reference to a variable or an argument finds.

ghost use Rattle.std.specs.Prelude.{◌≡◌, ◌≤◌, [], ◌∷◌, Some, IfOk, length, option_map};
ghost use Rattle.std.specs.Option.{option_copied};
ghost use Rattle.eds_read_act.specs.Naming.{names_in, names_after, octets_left, entry_type as entry_type_of, entry_at as entry_at_place, entry_named as entry_of, short as short_of, follow as follow_names, follow_if, field_named as field_of, found_in as found_by_text, fields_of};

use crate::component::Component;
use crate::entry_names::NamedTable;
use crate::fields::Fields;
use eds_base::{Items, Memory, TypeId};
use eds_types::{EntryPath, Part, TypeTable};
use std::alloc::Global;

/// What a reference finds: a variable or argument by its position, the path to an entry of it, and the type there.
#[derive(Drop)]
pub(crate) struct Found {
    pub(crate) at: u16,
    pub(crate) path: EntryPath,
    pub(crate) id: TypeId,
}

fn entry_type(part: &Part) -> Option<TypeId>
    ensures { result ≡ entry_type_of (Some part.now) }
{
    match part {
        Part::Plain(_, id) => Some(*id),
        _ => None,
    }
}

fn entry_at(table: &TypeTable, at: (TypeId, u16)) -> Option<((TypeId, u16), TypeId)>
    ensures { result ≡ entry_at_place table.now at }
{
    let part = table.part_at(at.0, at.1)?;
    let id = entry_type(part)?;
    Some((at, id))
}

// The entry of a name in a container, where the first part of that name is one.
fn entry_named(table: &NamedTable, id: TypeId, name: &str) -> Option<((TypeId, u16), TypeId)>
    ensures { result ≡ entry_of table.now id name.now }
{
    let at = table.first_named(id, name)?;
    entry_at(table.types(), at)
}

/// A number as it stands in a plan.
pub(crate) fn short(n: usize) -> u16
    ensures { result ≡ short_of n }
{
    if n <= 65535 { n as u16 } else { 65535 }
}

// The names of a text: the first, and the rest behind its point.
fn first_name(text: &str) -> (&str, Option<&str>)
    ensures names { names_in text.now ≡ result.0.now ∷ names_after (option_map (λ t. t.now) result.1) }
    ensures shorter { octets_left (option_map (λ t. t.now) result.1) ≤ length text.now }
{
    match text.split_once('.') {
        Some((first, rest)) => (first, Some(rest)),
        None => (text, None),
    }
}

// From what was found on, by the names of a text.
fn follow(table: &NamedTable, found: Found, names: &str) -> Result<Option<Found>, Memory>
    ensures { IfOk result (λ f. f ≡ follow_names table.now found (names_in names.now)) }
{
    let mut found = found;
    let mut rest = Some(names);
    while let Some(text) = rest {
        let (name, after) = first_name(text);
        match entry_named(table, found.id, name) {
            None => return Ok(None),
            Some((place, id)) => {
                found.path.push(place)?;
                found.id = id;
            }
        }
        rest = after;
    }
    Ok(Some(found))
}

// A whole variable or argument, by its position and type.
fn whole(alloc: Global, at: usize, id: TypeId) -> Found
    ensures { result ≡ record { at = short_of at; path = []; id = id } }
{
    Found {
        at: short(at),
        path: Items::new(alloc),
        id,
    }
}

/// The variable of a name.
pub(crate) fn variable_named(alloc: Global, component: &Component, name: &str) -> Option<Found>
    ensures { result ≡ field_of (fields_of component.now.variables.now) name.now }
{
    let (at, variable) = component.variable(name)?;
    Some(whole(alloc, at, variable.id))
}

/// The field of a name.
pub(crate) fn field_named(alloc: Global, fields: &Fields, name: &str) -> Option<Found>
    ensures { result ≡ field_of fields.now name.now }
{
    let (at, field) = fields.field(name)?;
    Some(whole(alloc, at, field.1))
}

fn found_behind(
    table: &NamedTable,
    found: Option<Found>,
    rest: Option<&str>,
) -> Result<Option<Found>, Memory>
    ensures { IfOk result (λ f. f ≡ follow_if table.now found (names_after (option_map (λ t. t.now) rest.entry))) }
{
    match found {
        None => Ok(None),
        Some(found) => match rest {
            None => Ok(Some(found)),
            Some(names) => follow(table, found, names),
        },
    }
}

/// What a text finds among variables.
pub(crate) fn variable_in(
    alloc: Global,
    table: &NamedTable,
    component: &Component,
    text: &str,
) -> Result<Option<Found>, Memory>
    ensures { IfOk result (λ f. f ≡ found_by_text table.now (fields_of component.now.variables.now) text.now) }
{
    let (name, rest) = first_name(text);
    let found = variable_named(alloc, component, name);
    found_behind(table, found, rest)
}

/// What a text finds among fields.
pub(crate) fn field_in(
    alloc: Global,
    table: &NamedTable,
    fields: &Fields,
    text: &str,
) -> Result<Option<Found>, Memory>
    ensures { IfOk result (λ f. f ≡ found_by_text table.now fields.now text.now) }
{
    let (name, rest) = first_name(text);
    let found = field_named(alloc, fields, name);
    found_behind(table, found, rest)
}
