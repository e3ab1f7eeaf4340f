//! What has a value in an object: the entries and lists of a container, and arguments.

ghost use Rattle.std.specs.Prelude.{◌≡◌, ◌++◌, map, option_map, option_to_list, Some, IfOk, OnOk};
ghost use Rattle.eds_value.specs.Entries.{entry_by as entry_from, entry_at as entry_in, entries_along as entries_in};
ghost use Rattle.eds_value.specs.Seen.{seen};

use eds_base::{Items, Memory, Step, TypeId};
use eds_types::{Part, TypeTable};
use std::alloc::Global;

/// An entry or list of a container, or an argument.
#[derive(Clone, Copy)]
pub struct Entry<'a> {
    /// The step to it from its container. No step leads to an argument: its path begins at its own value.
    pub step: Option<Step>,
    pub name: &'a str,
    /// Its type, or that of its items.
    pub id: TypeId,
    /// Whether it is a list.
    pub is_list: bool,
}

// The entry at a place, where a part stands there.
fn entry_by(container: TypeId, place: u16, part: &Part) -> Option<Entry<'_>>
    ensures { option_map seen result ≡ entry_from (container, place) (Some part.now) }
{
    match part {
        Part::Plain(name, id) => Some(Entry {
            step: Some(Step::Part(container, place)),
            name: name.as_str(),
            id: *id,
            is_list: false,
        }),
        Part::List(name, id, _, _) => Some(Entry {
            step: Some(Step::Part(container, place)),
            name: name.as_str(),
            id: *id,
            is_list: true,
        }),
        _ => None,
    }
}

fn entry_at(table: &TypeTable, container: TypeId, place: u16) -> Option<Entry<'_>>
    ensures { option_map seen result ≡ entry_in table.now (container, place) }
{
    let part = table.part_at(container, place)?;
    entry_by(container, place, part)
}

fn push_entry<'a>(entries: &mut Items<Entry<'a>>, entry: Option<Entry<'a>>) -> Result<(), Memory>
    ensures { OnOk result (map seen entries.new ≡ map seen entries.old ++ option_to_list (option_map seen entry.entry)) }
{
    match entry {
        Some(entry) => entries.push(entry),
        None => Ok(()),
    }
}

/// The entries and lists of a container and of its bases, in the order of their bits.
pub fn entries_along<'a>(
    alloc: Global,
    table: &'a TypeTable,
    id: TypeId,
) -> Result<Items<Entry<'a>>, Memory>
    ensures { IfOk result (λ es. map seen es ≡ entries_in table.now id.0) }
{
    let sequence = table.sequence_of(alloc, id)?;
    let mut entries = Items::from_vec(Vec::with_capacity(alloc, sequence.len())?);
    for (container, place) in sequence.as_slice() {
        push_entry(&mut entries, entry_at(table, *container, *place))?;
    }
    Ok(entries)
}
