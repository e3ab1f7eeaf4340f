//! The types of a sheet, whose entries are found by hash of their names.

ghost use Rattle.std.specs.Prelude.{◌≡◌, ◌+◌, ◌≤◌, length, reverse, option_map, IfOk};
ghost use Rattle.std.specs.List.{flat_map};
ghost use Rattle.eds_types.specs.Rows.{entry_places, trailer_places};
ghost use Rattle.eds_read_act.specs.EntryNames.{name_of as name_of_part, index_from, index_of as index_in_table, index_of_all};
ghost use Rattle.eds_read_act.specs.FirstPlaces.{first_place};

use eds_base::{Items, Memory, Text, TypeId};
use eds_names::NameList;
use eds_types::{Part, TypeTable};
use std::alloc::Global;
use std::marker::Model;

/// The names of some parts, and beside them their places. Parts without a name are left out.
#[derive(Drop)]
struct NamedParts {
    names: NameList,
    places: Items<u16>,
}

/// The names of a container's own entries, and those of its own trailers.
#[derive(Drop)]
struct OwnNames {
    entries: NamedParts,
    trailers: NamedParts,
}

/// The types of a sheet, with the names of the parts of each, so that an entry is found by hash. Contracts see the table alone.
#[derive(Drop)]
pub struct NamedTable<'a> {
    types: &'a TypeTable,
    own: Items<OwnNames>,
}

impl<'a> Model for NamedTable<'a> {
    ghost use Rattle.std.specs.Prelude.{◌≡◌, List};
    ghost use Rattle.std.specs.Coded.{codes};
    ghost use Rattle.eds_types.specs.declared.row.TypeRow.{TypeRow};
    ghost use Rattle.eds_types.specs.contracts.value.Value as value;
    ghost use Rattle.eds_read_act.specs.EntryNames.{index_of_all};

    ghost Value = { List TypeRow };

    ghost coded = { Prim.hlevel (codes, value.the_row.coded) };

    ghost view = { λ n. n.types.now };

    ghost invariant = { λ n. n.own ≡ index_of_all n.types.now };
}

// ---- the index

// The name of a part, where it has one.
fn name_of(part: &Part) -> Option<&str>
    ensures { option_map (λ n. n.now) result ≡ name_of_part part.now }
{
    match part {
        Part::Plain(own, _) => Some(own.as_str()),
        Part::Fixed(Some(own), _, _) => Some(own.as_str()),
        Part::Fixed(None, _, _) => None,
        Part::Pad(_) => None,
        Part::List(own, _, _, _) => Some(own.as_str()),
        Part::Length(own, _, _, _) => Some(own.as_str()),
        Part::Check(own, _, _) => Some(own.as_str()),
    }
}

// The names of some parts, of which the first has this place.
fn named_parts(alloc: Global, first: u16, parts: &[Part]) -> Result<NamedParts, Memory>
    requires { first + length parts.now ≤ 65535 }
    ensures { IfOk result (λ n. n ≡ index_from first parts.now) }
{
    let mut names = Vec::new(alloc);
    let mut places = Items::new(alloc);
    let mut place = first;
    for part in parts {
        if let Some(name) = name_of(part) {
            names.push(Text::of(alloc, name)?)?;
            places.push(place)?;
        }
        place += 1;
    }
    let names = NameList::of(alloc, names)?;
    Ok(NamedParts { names, places })
}

fn index_of(alloc: Global, table: &TypeTable, id: TypeId) -> Result<OwnNames, Memory>
    ensures { IfOk result (λ o. o ≡ index_in_table table.now id.0) }
{
    let own = table.entries_of(id);
    let entries = named_parts(alloc, 0, own)?;
    let trailers = named_parts(alloc, own.len() as u16, table.trailers_of(id))?;
    Ok(OwnNames { entries, trailers })
}

fn indices_of(alloc: Global, table: &TypeTable) -> Result<Items<OwnNames>, Memory>
    ensures { IfOk result (λ o. o ≡ index_of_all table.now) }
{
    let mut own = Items::new(alloc);
    for id in 0..table.len() {
        own.push(index_of(alloc, table, TypeId(id))?)?;
    }
    Ok(own)
}

// ---- look-ups

impl NamedParts {
    ghost use Rattle.std.specs.Prelude.{◌≡◌};
    ghost use Rattle.eds_read_act.specs.EntryNames.{place_in};

    // The place of the first part of a name.
    fn place(&self, name: &str) -> Option<u16>
        ensures { result ≡ place_in self.now name.now }
    {
        let at = self.names.position(name)?;
        self.places.get(at).copied()
    }
}

impl<'a> NamedTable<'a> {
    ghost use Rattle.std.specs.Prelude.{◌≡◌, IfOk};
    ghost use Rattle.eds_types.specs.Rows.{entry_places, trailer_places};
    ghost use Rattle.eds_read_act.specs.FirstPlaces.{first_place, first_named as first_in_sequence};

    /// These types.
    pub fn of(alloc: Global, types: &'a TypeTable) -> Result<NamedTable<'a>, Memory>
        ensures { IfOk result (λ n. n ≡ types.now) }
    {
        let own = indices_of(alloc, types)?;
        Ok(NamedTable { types, own })
    }

    /// The types alone.
    pub fn types(&self) -> &'a TypeTable
        ensures { result.now ≡ self.now }
    {
        self.types
    }

    // The place of the first of a container's own entries that has a name.
    fn own_entry(&self, id: TypeId, name: &str) -> Option<(TypeId, u16)>
        ensures { result ≡ first_place self.now name.now (entry_places self.now id) }
    {
        let own = self.own.get(id.0 as usize)?;
        let place = own.entries.place(name)?;
        Some((id, place))
    }

    // The same among its own trailers.
    fn own_trailer(&self, id: TypeId, name: &str) -> Option<(TypeId, u16)>
        ensures { result ≡ first_place self.now name.now (trailer_places self.now id) }
    {
        let own = self.own.get(id.0 as usize)?;
        let place = own.trailers.place(name)?;
        Some((id, place))
    }

    /// The place of the first part with a name in the sequence of a type.
    pub(crate) fn first_named(&self, id: TypeId, name: &str) -> Option<(TypeId, u16)>
        ensures { result ≡ first_in_sequence self.now id name.now }
    {
        let chain = self.types.chain_of(id);
        match first_entry(self, chain.as_slice(), name) {
            Some(at) => Some(at),
            None => first_trailer(self, chain.as_slice(), name),
        }
    }
}

// The place of the first entry of a name, from the first of some containers on.
fn first_entry(table: &NamedTable, chain: &[TypeId], name: &str) -> Option<(TypeId, u16)>
    ensures { result ≡ first_place table.now name.now (flat_map (entry_places table.now) chain.now) }
{
    let mut rest = chain;
    while let [id, after @ ..] = rest {
        match table.own_entry(*id, name) {
            None => rest = after,
            Some(at) => return Some(at),
        }
    }
    None
}

// The place of the first trailer of a name, from the last of some containers back.
fn first_trailer(table: &NamedTable, chain: &[TypeId], name: &str) -> Option<(TypeId, u16)>
    requires { length chain.now ≤ 16 }
    ensures { result ≡ first_place table.now name.now (flat_map (trailer_places table.now) (reverse chain.now)) }
{
    let mut rest = chain;
    while let [before @ .., id] = rest {
        match table.own_trailer(*id, name) {
            None => rest = before,
            Some(at) => return Some(at),
        }
    }
    None
}
