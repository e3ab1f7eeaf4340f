//! What rows say of a type, looked up by its number, and the parts of each container by their names.

ghost use Rattle.std.specs.Prelude.{◌≡◌, true, map, reverse, slice_get, IfOk};
ghost use Rattle.std.specs.Option.{option_copied};
ghost use Rattle.std.specs.List.{flat_map};
ghost use Rattle.eds_types.specs.Fields.{listed, part_at as part_in};
ghost use Rattle.eds_types.specs.Rows.{address, base_id_in, container_by as container_in_kind, container_of as container_in_rows, entries_in, entries_of as entries_in_rows, trailers_in, trailers_of as trailers_in_rows, is_concrete as is_concrete_in, chain_within, placed_entries, placed_trailers};
ghost use Rattle.eds_constraints.specs.ConstrainedRows.{AreRead};
ghost use Rattle.eds_constraints.specs.Paths.{called as called_of, entry_type as entry_type_of, entry_at as entry_at_place, is_listed as is_listed_in, place_called, first_called};
ghost use Rattle.eds_constraints.specs.Named.{names_of_entries, names_of_trailers, have_few_parts, label_in, listing_in, labels_of as labels_of_row, number_of_label as number_labelled};

use eds_base::{Items, Memory, Text, TypeId};
use eds_names::NameList;
use eds_types::{Container, Kind, Part, TypeRow};
use std::alloc::Global;

/// The row of a type, None exactly where there is no such type.
pub(crate) fn row_of(rows: &[TypeRow], id: TypeId) -> Option<&TypeRow>
    ensures { option_copied result ≡ slice_get rows.now id.0 }
{
    rows.get(id.0 as usize)
}

/// The type that this one derives from.
pub(crate) fn base_of(rows: &[TypeRow], id: TypeId) -> Option<TypeId>
    ensures { result ≡ base_id_in (slice_get rows.now id.0) }
{
    row_of(rows, id)?.base
}

fn container_by(kind: &Kind) -> Option<&Container>
    ensures { option_copied result ≡ container_in_kind kind.now }
{
    match kind {
        Kind::Con(container) => Some(container),
        _ => None,
    }
}

/// The container of a type, None exactly where the type is no container.
pub(crate) fn container_of(rows: &[TypeRow], id: TypeId) -> Option<&Container>
    ensures { option_copied result ≡ container_in_rows rows.now id.0 }
{
    container_by(&row_of(rows, id)?.kind)
}

/// The entries of a container; any other type has none.
fn entries_of(rows: &[TypeRow], id: TypeId) -> &[Part]
    ensures { result.now ≡ entries_in_rows rows.now id.0 }
{
    match container_of(rows, id) {
        Some(container) => container.entries.as_slice(),
        None => &[],
    }
}

/// The trailers of a container; any other type has none.
fn trailers_of(rows: &[TypeRow], id: TypeId) -> &[Part]
    ensures { result.now ≡ trailers_in_rows rows.now id.0 }
{
    match container_of(rows, id) {
        Some(container) => container.trailers.as_slice(),
        None => &[],
    }
}

/// The part at a place among a container's entries and then its trailers, None exactly where there is none.
fn part_at(rows: &[TypeRow], at: (TypeId, u16)) -> Option<&Part>
    ensures { option_copied result ≡ part_in rows.now at }
{
    let entries = entries_of(rows, at.0);
    let place = at.1 as usize;
    if place < entries.len() {
        entries.get(place)
    } else {
        trailers_of(rows, at.0).get(place - entries.len())
    }
}

/// Whether the type is a container that isn't abstract.
pub(crate) fn is_concrete(rows: &[TypeRow], id: TypeId) -> bool
    ensures { result ≡ is_concrete_in rows.now id.0 }
{
    container_of(rows, id).is_some_and(|container| !container.hidden)
}

// ---- entries

fn entry_type(part: &Part) -> Option<TypeId>
    ensures { result ≡ entry_type_of (Some part.now) }
{
    match part {
        Part::Plain(_, id) => Some(*id),
        _ => None,
    }
}

/// A place with the type of the entry there, None exactly where no entry is there.
pub(crate) fn entry_at(rows: &[TypeRow], at: (TypeId, u16)) -> Option<((TypeId, u16), TypeId)>
    ensures { result ≡ entry_at_place rows.now at }
{
    let id = entry_type(part_at(rows, at)?)?;
    Some((at, id))
}

/// Whether a place is one of a container's entries, and not of its trailers.
pub(crate) fn is_listed(rows: &[TypeRow], at: (TypeId, u16)) -> bool
    ensures { result ≡ is_listed_in rows.now at }
{
    (at.1 as usize) < entries_of(rows, at.0).len()
}

// ---- names

fn called(part: &Part) -> &str
    ensures { result.now ≡ called_of part.now }
{
    match part {
        Part::Plain(name, _) => name.as_str(),
        Part::Fixed(Some(name), _, _) => name.as_str(),
        Part::Fixed(None, _, _) => "",
        Part::Pad(_) => "",
        Part::List(name, _, _, _) => name.as_str(),
        Part::Length(name, _, _, _) => name.as_str(),
        Part::Check(name, _, _) => name.as_str(),
    }
}

fn named_list(alloc: Global, parts: &[Part]) -> Result<NameList, Memory>
    ensures { IfOk result (λ l. l ≡ map called_of parts.now) }
{
    let mut names = Vec::new(alloc);
    for part in parts {
        names.push(Text::of(alloc, called(part))?)?;
    }
    NameList::of(alloc, names)
}

fn entry_list(alloc: Global, kind: &Kind) -> Result<NameList, Memory>
    ensures { IfOk result (λ l. l ≡ map called_of (entries_in (container_in_kind kind.now))) }
{
    match container_by(kind) {
        Some(container) => named_list(alloc, container.entries.as_slice()),
        None => named_list(alloc, &[]),
    }
}

fn trailer_list(alloc: Global, kind: &Kind) -> Result<NameList, Memory>
    ensures { IfOk result (λ l. l ≡ map called_of (trailers_in (container_in_kind kind.now))) }
{
    match container_by(kind) {
        Some(container) => named_list(alloc, container.trailers.as_slice()),
        None => named_list(alloc, &[]),
    }
}

fn entry_lists(alloc: Global, rows: &[TypeRow]) -> Result<Items<NameList>, Memory>
    ensures { IfOk result (λ l. l ≡ map names_of_entries rows.now) }
{
    let mut lists = Items::new(alloc);
    for row in rows {
        lists.push(entry_list(alloc, &row.kind)?)?;
    }
    Ok(lists)
}

fn trailer_lists(alloc: Global, rows: &[TypeRow]) -> Result<Items<NameList>, Memory>
    ensures { IfOk result (λ l. l ≡ map names_of_trailers rows.now) }
{
    let mut lists = Items::new(alloc);
    for row in rows {
        lists.push(trailer_list(alloc, &row.kind)?)?;
    }
    Ok(lists)
}

// ---- labels

fn listing_of(kind: &Kind) -> &[(Text, i128)]
    ensures { result.now ≡ listing_in kind.now }
{
    match kind {
        Kind::Enum(_, listing) => listing.as_slice(),
        _ => &[],
    }
}

fn label_list(alloc: Global, kind: &Kind) -> Result<NameList, Memory>
    ensures { IfOk result (λ l. l ≡ map label_in (listing_in kind.now)) }
{
    let mut labels = Vec::new(alloc);
    for entry in listing_of(kind) {
        labels.push(Text::of(alloc, entry.0.as_str())?)?;
    }
    NameList::of(alloc, labels)
}

fn label_lists(alloc: Global, rows: &[TypeRow]) -> Result<Items<NameList>, Memory>
    ensures { IfOk result (λ l. l ≡ map labels_of_row rows.now) }
{
    let mut lists = Items::new(alloc);
    for row in rows {
        lists.push(label_list(alloc, &row.kind)?)?;
    }
    Ok(lists)
}

// The number of a label in a listing, of which the labels are given.
fn number_listed(listing: &[(Text, i128)], labels: &NameList, label: &str) -> Option<i128>
    requires { labels.now ≡ map label_in listing.now }
    ensures { result ≡ listed listing.now label.now }
{
    let at = labels.position(label)?;
    let entry = listing.get(at)?;
    Some(entry.1)
}

/// Rows, with the names of the entries and of the trailers of each, and its labels.
#[derive(Drop)]
pub(crate) struct NamedRows<'a> {
    pub(crate) rows: &'a [TypeRow],
    entries: Items<NameList>,
    trailers: Items<NameList>,
    labels: Items<NameList>,
    ghost entry_names: { entries ≡ map names_of_entries rows.now },
    ghost trailer_names: { trailers ≡ map names_of_trailers rows.now },
    ghost label_names: { labels ≡ map labels_of_row rows.now },
    ghost small: { have_few_parts rows.now ≡ true },
}

impl<'a> NamedRows<'a> {
    /// The names of rows.
    pub(crate) fn of(alloc: Global, rows: &'a [TypeRow]) -> Result<NamedRows<'a>, Memory>
        requires { AreRead rows.now }
        ensures { IfOk result (λ n. n.rows.now ≡ rows.now) }
    {
        let entries = entry_lists(alloc, rows)?;
        let trailers = trailer_lists(alloc, rows)?;
        let labels = label_lists(alloc, rows)?;
        Ok(NamedRows {
            rows,
            entries,
            trailers,
            labels,
        })
    }

    /// The number of a label of an enumerated type, None exactly where the type has no such label.
    pub(crate) fn number_of_label(&self, id: TypeId, label: &str) -> Option<i128>
        ensures { result ≡ number_labelled self.now.rows.now id.0 label.now }
    {
        let row = row_of(self.rows, id)?;
        let labels = self.labels.get(id.0 as usize)?;
        number_listed(listing_of(&row.kind), labels, label)
    }

    // Where the first of a container's own entries with a name stands.
    fn own_entry(&self, id: TypeId, name: &str) -> Option<(TypeId, u16)>
        ensures { result ≡ place_called self.now.rows.now name.now (map address (placed_entries self.now.rows.now id.0)) }
    {
        let names = self.entries.get(id.0 as usize)?;
        let place = names.position(name)?;
        Some((id, place as u16))
    }

    // The same among its trailers.
    fn own_trailer(&self, id: TypeId, name: &str) -> Option<(TypeId, u16)>
        ensures { result ≡ place_called self.now.rows.now name.now (map address (placed_trailers self.now.rows.now id.0)) }
    {
        let first = entries_of(self.rows, id).len();
        let names = self.trailers.get(id.0 as usize)?;
        let place = names.position(name)?;
        Some((id, (first + place) as u16))
    }

    /// Where the first part with a name stands in the sequence of a type.
    pub(crate) fn first_called(&self, id: TypeId, name: &str) -> Option<(TypeId, u16)>
        ensures { result ≡ first_called self.now.rows.now id.0 name.now }
    {
        match entry_within(self, 16, id, name) {
            Some(at) => Some(at),
            None => trailer_within(self, 16, id, name),
        }
    }
}

// The first entry with a name, from the root down, among the last types of a chain.
fn entry_within(names: &NamedRows, most: u32, id: TypeId, name: &str) -> Option<(TypeId, u16)>
    ensures { result ≡ place_called names.now.rows.now name.now (map address (flat_map (placed_entries names.now.rows.now) (chain_within most names.now.rows.now id.0))) }
{
    if most == 0 {
        return None;
    }
    match base_of(names.rows, id) {
        None => names.own_entry(id, name),
        Some(base) => match entry_within(names, most - 1, base, name) {
            Some(at) => Some(at),
            None => names.own_entry(id, name),
        },
    }
}

// The first trailer with a name, from the type up.
fn trailer_within(names: &NamedRows, most: u32, id: TypeId, name: &str) -> Option<(TypeId, u16)>
    ensures { result ≡ place_called names.now.rows.now name.now (map address (flat_map (placed_trailers names.now.rows.now) (reverse (chain_within most names.now.rows.now id.0)))) }
{
    if most == 0 {
        return None;
    }
    match names.own_trailer(id, name) {
        Some(at) => Some(at),
        None => match base_of(names.rows, id) {
            None => None,
            Some(base) => trailer_within(names, most - 1, base, name),
        },
    }
}
