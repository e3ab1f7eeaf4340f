//! The rows of the table of types.

ghost use Rattle.std.specs.Prelude.{◌≡◌, ◌++◌, ◌∷◌, [], ℕ, map, filter, length, slice_get, true, Some, option_map, IfOk, IfSome, OnOk};
ghost use Rattle.eds_tree.specs.Unsupported.{spells_flag};
ghost use Rattle.eds_type_rows.specs.Places.{is_type};
ghost use Rattle.eds_type_rows.specs.Seats.{seats_of as seats_in};
ghost use Rattle.eds_type_rows.specs.ListFields.{AreEnough};
ghost use Rattle.eds_type_rows.specs.PartRows.{part_at as part_with};
ghost use Rattle.eds_type_rows.specs.FixedValues.{AreRead, kind_set};
ghost use Rattle.eds_type_rows.specs.TableRows.{part_in, is_abstract as is_abstract_at, container_at as container_by, array_kind as array_kind_of, kind_of as kind_by_id, table_row as table_row_of, rows_from, table_rows as table_rows_of};

use crate::base_graph::{BaseGraph, base_found};
use crate::element::{attribute, is_array, is_container};
use crate::entry::{entries_at, has_list, trailers_at};
use crate::items::{ValueCounts, items_at, row_items, value_counts};
use crate::kind::scalar_at;
use crate::list_field::Fields;
use crate::part::{id_or_first, part_at};
use crate::seat::{Seat, seats_of};
use crate::type_id::id_found;
use crate::value_kind::ValueKind;
use crate::value_kinds::ValueKinds;
use eds_base::{Memory, Place, Text};
use eds_names::Declared;
use eds_tree::{Tree, flag_value};
use eds_types::{Constraints, Container, Kind, Parts, TypeRow, TypeRows};
use std::alloc::Global;

/// What rows are read by: a sheet, how many values its index types have, and the kinds of the types that its fixed values name.
#[derive(Drop)]
struct RowReader<'a> {
    first: &'a ValueCounts<'a>,
    kinds: &'a [Option<ValueKind>],
    ghost read: { AreRead first.now.graph.now.sheet.now.trees.now first.now.graph.now.sheet.now.space.now kinds.now } by { Prim.hlevel kind_set },
}

fn is_true(text: Option<&str>) -> bool
    ensures { result ≡ spells_flag true (option_map (λ t. t.now) text.entry) }
{
    text.is_some_and(|text| flag_value(text) == Some(true))
}

/// Whether the container at a place is abstract.
fn is_abstract(trees: &[Tree], at: Place) -> bool
    ensures { result ≡ is_abstract_at trees.now at }
{
    is_true(attribute(trees, "abstract", at))
}

/// The parts at some places, of the container of a number with such parts.
fn parts_read(
    alloc: Global,
    kinds: &ValueKinds,
    id: usize,
    fields: &Fields,
    places: &[Place],
) -> Result<Parts, Memory>
    requires { fields.now.trees.now ≡ kinds.now.graph.now.sheet.now.trees.now }
    ensures { IfOk result (λ p. p ≡ map (part_with kinds.now.graph.now.sheet.now.trees.now kinds.now.graph.now.sheet.now.space.now id fields.now.seats.now) places.now) }
{
    let mut parts = Parts::new(alloc);
    for at in places {
        let part = part_at(alloc, kinds, id, fields, *at)?;
        parts.push(part)?;
    }
    Ok(parts)
}

/// Where the parts of a container and its bases stand, where one of some parts is a list; else nothing, since no other part
/// needs it.
fn seats_for(
    alloc: Global,
    graph: &BaseGraph,
    id: usize,
    parts: &[Place],
) -> Result<Vec<Seat>, Memory>
    ensures { IfOk result (λ s. AreEnough graph.now.sheet.now.trees.now (seats_in graph.now.sheet.now.trees.now graph.now.sheet.now.space.now id) s.items parts.now) }
{
    if has_list(graph.sheet.trees, parts) {
        seats_of(alloc, graph, id)
    } else {
        Ok(Vec::new(alloc))
    }
}

/// Some parts of a container, which may name other parts of its sequence.
fn parts_of(alloc: Global, kinds: &ValueKinds, id: usize, places: &[Place]) -> Result<Parts, Memory>
    ensures { IfOk result (λ p. p ≡ map (part_in kinds.now.graph.now.sheet.now.trees.now kinds.now.graph.now.sheet.now.space.now id) places.now) }
{
    let seats = seats_for(alloc, kinds.graph, id, places)?;
    let fields = Fields::of(alloc, kinds.graph.sheet.trees, &seats)?;
    parts_read(alloc, kinds, id, &fields, places)
}

/// The container at a place, of which the number among all types is given, without its constraints.
fn container_at(
    alloc: Global,
    kinds: &ValueKinds,
    id: usize,
    at: Place,
) -> Result<Container, Memory>
    ensures { IfOk result (λ c. c ≡ container_by kinds.now.graph.now.sheet.now.trees.now kinds.now.graph.now.sheet.now.space.now id at) }
{
    let trees = kinds.graph.sheet.trees;
    let places = entries_at(alloc, trees, at)?;
    let entries = parts_of(alloc, kinds, id, &places)?;
    let places = trailers_at(alloc, trees, at)?;
    let trailers = parts_of(alloc, kinds, id, &places)?;
    Ok(Container {
        hidden: is_abstract(trees, at),
        constraints: Constraints::new(alloc),
        entries,
        trailers,
    })
}

/// An array, by the type of its items and their number.
fn array_kind(alloc: Global, first: &ValueCounts, at: Place) -> Result<Kind, Memory>
    ensures { IfOk result (λ k. k ≡ array_kind_of first.now.graph.now.sheet.now.trees.now first.now.graph.now.sheet.now.space.now at) }
{
    let sheet = first.graph.sheet;
    let item = id_found(alloc, sheet, at, attribute(sheet.trees, "dataTypeRef", at))?;
    let items = items_at(alloc, first, at)?;
    Ok(Kind::Arr(id_or_first(item), row_items(items)))
}

/// What the type at a place is, of which the number among all types is given.
fn kind_of(alloc: Global, reader: &RowReader, id: usize, at: Place) -> Result<Kind, Memory>
    ensures { IfOk result (λ k. k ≡ kind_by_id reader.now.first.now.graph.now.sheet.now.trees.now reader.now.first.now.graph.now.sheet.now.space.now id at) }
{
    let graph = reader.first.graph;
    if is_container(graph.sheet.trees, at) {
        let kinds = ValueKinds {
            graph,
            known: reader.kinds,
        };
        let container = container_at(alloc, &kinds, id, at)?;
        Ok(Kind::Con(container))
    } else if is_array(graph.sheet.trees, at) {
        array_kind(alloc, reader.first, at)
    } else {
        scalar_at(alloc, graph, id, at)
    }
}

/// A declared type as a row.
fn table_row(
    alloc: Global,
    reader: &RowReader,
    id: usize,
    one: &Declared,
) -> Result<TypeRow, Memory>
    ensures { IfOk result (λ row. row ≡ table_row_of reader.now.first.now.graph.now.sheet.now.trees.now reader.now.first.now.graph.now.sheet.now.space.now id one.now) }
{
    let name = Text::of(alloc, one.name.as_str())?;
    let base = base_found(alloc, reader.first.graph.sheet, one.place)?;
    let kind = kind_of(alloc, reader, id, one.place)?;
    Ok(TypeRow { name, base, kind })
}

/// Puts the row of what is declared last, where it is a type.
fn push_row(
    alloc: Global,
    rows: &mut TypeRows,
    reader: &RowReader,
    one: &Declared,
) -> Result<(), Memory>
    ensures { OnOk result (rows.new ≡ rows.old ++ rows_from reader.now.first.now.graph.now.sheet.now.trees.now reader.now.first.now.graph.now.sheet.now.space.now (length rows.old) (filter is_type (one.now ∷ []))) }
{
    if one.item.is_sort() {
        let row = table_row(alloc, reader, rows.len(), one)?;
        rows.push(row)?;
    }
    Ok(())
}

/// A row for each type of what is declared, in order.
fn rows_among(alloc: Global, reader: &RowReader, declared: &[Declared]) -> Result<TypeRows, Memory>
    ensures { IfOk result (λ rows. rows ≡ rows_from reader.now.first.now.graph.now.sheet.now.trees.now reader.now.first.now.graph.now.sheet.now.space.now 0 (filter is_type declared.now)) }
{
    let mut rows = TypeRows::new(alloc);
    for one in declared {
        push_row(alloc, &mut rows, reader, one)?;
    }
    Ok(rows)
}

/// A row for each declared type, in order.
pub fn table_rows(alloc: Global, kinds: &ValueKinds) -> Result<TypeRows, Memory>
    ensures { IfOk result (λ rows. rows ≡ table_rows_of kinds.now.graph.now.sheet.now.trees.now kinds.now.graph.now.sheet.now.space.now) }
{
    let known = value_counts(alloc, kinds.graph)?;
    let first = ValueCounts {
        graph: kinds.graph,
        known: &known,
    };
    let reader = RowReader {
        first: &first,
        kinds: kinds.known,
    };
    rows_among(alloc, &reader, kinds.graph.sheet.space.declared())
}
