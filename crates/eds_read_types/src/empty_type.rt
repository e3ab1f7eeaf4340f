//! The rule that a type which is named has bits.

ghost use Rattle.std.specs.Prelude.{◌≡◌, option_map, IfOk};
ghost use Rattle.eds_base.specs.declared.ids.TypeId.{TypeId as type_id};
ghost use Rattle.eds_base.specs.Refusals.{least};
ghost use Rattle.eds_read_types.specs.Breaks.{breaks_over};
ghost use Rattle.eds_read_types.specs.Parts.{judged_part, judged_parts, at_rows};
ghost use Rattle.eds_read_types.specs.Emptiness.{item_of as item_of_row};
ghost use Rattle.eds_read_types.specs.Faults.{is_unmarked, passes_type};
ghost use Rattle.eds_read_types.specs.EmptyType.{empty_where as empty_where_at, empty_part_at, empty_item_at, empty_item_by, empty_word, empties as empties_of, breaks_empty};

use crate::breaks::broken;
use crate::emptiness::{Emptiness, item_of};
use crate::faults::faults;
use crate::hollow::hollows;
use crate::kin::mark_at;
use crate::rules::SheetRule;
use crate::sheet_rows::{SheetRows, part_of};
use eds_base::{Memory, Place, Refusal, Rule, TypeId};
use eds_type_rows::entry::own_parts_at;
use eds_type_rows::type_id::word_type;
use std::alloc::Global;

// ---- at parts, arrays and the TYPE word

/// The refusal where a type may be empty.
fn empty_where(empty: bool, at: Place) -> Option<Refusal>
    ensures { result ≡ least (empty_where_at empty at) }
{
    if empty {
        Some(broken(Rule::EmptyType, at))
    } else {
        None
    }
}

/// Whether a type is not among those that are marked.
fn is_judged(marks: &[bool], id: Option<TypeId>) -> bool
    ensures { result ≡ passes_type (is_unmarked marks.now) (option_map (λ (i : type_id). i.0) id) }
{
    id.is_some_and(|id| !mark_at(marks, id.0 as usize))
}

/// At the part of a position in a container, unless its type is marked.
fn least_part(
    all: &Emptiness,
    marks: &[bool],
    container: usize,
    index: usize,
    at: Place,
) -> Option<Refusal>
    ensures { result ≡ least (judged_part (empty_part_at (is_unmarked marks.now)) all.now.rows.now container index at) }
{
    let part = part_of(all.rows, container, index)?;
    empty_where(
        is_judged(marks, part.type_id()) && all.is_empty_part(part),
        at,
    )
}

/// At the parts of a container, of which the elements are given.
fn least_of_parts(
    all: &Emptiness,
    marks: &[bool],
    container: usize,
    places: &[Place],
) -> Option<Refusal>
    ensures { result ≡ least (breaks_over (judged_part (empty_part_at (is_unmarked marks.now)) all.now.rows.now container) 0 places.now) }
{
    let mut found = None;
    for index in 0..places.len() {
        let here = least_part(all, marks, container, index, places[index]);
        found = Refusal::first(found, here);
    }
    found
}

/// At the parts of all types.
fn least_of_all_parts(
    alloc: Global,
    sheet: &SheetRows,
    all: &Emptiness,
    marks: &[bool],
) -> Result<Option<Refusal>, Memory>
    requires { all.now.rows.now ≡ sheet.now.rows.now }
    ensures { IfOk result (λ r. r ≡ least (at_rows (judged_parts (empty_part_at (is_unmarked marks.now))) sheet.now.graph.now.sheet.now.trees.now sheet.now.graph.now.sheet.now.space.now)) }
{
    let types = sheet.graph.sheet.types;
    let mut found = None;
    for id in 0..types.len() {
        let places = own_parts_at(alloc, sheet.graph.sheet.trees, types[id])?;
        found = Refusal::first(found, least_of_parts(all, marks, id, &places));
    }
    Ok(found)
}

/// At one type, where it is an array, unless the type of its items is marked.
fn least_item(all: &Emptiness, marks: &[bool], id: usize, at: Place) -> Option<Refusal>
    ensures { result ≡ least (empty_item_by (is_unmarked marks.now) all.now.rows.now at (item_of_row all.now.rows.now id)) }
{
    let item = item_of(all.rows, id)?;
    empty_where(is_judged(marks, Some(item)) && all.may_be_empty(item), at)
}

/// At all arrays.
fn least_of_items(sheet: &SheetRows, all: &Emptiness, marks: &[bool]) -> Option<Refusal>
    requires { all.now.rows.now ≡ sheet.now.rows.now }
    ensures { result ≡ least (at_rows (empty_item_at (is_unmarked marks.now)) sheet.now.graph.now.sheet.now.trees.now sheet.now.graph.now.sheet.now.space.now) }
{
    let types = sheet.graph.sheet.types;
    let mut found = None;
    for id in 0..types.len() {
        found = Refusal::first(found, least_item(all, marks, id, types[id]));
    }
    found
}

/// At the TYPE word.
fn least_of_word(
    alloc: Global,
    sheet: &SheetRows,
    all: &Emptiness,
    marks: &[bool],
) -> Result<Option<Refusal>, Memory>
    requires { all.now.rows.now ≡ sheet.now.rows.now }
    ensures { IfOk result (λ r. r ≡ least (empty_word (is_unmarked marks.now) sheet.now.graph.now.sheet.now.trees.now sheet.now.graph.now.sheet.now.space.now (option_map (λ w. w.now) sheet.now.graph.now.sheet.now.asked))) }
{
    let named = sheet.graph.sheet;
    match word_type(alloc, named)? {
        None => Ok(None),
        Some(id) => Ok(empty_where(
            is_judged(marks, Some(id)) && all.may_be_empty(id),
            named.word_place(),
        )),
    }
}

/// At all of them.
fn least_of_empties(
    alloc: Global,
    sheet: &SheetRows,
    all: &Emptiness,
    marks: &[bool],
) -> Result<Option<Refusal>, Memory>
    requires { all.now.rows.now ≡ sheet.now.rows.now }
    ensures { IfOk result (λ r. r ≡ least (empties_of (is_unmarked marks.now) sheet.now.graph.now.sheet.now.trees.now sheet.now.graph.now.sheet.now.space.now (option_map (λ w. w.now) sheet.now.graph.now.sheet.now.asked))) }
{
    let parts = least_of_all_parts(alloc, sheet, all, marks)?;
    let word = least_of_word(alloc, sheet, all, marks)?;
    let items = least_of_items(sheet, all, marks);
    Ok(Refusal::first(parts, Refusal::first(items, word)))
}

// ---- the rule

/// The same for the types from which no faulty one is reached.
fn least_of_judged(
    alloc: Global,
    sheet: &SheetRows,
    all: &Emptiness,
) -> Result<Option<Refusal>, Memory>
    requires { all.now.rows.now ≡ sheet.now.rows.now }
    ensures { IfOk result (λ r. r ≡ least (breaks_empty sheet.now.graph.now.sheet.now.trees.now sheet.now.graph.now.sheet.now.space.now (option_map (λ w. w.now) sheet.now.graph.now.sheet.now.asked))) }
{
    let faults = faults(alloc, sheet, all)?;
    least_of_empties(alloc, sheet, all, &faults)
}

/// The type of an entry, of a list's items or of an array's, and the one that the TYPE word names, has bits.
pub(crate) struct EmptyType;

impl SheetRule for EmptyType {
    ghost use Rattle.eds_read_types.specs.EmptyType.{breaks_empty};

    ghost breaks = { breaks_empty };

    fn least(alloc: Global, sheet: &SheetRows) -> Result<Option<Refusal>, Memory> {
        let hollow = hollows(alloc, sheet.rows)?;
        let all = Emptiness {
            rows: sheet.rows,
            hollow: &hollow,
        };
        // what a sheet has no break of by itself needs no search for faults
        let found = least_of_empties(alloc, sheet, &all, &[])?;
        match found {
            None => Ok(None),
            Some(_) => least_of_judged(alloc, sheet, &all),
        }
    }
}
