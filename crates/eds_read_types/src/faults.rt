//! What the rules on parts and constraints find at one container, and the types from which no such fault is reached.

ghost use Rattle.std.specs.Prelude.{◌≡◌, ◌≤◌, ◌<◌, ◌||◌, ℕ, suc, Bool, false, length, option_map, option_to_list, IfOk};
ghost use Rattle.std.specs.List.{list_any};
ghost use Rattle.eds_base.specs.Refusals.{least};
ghost use Rattle.eds_graph.specs.Reaching.{mark};
ghost use Rattle.eds_nesting.specs.Families.{types_of};
ghost use Rattle.eds_base.specs.declared.ids.TypeId.{TypeId as type_id};
ghost use Rattle.eds_read_types.specs.Kin.{AreMarks};
ghost use Rattle.eds_read_types.specs.Emptiness.{is_empty_part as is_empty_part_of};
ghost use Rattle.eds_read_types.specs.Faults.{length_breaks, element_breaks, part_breaks, is_constraint_broken, has_empty_part as has_empty_part_of, is_faulty_at, is_faulty as is_faulty_type, types_at, reaches_fault, is_unmarked, is_judged};

use crate::breaks::PlaceRule;
use crate::constraint_rules::broken_constraints;
use crate::duplicate_entry::DuplicateEntry;
use crate::emptiness::Emptiness;
use crate::error_control::ErrorControl;
use crate::fixed_value::least_of_type;
use crate::kin::{mark_at, marks_near};
use crate::length_field::{LengthField, LengthScale, SecondLength};
use crate::part_element::AtPartElements;
use crate::rule_list_field::ListField;
use crate::sheet_rows::{AtParts, RowRule, SheetRows, entries_of, trailers_of};
use eds_base::{Memory, Place, Refusal, TypeId};
use eds_type_rows::base_graph::type_at;
use eds_type_rows::value_kinds::ValueKinds;
use eds_types::{Kind, Part, TypeRows};
use std::alloc::Global;

// ---- faults

/// The first break of LengthField at the parts of a type.
fn least_length(
    alloc: Global,
    sheet: &SheetRows,
    id: usize,
    at: Place,
) -> Result<Option<Refusal>, Memory>
    ensures { IfOk result (λ r. r ≡ least (length_breaks sheet.now.graph.now.sheet.now.trees.now sheet.now.graph.now.sheet.now.space.now id at)) }
{
    let scales = AtPartElements::<LengthScale>::least_at(alloc, sheet.graph.sheet, at)?;
    let seconds = SecondLength::least_at(alloc, sheet, id, at)?;
    let others = Refusal::first(scales, seconds);
    let types = AtParts::<LengthField>::least_at(alloc, sheet, id, at)?;
    Ok(Refusal::first(types, others))
}

/// The first break of the rules on the texts and the checks of parts at those of a type.
fn least_element(alloc: Global, sheet: &SheetRows, at: Place) -> Result<Option<Refusal>, Memory>
    ensures { IfOk result (λ r. r ≡ least (element_breaks sheet.now.graph.now.sheet.now.trees.now sheet.now.graph.now.sheet.now.space.now at)) }
{
    let kinds = ValueKinds {
        graph: sheet.graph,
        known: sheet.kinds,
    };
    let texts = least_of_type(alloc, &kinds, at)?;
    let checks = AtPartElements::<ErrorControl>::least_at(alloc, sheet.graph.sheet, at)?;
    Ok(Refusal::first(texts, checks))
}

/// The first break of the rules on parts at those of a type, EmptyType apart.
fn least_fault(
    alloc: Global,
    sheet: &SheetRows,
    id: usize,
    at: Place,
) -> Result<Option<Refusal>, Memory>
    ensures { IfOk result (λ r. r ≡ least (part_breaks sheet.now.graph.now.sheet.now.trees.now sheet.now.graph.now.sheet.now.space.now id at)) }
{
    let lengths = least_length(alloc, sheet, id, at)?;
    let elements = least_element(alloc, sheet, at)?;
    let bits = Refusal::first(lengths, elements);
    let fields = AtParts::<ListField>::least_at(alloc, sheet, id, at)?;
    let others = Refusal::first(fields, bits);
    let names = DuplicateEntry::least_at(alloc, sheet, id, at)?;
    Ok(Refusal::first(names, others))
}

/// Whether one of some parts is an entry or a list of a type that may be empty.
fn has_empty(all: &Emptiness, parts: &[Part]) -> bool
    ensures { result ≡ list_any (is_empty_part_of all.now.rows.now) parts.now }
{
    parts.iter().any(|part| all.is_empty_part(part))
}

/// The same of the parts of a type.
fn has_empty_part(all: &Emptiness, id: usize) -> bool
    ensures { result ≡ has_empty_part_of all.now.rows.now id }
{
    has_empty(all, entries_of(all.rows, id)) || has_empty(all, trailers_of(all.rows, id))
}

/// Whether a constraint of a type breaks a rule, as `broken` tells of each type, or a part is of a type that may be empty.
fn is_broken_otherwise(all: &Emptiness, broken: &[bool], id: usize) -> bool
    ensures { result ≡ (mark broken.now id || has_empty_part_of all.now.rows.now id) }
{
    mark_at(broken, id) || has_empty_part(all, id)
}

/// Whether a part of the type at a place breaks one of these rules or is of a type that may be empty, or a constraint of it breaks
/// one, as `broken` tells of each type.
fn is_faulty_there(
    alloc: Global,
    sheet: &SheetRows,
    all: &Emptiness,
    broken: &[bool],
    id: usize,
    at: Place,
) -> Result<bool, Memory>
    requires rows { all.now.rows.now ≡ sheet.now.rows.now }
    requires told { AreMarks (length sheet.now.rows.now) (is_constraint_broken sheet.now.graph.now.sheet.now.trees.now sheet.now.graph.now.sheet.now.space.now) broken.now }
    requires within { id < length sheet.now.rows.now }
    ensures { IfOk result (λ b. b ≡ is_faulty_at sheet.now.graph.now.sheet.now.trees.now sheet.now.graph.now.sheet.now.space.now id at) }
{
    let fault = least_fault(alloc, sheet, id, at)?;
    if fault.is_some() {
        return Ok(true);
    }
    Ok(is_broken_otherwise(all, broken, id))
}

/// The same of the type of a number.
fn is_faulty(
    alloc: Global,
    sheet: &SheetRows,
    all: &Emptiness,
    broken: &[bool],
    id: usize,
) -> Result<bool, Memory>
    requires rows { all.now.rows.now ≡ sheet.now.rows.now }
    requires told { AreMarks (length sheet.now.rows.now) (is_constraint_broken sheet.now.graph.now.sheet.now.trees.now sheet.now.graph.now.sheet.now.space.now) broken.now }
    requires within { id < length sheet.now.rows.now }
    ensures { IfOk result (λ b. b ≡ is_faulty_type sheet.now.graph.now.sheet.now.trees.now sheet.now.graph.now.sheet.now.space.now id) }
{
    match type_at(sheet.graph, id) {
        None => Ok(false),
        Some(at) => is_faulty_there(alloc, sheet, all, broken, id, at),
    }
}

/// For each type whether it is faulty.
fn all_faulty(alloc: Global, sheet: &SheetRows, all: &Emptiness) -> Result<Vec<bool>, Memory>
    requires { all.now.rows.now ≡ sheet.now.rows.now }
    ensures { IfOk result (λ m. AreMarks (length sheet.now.rows.now) (is_faulty_type sheet.now.graph.now.sheet.now.trees.now sheet.now.graph.now.sheet.now.space.now) m.items) }
{
    let broken = broken_constraints(alloc, sheet)?;
    let mut marks = Vec::new(alloc);
    for id in 0..sheet.rows.len() {
        let faulty = is_faulty(alloc, sheet, all, &broken, id)?;
        marks.push(faulty)?;
    }
    Ok(marks)
}

// ---- what is reached

/// Whether the type of one of some parts is marked.
fn has_marked(marks: &[bool], parts: &[Part]) -> bool
    ensures { result ≡ list_any (mark marks.now) (types_of parts.now) }
{
    let mut rest = parts;
    while let [part, after @ ..] = rest {
        if is_marked(marks, part.type_id()) {
            return true;
        }
        rest = after;
    }
    false
}

/// Whether a type, if there is one, is marked.
fn is_marked(marks: &[bool], id: Option<TypeId>) -> bool
    ensures { result ≡ list_any (mark marks.now) (option_to_list (option_map (λ (i : type_id). i.0) id)) }
{
    id.is_some_and(|id| mark_at(marks, id.0 as usize))
}

/// Whether a type names a marked one, by a part or by its items.
fn names_marked(rows: &TypeRows, marks: &[bool], id: usize) -> bool
    ensures { result ≡ list_any (mark marks.now) (types_at rows.now id) }
{
    match rows.get(id) {
        None => false,
        Some(row) => match &row.kind {
            Kind::Int(_, _) => false,
            Kind::Enum(_, _) => false,
            Kind::Bool(_) => false,
            Kind::Str(_) => false,
            Kind::Bin(_, _) => false,
            Kind::Arr(item, _) => mark_at(marks, item.0 as usize),
            Kind::Con(container) => {
                has_marked(marks, container.entries.as_slice())
                    || has_marked(marks, container.trailers.as_slice())
            }
        },
    }
}

/// Whether a type is faulty or names a marked one.
fn is_next(rows: &TypeRows, faulty: &[bool], marks: &[bool], id: usize) -> bool
    ensures { result ≡ (mark faulty.now id || list_any (mark marks.now) (types_at rows.now id)) }
{
    mark_at(faulty, id) || names_marked(rows, marks, id)
}

/// For each type whether it is faulty or names a marked one.
fn next_marks(
    alloc: Global,
    rows: &TypeRows,
    faulty: &[bool],
    marks: &[bool],
) -> Result<Vec<bool>, Memory>
    ensures { IfOk result (λ m. AreMarks (length rows.now) (λ k. mark faulty.now k || list_any (mark marks.now) (types_at rows.now k)) m.items) }
{
    let mut next = Vec::new(alloc);
    for id in 0..rows.len() {
        next.push(is_next(rows, faulty, marks, id))?;
    }
    Ok(next)
}

/// For each type whether a faulty one is reached over one type more than by these marks.
fn reach_on(
    alloc: Global,
    rows: &TypeRows,
    faulty: &[bool],
    marks: &[bool],
) -> Result<Vec<bool>, Memory>
    ensures { IfOk result (λ m. (n : ℕ) (test : ℕ → Bool) → AreMarks (length rows.now) test faulty.now → ((k : ℕ) → length rows.now ≤ k → test k ≡ false) → AreMarks (length rows.now) (reaches_fault n rows.now test) marks.now → AreMarks (length rows.now) (reaches_fault (suc n) rows.now test) m.items) }
{
    let next = next_marks(alloc, rows, faulty, marks)?;
    marks_near(alloc, rows, &next)
}

/// For each type whether a faulty one is reached from it: no more than 32 types are nested.
fn reach_faulty(alloc: Global, rows: &TypeRows, faulty: &[bool]) -> Result<Vec<bool>, Memory>
    ensures { IfOk result (λ m. (test : ℕ → Bool) → AreMarks (length rows.now) test faulty.now → ((k : ℕ) → length rows.now ≤ k → test k ≡ false) → AreMarks (length rows.now) (reaches_fault 32 rows.now test) m.items) }
{
    let mut marks = vec![in alloc; false; rows.len()]?;
    let mut done: u32 = 0;
    while done < 32 {
        marks = reach_on(alloc, rows, faulty, &marks)?;
        done += 1;
    }
    Ok(marks)
}

/// For each type whether a faulty one is reached from it, so that EmptyType isn't judged for it.
pub(crate) fn faults(alloc: Global, sheet: &SheetRows, all: &Emptiness) -> Result<Vec<bool>, Memory>
    requires { all.now.rows.now ≡ sheet.now.rows.now }
    ensures { IfOk result (λ m. (id : ℕ) → is_unmarked m.items id ≡ is_judged sheet.now.graph.now.sheet.now.trees.now sheet.now.graph.now.sheet.now.space.now id) }
{
    let faulty = all_faulty(alloc, sheet, all)?;
    reach_faulty(alloc, sheet.rows, &faulty)
}
