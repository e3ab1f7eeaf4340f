//! The refusal of a sheet with two containers that overlap.

ghost use Rattle.std.specs.Prelude.{◌≡◌, ◌++◌, IfOk, OnOk, map};
ghost use Rattle.eds_overlap.specs.Notes.{common_note, note_of as note_by_names, refusal_of, type_name as name_of_type};

use crate::texts::path_text;
use crate::{Common, Overlap};
use eds_base::{
    Boxed, CommonNumber, Items, Kept, Memory, OverlapNote, Place, Refusal, Rule, Text, TypeId,
};
use eds_types::TypeTable;
use std::alloc::Global;

fn type_name(table: &TypeTable, id: TypeId) -> &str
    ensures { result.now ≡ name_of_type table.now id.0 }
{
    if id.0 < table.len() {
        table.row(id).name.as_str()
    } else {
        ""
    }
}

// The common numbers, each with the text of its path.
fn common_notes(
    alloc: Global,
    table: &TypeTable,
    common: &[Common],
) -> Result<Items<CommonNumber>, Memory>
    ensures { IfOk result (λ notes. notes ≡ map (common_note table.now) common.now) }
{
    let mut notes = Items::new(alloc);
    for one in common {
        let path = path_text(alloc, table, one.path.as_slice())?;
        let number = one.number;
        notes.push(CommonNumber { path, number })?;
    }
    Ok(notes)
}

// Both containers, their nearest common base and their common numbers, by names.
fn note_of(alloc: Global, table: &TypeTable, overlap: &Overlap) -> Result<OverlapNote, Memory>
    ensures { IfOk result (λ note. note ≡ note_by_names table.now overlap.now) }
{
    let first = Text::of(alloc, type_name(table, overlap.first))?;
    let second = Text::of(alloc, type_name(table, overlap.second))?;
    let ancestor = Text::of(alloc, type_name(table, overlap.ancestor))?;
    let common = common_notes(alloc, table, overlap.common.as_slice())?;
    Ok(OverlapNote {
        first,
        second,
        ancestor,
        common,
    })
}

/// The refusal of two containers that overlap, at the place of the later one: it keeps the qualified names of both and of
/// their nearest common base, and the text of each common number's path.
pub fn overlap_refusal(
    alloc: Global,
    table: &TypeTable,
    overlap: &Overlap,
    place: Place,
) -> Result<Refusal, Memory>
    ensures { IfOk result (λ refusal. refusal ≡ refusal_of table.now overlap.now place) }
{
    let note = Boxed::new(alloc, note_of(alloc, table, overlap)?)?;
    Ok(Refusal {
        rule: Rule::Overlap,
        place,
        kept: Kept::Overlap(note),
    })
}
