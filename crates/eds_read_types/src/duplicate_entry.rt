//! The rule that no entry of a container has the name of one before it, or of a part of its bases.

ghost use Rattle.std.specs.Prelude.{◌≡◌, ◌∷◌, ◌++◌, ℕ, List, map, string_bytes, IfOk, OnOk};
ghost use Rattle.eds_base.specs.Refusals.{least, first_of};
ghost use Rattle.eds_names.specs.Repeats.{is_among};
ghost use Rattle.eds_read_types.specs.DuplicateEntry.{repeat_of, repeats, names_above};
ghost use Rattle.eds_type_rows.specs.Entries.{named_among as named_in, parts_at as parts_in_order};
ghost use Rattle.eds_types.specs.Rows.{base_of as base_in};

use crate::breaks::broken_with;
use crate::part_names::{BaseNames, Names, note_name};
use crate::sheet_rows::{RowRule, SheetRows};
use eds_base::{Memory, Place, Refusal, Rule};
use eds_tree::Tree;
use eds_type_rows::element::{is_container, own_name};
use eds_type_rows::entry::{named_among, parts_at};
use std::alloc::Global;
use std::collections::BTreeSet;

// Puts an entry's name among those before it in a container. Where it was there, or a base has it, the first of the refusal
// found so far and that of the entry.
fn note_entry(
    alloc: Global,
    above: &BaseNames,
    id: usize,
    before: &mut Names,
    found: Option<Refusal>,
    at: Place,
    name: &str,
) -> Result<Option<Refusal>, Memory>
    ensures found { IfOk result (λ r. r ≡ first_of found (least (repeat_of (map string_bytes before.old.keys ++ names_above 16 above.now.rows.now (base_in above.now.rows.now id)) at name.now))) }
    ensures before { OnOk result ((q : List ℕ) → is_among (map string_bytes before.new.keys ++ names_above 16 above.now.rows.now (base_in above.now.rows.now id)) q ≡ is_among (name.now ∷ (map string_bytes before.old.keys ++ names_above 16 above.now.rows.now (base_in above.now.rows.now id))) q) }
{
    if before.contains(name) || above.have(id, name) {
        let refusal = broken_with(alloc, Rule::DuplicateEntry, at, name)?;
        return Ok(Refusal::first(found, Some(refusal)));
    }
    note_name(alloc, before, name)?;
    Ok(found)
}

/// The least break of some entries of a type.
fn least_repeat(
    alloc: Global,
    trees: &[Tree],
    above: &BaseNames,
    id: usize,
    entries: &[Place],
) -> Result<Option<Refusal>, Memory>
    ensures { IfOk result (λ r. r ≡ least (repeats trees.now (names_above 16 above.now.rows.now (base_in above.now.rows.now id)) entries.now)) }
{
    let mut before = BTreeSet::new(alloc);
    let mut found = None;
    for at in entries {
        found = note_entry(
            alloc,
            above,
            id,
            &mut before,
            found,
            *at,
            own_name(trees, *at),
        )?;
    }
    Ok(found)
}

/// At the entries of a container.
fn least_in_container(
    alloc: Global,
    trees: &[Tree],
    above: &BaseNames,
    id: usize,
    at: Place,
) -> Result<Option<Refusal>, Memory>
    ensures { IfOk result (λ r. r ≡ least (repeats trees.now (names_above 16 above.now.rows.now (base_in above.now.rows.now id)) (named_in trees.now (parts_in_order trees.now at)))) }
{
    let parts = parts_at(alloc, trees, at)?;
    let named = named_among(alloc, trees, &parts)?;
    least_repeat(alloc, trees, above, id, &named)
}

/// No entry of a container has the name of one before it, or of a part of its bases.
pub(crate) struct DuplicateEntry;

impl RowRule for DuplicateEntry {
    ghost use Rattle.eds_read_types.specs.DuplicateEntry.{duplicates_at};

    ghost breaks = { duplicates_at };

    fn least_at(
        alloc: Global,
        sheet: &SheetRows,
        id: usize,
        at: Place,
    ) -> Result<Option<Refusal>, Memory> {
        let trees = sheet.graph.sheet.trees;
        if !is_container(trees, at) {
            return Ok(None);
        }
        let above = BaseNames {
            rows: sheet.rows,
            names: sheet.names,
        };
        least_in_container(alloc, trees, &above, id, at)
    }
}
