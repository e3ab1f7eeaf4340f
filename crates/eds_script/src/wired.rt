//! The ends that stand in wire lines.

ghost use Rattle.std.specs.Prelude.{◌≡◌, ◌||◌, [], ℕ, List, IsFalse, IfOk, OnOk, map, string_bytes};
ghost use Rattle.std.specs.List.{list_any};
ghost use Rattle.eds_base.specs.Reading.{same};
ghost use Rattle.eds_script.specs.Meaning.{tied, wired_in};
ghost use Rattle.eds_script.specs.More.{tied_by};
ghost use Rattle.eds_script.specs.Seen.{is_among, line_of};
ghost use Rattle.eds_script.specs.Words.{form as form_of};

use crate::lines::ScriptLine;
use crate::words::{Saying, form};
use eds_base::Memory;
use eds_plan::Wire;
use indexmap::IndexSet;
use std::alloc::Global;

/// Texts of ends.
pub(crate) type EndSet = IndexSet<String>;

/// Whether an end is in the set.
pub(crate) fn is_held(ends: &EndSet, end: &str) -> bool
    ensures { result ≡ is_among (map string_bytes ends.now.keys) end.now }
{
    ends.contains(end)
}

fn note_end(alloc: Global, ends: &mut EndSet, end: &str) -> Result<(), Memory>
    ensures { OnOk result ((q : List ℕ) → is_among (map string_bytes ends.new.keys) q ≡ (same q end.now || is_among (map string_bytes ends.old.keys) q)) }
{
    if is_held(ends, end) {
        return Ok(());
    }
    let text = String::from_str(alloc, end)?;
    let _added = ends.insert(text)?;
    Ok(())
}

// Whether a line begins as a wire line does; one that doesn't ties no ends.
fn may_tie(line: &[u8]) -> bool
    ensures { IsFalse result → tied (form_of line.now) ≡ [] }
{
    match line {
        [] => false,
        [first, ..] => *first == b'w',
    }
}

fn note_line(alloc: Global, ends: &mut EndSet, line: &[u8]) -> Result<(), Memory>
    ensures { OnOk result ((q : List ℕ) → is_among (map string_bytes ends.new.keys) q ≡ (list_any (same q) (tied (form_of line.now)) || is_among (map string_bytes ends.old.keys) q)) }
{
    if !may_tie(line) {
        return Ok(());
    }
    match form(line) {
        Ok(Saying::Ties(lower, upper)) => {
            note_end(alloc, ends, lower)?;
            note_end(alloc, ends, upper)?;
            Ok(())
        }
        Ok(Saying::Ticks(_)) => Ok(()),
        Ok(Saying::Arrives(_, _, _, _)) => Ok(()),
        Err(_) => Ok(()),
    }
}

/// The ends that stand in a wire line.
pub(crate) fn wired_ends(alloc: Global, lines: &[ScriptLine<'_>]) -> Result<EndSet, Memory>
    ensures { IfOk result (λ s. (q : List ℕ) → is_among (map string_bytes s.keys) q ≡ wired_in (map line_of lines.now) q) }
{
    let mut ends = IndexSet::new(alloc);
    for line in lines {
        note_line(alloc, &mut ends, line.text)?;
    }
    Ok(ends)
}

fn note_wire(alloc: Global, ends: &mut EndSet, wire: &Wire) -> Result<(), Memory>
    ensures { OnOk result ((q : List ℕ) → is_among (map string_bytes ends.new.keys) q ≡ ((same q wire.now.lower || same q wire.now.upper) || is_among (map string_bytes ends.old.keys) q)) }
{
    note_end(alloc, ends, wire.lower.as_str())?;
    note_end(alloc, ends, wire.upper.as_str())?;
    Ok(())
}

/// The ends that stand in wires.
pub(crate) fn ends_of_wires(alloc: Global, wires: &[Wire]) -> Result<EndSet, Memory>
    ensures { IfOk result (λ s. (q : List ℕ) → is_among (map string_bytes s.keys) q ≡ tied_by wires.now q) }
{
    let mut ends = IndexSet::new(alloc);
    for wire in wires {
        note_wire(alloc, &mut ends, wire)?;
    }
    Ok(ends)
}
