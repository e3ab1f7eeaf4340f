//! The names of parts of the types that others derive from. They stand in order: no choice of names makes a look-up long.

ghost use Rattle.std.specs.Prelude.{◌≡◌, ◌<◌, ◌≤◌, ◌+◌, ◌∷◌, ◌++◌, ◌||◌, ◌==◌, [], ℕ, List, true, false, length, map, string_bytes, IfOk, OnOk};
ghost use Rattle.eds_graph.specs.Reaching.{mark};
ghost use Rattle.eds_names.specs.Repeats.{is_among};
ghost use Rattle.eds_read_types.specs.DuplicateEntry.{names_in, names_above};
ghost use Rattle.eds_read_types.specs.PartNames.{AreBases, AreNames, names_at as names_held};
ghost use Rattle.eds_types.specs.Rows.{container_of, base_of as base_in};
ghost use Rattle.eds_types.specs.Rules.{name_of};
ghost use Rattle.std.specs.List.{filter_map};

use crate::kin::{mark_at, set_mark};
use crate::sheet_rows::{base_of, entries_of, trailers_of};
use eds_base::Memory;
use eds_types::{Part, TypeRows};
use std::alloc::Global;
use std::collections::BTreeSet;

/// Some names.
pub(crate) type Names = BTreeSet<String>;

// ---- one name more

/// Puts a name among others, where it is not there yet.
pub(crate) fn note_name(alloc: Global, names: &mut Names, name: &str) -> Result<(), Memory>
    ensures { OnOk result ((q : List ℕ) → is_among (map string_bytes names.new.keys) q ≡ is_among (name.now ∷ map string_bytes names.old.keys) q) }
{
    if names.contains(name) {
        return Ok(());
    }
    let name = String::from_str(alloc, name)?;
    let _added = names.insert(name)?;
    Ok(())
}

/// Puts the name of a part among others, where it has one.
fn note_part(alloc: Global, names: &mut Names, part: &Part) -> Result<(), Memory>
    ensures { OnOk result ((q : List ℕ) → is_among (map string_bytes names.new.keys) q ≡ is_among (filter_map name_of (part.now ∷ []) ++ map string_bytes names.old.keys) q) }
{
    match part {
        Part::Plain(name, _) => note_name(alloc, names, name.as_str()),
        Part::Fixed(Some(name), _, _) => note_name(alloc, names, name.as_str()),
        Part::Fixed(None, _, _) => Ok(()),
        Part::Pad(_) => Ok(()),
        Part::List(name, _, _, _) => note_name(alloc, names, name.as_str()),
        Part::Length(name, _, _, _) => note_name(alloc, names, name.as_str()),
        Part::Check(name, _, _) => note_name(alloc, names, name.as_str()),
    }
}

/// Puts the names of some parts among others.
fn note_parts(alloc: Global, names: &mut Names, parts: &[Part]) -> Result<(), Memory>
    ensures { OnOk result ((q : List ℕ) → is_among (map string_bytes names.new.keys) q ≡ is_among (filter_map name_of parts.now ++ map string_bytes names.old.keys) q) }
{
    let mut rest = parts;
    while let [part, after @ ..] = rest {
        note_part(alloc, names, part)?;
        rest = after;
    }
    Ok(())
}

/// The names of the parts of a type.
fn names_of_parts(alloc: Global, rows: &TypeRows, id: usize) -> Result<Names, Memory>
    ensures { IfOk result (λ names. (q : List ℕ) → is_among (map string_bytes names.keys) q ≡ is_among (names_in (container_of rows.now id)) q) }
{
    let mut names = BTreeSet::new(alloc);
    note_parts(alloc, &mut names, trailers_of(rows, id))?;
    note_parts(alloc, &mut names, entries_of(rows, id))?;
    Ok(names)
}

// ---- the types that others derive from

/// Marks the type that a type derives from.
fn mark_base(rows: &TypeRows, marks: &mut [bool], id: usize)
    requires { AreBases rows.now id marks.old }
    ensures { AreBases rows.now (id + 1) marks.new }
{
    if let Some(base) = base_of(rows, id) {
        set_mark(marks, base.0 as usize);
    }
}

/// For each type whether another derives from it.
fn bases(alloc: Global, rows: &TypeRows) -> Result<Vec<bool>, Memory>
    ensures { IfOk result (λ m. AreBases rows.now (length rows.now) m.items) }
{
    let mut marks = vec![in alloc; false; rows.len()]?;
    for id in 0..rows.len() {
        mark_base(rows, marks.as_mut_slice(), id);
    }
    Ok(marks)
}

/// The names of the parts of a type, where they are wanted.
fn names_where(alloc: Global, rows: &TypeRows, wanted: bool, id: usize) -> Result<Names, Memory>
    ensures { IfOk result (λ names. wanted ≡ true → (q : List ℕ) → is_among (map string_bytes names.keys) q ≡ is_among (names_in (container_of rows.now id)) q) }
{
    if wanted {
        names_of_parts(alloc, rows, id)
    } else {
        Ok(BTreeSet::new(alloc))
    }
}

/// For each type from which another derives the names of its parts.
pub(crate) fn names_of_bases(alloc: Global, rows: &TypeRows) -> Result<Vec<Names>, Memory>
    ensures { IfOk result (λ names. AreNames rows.now names.items) }
{
    let bases = bases(alloc, rows)?;
    let mut names = Vec::new(alloc);
    for id in 0..rows.len() {
        names.push(names_where(alloc, rows, mark_at(&bases, id), id)?)?;
    }
    Ok(names)
}

// ---- look-ups

fn has_name(names: &[Names], id: usize, name: &str) -> bool
    ensures { result ≡ is_among (names_held names.now id) name.now }
{
    match names.get(id) {
        None => false,
        Some(held) => held.contains(name),
    }
}

/// What types derive from, with the names of the parts of each type from which another derives.
#[derive(Drop)]
pub(crate) struct BaseNames<'a> {
    pub(crate) rows: &'a TypeRows,
    pub(crate) names: &'a [Names],
    ghost named: { AreNames rows.now names.now },
}

impl<'a> BaseNames<'a> {
    /// Whether a part of a base of a type has a name.
    pub(crate) fn have(&self, id: usize, name: &str) -> bool
        ensures { result ≡ is_among (names_above 16 self.now.rows.now (base_in self.now.rows.now id)) name.now }
    {
        let mut at = id;
        let mut left: usize = 16;
        while left > 0 {
            match base_of(self.rows, at) {
                None => return false,
                Some(base) => at = base.0 as usize,
            }
            if has_name(self.names, at, name) {
                return true;
            }
            left -= 1;
        }
        false
    }
}
