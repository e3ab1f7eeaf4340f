//! Types of containers that may be spelled by no bits.

ghost use Rattle.std.specs.Prelude.{◌≡◌, ◌&&◌, not, true, length, IfOk};
ghost use Rattle.std.specs.List.{list_all};
ghost use Rattle.eds_graph.specs.Reaching.{mark};
ghost use Rattle.eds_types.specs.Rows.{chain, is_concrete as is_concrete_at};
ghost use Rattle.eds_read_types.specs.Kin.{AreMarks, passes_under};
ghost use Rattle.eds_read_types.specs.Hollow.{is_empty as is_empty_list, is_bare as is_bare_at, has_further, is_void as is_void_at};

use crate::kin::{mark_at, marks_above};
use crate::sheet_rows::{base_of, entries_of, trailers_of};
use eds_base::Memory;
use eds_types::{Kind, Part, TypeRows};
use std::alloc::Global;

fn is_empty(parts: &[Part]) -> bool
    ensures { result ≡ is_empty_list parts.now }
{
    match parts {
        [] => true,
        [_, ..] => false,
    }
}

/// Whether the container of a type has parts of its own.
fn has_parts(rows: &TypeRows, id: usize) -> bool
    ensures { result ≡ not (is_bare_at rows.now id) }
{
    !(is_empty(entries_of(rows, id)) && is_empty(trailers_of(rows, id)))
}

/// Whether neither a container nor a base of it has a part.
fn are_bare(rows: &TypeRows, id: usize) -> bool
    ensures { result ≡ list_all (is_bare_at rows.now) (chain rows.now id) }
{
    let mut at = id;
    let mut left: usize = 16;
    while left > 0 {
        if has_parts(rows, at) {
            return false;
        }
        match base_of(rows, at) {
            None => return true,
            Some(base) => at = base.0 as usize,
        }
        left -= 1;
    }
    true
}

fn is_concrete(rows: &TypeRows, id: usize) -> bool
    ensures { result ≡ is_concrete_at rows.now id }
{
    match rows.get(id) {
        None => false,
        Some(row) => match &row.kind {
            Kind::Con(container) => !container.hidden,
            _ => false,
        },
    }
}

/// For each type whether it is a concrete container.
fn concretes(alloc: Global, rows: &TypeRows) -> Result<Vec<bool>, Memory>
    ensures { IfOk result (λ m. AreMarks (length rows.now) (is_concrete_at rows.now) m.items) }
{
    let mut marks = Vec::new(alloc);
    for id in 0..rows.len() {
        marks.push(is_concrete(rows, id))?;
    }
    Ok(marks)
}

/// For each type whether a concrete container derives from it.
fn furthers(alloc: Global, rows: &TypeRows) -> Result<Vec<bool>, Memory>
    ensures { IfOk result (λ m. AreMarks (length rows.now) (has_further rows.now) m.items) }
{
    let concretes = concretes(alloc, rows)?;
    marks_above(alloc, rows, &concretes, false)
}

/// Whether a type is a concrete container without parts, and has no mark.
fn is_void(rows: &TypeRows, furthers: &[bool], id: usize) -> bool
    ensures { result ≡ (is_concrete_at rows.now id && (list_all (is_bare_at rows.now) (chain rows.now id) && not (mark furthers.now id))) }
{
    is_concrete(rows, id) && are_bare(rows, id) && !mark_at(furthers, id)
}

/// For each type whether it is a concrete container without parts, from which no concrete one derives.
fn voids(alloc: Global, rows: &TypeRows) -> Result<Vec<bool>, Memory>
    ensures { IfOk result (λ m. AreMarks (length rows.now) (is_void_at rows.now) m.items) }
{
    let furthers = furthers(alloc, rows)?;
    let mut marks = Vec::new(alloc);
    for id in 0..rows.len() {
        marks.push(is_void(rows, &furthers, id))?;
    }
    Ok(marks)
}

/// For each type whether it is such a container, or one derives from it.
pub(crate) fn hollows(alloc: Global, rows: &TypeRows) -> Result<Vec<bool>, Memory>
    ensures { IfOk result (λ m. AreMarks (length rows.now) (passes_under rows.now true (is_void_at rows.now)) m.items) }
{
    let voids = voids(alloc, rows)?;
    marks_above(alloc, rows, &voids, true)
}
