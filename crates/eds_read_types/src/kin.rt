//! Types that are bases of one another, and marks of types.

ghost use Rattle.std.specs.Prelude.{◌≡◌, ◌<◌, ◌≤◌, ◌==◌, ◌+◌, ℕ, Bool, false, length, ◌||◌, ◌&&◌, not, IfOk};
ghost use Rattle.std.specs.List.{list_any};
ghost use Rattle.eds_graph.specs.Reaching.{mark};
ghost use Rattle.eds_types.specs.Rows.{chain};
ghost use Rattle.eds_read_types.specs.Kin.{AreMarks, AreOver, is_over, passes_under, passes_near};

use crate::sheet_rows::base_of;
use eds_base::Memory;
use eds_types::TypeRows;
use std::alloc::Global;

/// Whether a number is marked.
pub(crate) fn mark_at(marks: &[bool], id: usize) -> bool
    ensures { result ≡ mark marks.now id }
{
    marks.get(id).copied().unwrap_or(false)
}

/// Marks a number, if there is room for its mark.
pub(crate) fn set_mark(marks: &mut [bool], id: usize)
    ensures long { length marks.new ≡ length marks.old }
    ensures set { (k : ℕ) → k < length marks.old → mark marks.new k ≡ (mark marks.old k || id == k) }
{
    if id < marks.len() {
        marks[id] = true;
    }
}

/// Marks a type of the chain of another; that other one itself only with `own`.
fn mark_over(marks: &mut [bool], at: usize, own: bool, id: usize)
    ensures long { length marks.new ≡ length marks.old }
    ensures set { (k : ℕ) → k < length marks.old → mark marks.new k ≡ (mark marks.old k || ((own || not (at == id)) && at == k)) }
{
    if own {
        set_mark(marks, at);
        return;
    }
    if at == id {
        return;
    }
    set_mark(marks, at);
}

/// Marks the bases of a type; with `own` that type too.
fn mark_chain(rows: &TypeRows, marks: &mut [bool], id: usize, own: bool)
    ensures long { length marks.new ≡ length marks.old }
    ensures set { (k : ℕ) → k < length marks.old → mark marks.new k ≡ (mark marks.old k || is_over rows.now own id k) }
{
    let mut at = id;
    let mut left: usize = 16;
    while left > 0 {
        mark_over(marks, at, own, id);
        match base_of(rows, at) {
            None => return,
            Some(base) => at = base.0 as usize,
        }
        left -= 1;
    }
}

/// The same where the type is marked among others.
fn mark_if(rows: &TypeRows, marks: &mut [bool], given: &[bool], id: usize, own: bool)
    ensures long { length marks.new ≡ length marks.old }
    ensures set { (k : ℕ) → k < length marks.old → mark marks.new k ≡ (mark marks.old k || (mark given.now id && is_over rows.now own id k)) }
{
    if mark_at(given, id) {
        mark_chain(rows, marks, id, own);
        return;
    }
}

/// The same for the next type of all.
fn mark_next(rows: &TypeRows, marks: &mut [bool], given: &[bool], id: usize, own: bool)
    requires { AreOver rows.now own given.now id marks.old }
    ensures { AreOver rows.now own given.now (id + 1) marks.new }
{
    mark_if(rows, marks, given, id, own);
}

/// Marks the types from which a marked one derives; with `own` those that are marked too.
pub(crate) fn marks_above(
    alloc: Global,
    rows: &TypeRows,
    given: &[bool],
    own: bool,
) -> Result<Vec<bool>, Memory>
    ensures { IfOk result (λ m. (test : ℕ → Bool) → AreMarks (length rows.now) test given.now → AreMarks (length rows.now) (passes_under rows.now own test) m.items) }
{
    let mut marks = vec![in alloc; false; rows.len()]?;
    for id in 0..rows.len() {
        mark_next(rows, marks.as_mut_slice(), given, id, own);
    }
    Ok(marks)
}

/// Whether a type or one of its bases is marked.
fn is_marked_above(rows: &TypeRows, marks: &[bool], id: usize) -> bool
    ensures { result ≡ list_any (mark marks.now) (chain rows.now id) }
{
    let mut at = id;
    let mut left: usize = 16;
    while left > 0 {
        if mark_at(marks, at) {
            return true;
        }
        match base_of(rows, at) {
            None => return false,
            Some(base) => at = base.0 as usize,
        }
        left -= 1;
    }
    false
}

/// Whether a type or one of its bases is marked, or the type has a mark among others.
fn is_near(rows: &TypeRows, marks: &[bool], under: &[bool], id: usize) -> bool
    ensures { result ≡ (list_any (mark marks.now) (chain rows.now id) || mark under.now id) }
{
    is_marked_above(rows, marks, id) || mark_at(under, id)
}

/// Marks the types that are marked, those that have a marked base, and those from which a marked one derives.
pub(crate) fn marks_near(
    alloc: Global,
    rows: &TypeRows,
    given: &[bool],
) -> Result<Vec<bool>, Memory>
    ensures { IfOk result (λ m. (test : ℕ → Bool) → AreMarks (length rows.now) test given.now → ((k : ℕ) → length rows.now ≤ k → test k ≡ false) → AreMarks (length rows.now) (passes_near rows.now test) m.items) }
{
    let under = marks_above(alloc, rows, given, true)?;
    let mut marks = Vec::new(alloc);
    for id in 0..rows.len() {
        marks.push(is_near(rows, given, &under, id))?;
    }
    Ok(marks)
}
