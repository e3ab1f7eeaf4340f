//! Families whose bases have no end, and those that hold them.

ghost use Rattle.std.specs.Prelude.{◌≡◌, ℕ, map, IfOk};
ghost use Rattle.std.specs.List.{list_any};
ghost use Rattle.eds_graph.specs.Ways.{is_met, all_reached, reversed as reversed_of};
ghost use Rattle.eds_graph.specs.Reaching.{mark};
ghost use Rattle.eds_nesting.specs.Families.{holding as holding_of, endless as endless_of, endless_met as endless_met_of};

use crate::family::has_base;
use crate::holding::holding;
use eds_base::Memory;
use eds_graph::{reached, reversed};
use eds_types::TypeRow;
use std::alloc::Global;

/// Those of the types' families whose bases go in a circle.
fn endless(alloc: Global, rows: &[TypeRow], families: &[usize]) -> Result<Vec<usize>, Memory>
    ensures { IfOk result (λ e. e.items ≡ endless_of rows.now families.now) }
{
    let mut endless = Vec::new(alloc);
    for name in families {
        if has_base(rows, *name) {
            endless.push(*name)?;
        }
    }
    Ok(endless)
}

/// Marks the families from which one of some is met.
fn marks_from(
    alloc: Global,
    rows: &[TypeRow],
    families: &[usize],
    from: &[usize],
) -> Result<Vec<bool>, Memory>
    ensures { IfOk result (λ m. m.items ≡ all_reached (reversed_of (holding_of rows.now families.now)) from.now) }
{
    let graph = holding(alloc, rows, families)?;
    let holders = reversed(alloc, &graph)?;
    reached(alloc, &holders, from)
}

/// Marks the families that are one of these, or hold one. Where there are none, nothing is searched.
fn marks_of(
    alloc: Global,
    rows: &[TypeRow],
    families: &[usize],
    endless: &[usize],
) -> Result<Vec<bool>, Memory>
    requires { endless.now ≡ endless_of rows.now families.now }
    ensures { IfOk result (λ m. (name : ℕ) → mark m.items name ≡ list_any (is_met (holding_of rows.now families.now) name) endless.now) }
{
    match endless {
        [] => Ok(Vec::new(alloc)),
        [_, ..] => marks_from(alloc, rows, families, endless),
    }
}

fn mark_at(marks: &[bool], name: usize) -> bool
    ensures { result ≡ mark marks.now name }
{
    marks.get(name).copied().unwrap_or(false)
}

fn marked(alloc: Global, marks: &[bool], families: &[usize]) -> Result<Vec<bool>, Memory>
    ensures { IfOk result (λ m. m.items ≡ map (mark marks.now) families.now) }
{
    let mut marked = Vec::new(alloc);
    for name in families {
        marked.push(mark_at(marks, *name))?;
    }
    Ok(marked)
}

/// For each type, by the families of all types, whether its family has bases that go in a circle, or holds one that has, over
/// any number of steps.
pub fn endless_met(alloc: Global, rows: &[TypeRow], families: &[usize]) -> Result<Vec<bool>, Memory>
    ensures { IfOk result (λ m. m.items ≡ endless_met_of rows.now families.now) }
{
    let endless = endless(alloc, rows, families)?;
    let marks = marks_of(alloc, rows, families, &endless)?;
    marked(alloc, &marks, families)
}
