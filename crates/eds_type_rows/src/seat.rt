//! The parts of a container and of its bases as elements, in the order of their bits.

ghost use Rattle.std.specs.Prelude.{◌≡◌, ◌++◌, ◌∷◌, ◌≤◌, ◌-◌, length, take, drop, IfOk, OnOk};
ghost use Rattle.std.specs.List.{flat_map};
ghost use Rattle.eds_type_rows.specs.Bases.{bases_within};
ghost use Rattle.eds_type_rows.specs.Seats.{seats_from, entry_seats, trailer_seats, seats_of as seats_in};

use crate::base_graph::{BaseGraph, base_at, type_at};
use crate::entry::{entries_at, own_parts_at};
use eds_base::{Memory, Place, TypeId};
use std::alloc::Global;

/// Where the element of a part stands: the number of the container that has it, and its position among that container's
/// entries and then its trailers.
#[derive(Clone, Copy, PartialEq, Eq)]
pub struct Seat {
    pub container: usize,
    pub place: usize,
    pub at: Place,
}

/// The most bases of a type.
const MOST_BASES: usize = 15;

/// A type and its bases, from the type up.
fn lineage(alloc: Global, bases: &[Option<TypeId>], id: usize) -> Result<Vec<usize>, Memory>
    ensures { IfOk result (λ l. l.items ≡ id ∷ bases_within 15 bases.now id) }
{
    let mut line = Vec::new(alloc);
    line.push(id)?;
    let mut at = id;
    let mut left: usize = MOST_BASES;
    while left > 0 {
        match base_at(bases, at) {
            None => return Ok(line),
            Some(base) => {
                at = base.0 as usize;
                line.push(at)?;
            }
        }
        left -= 1;
    }
    Ok(line)
}

/// Puts some elements of a container last, with their positions from `first` to before `end`.
fn push_seats(
    seats: &mut Vec<Seat>,
    container: usize,
    parts: &[Place],
    first: usize,
    end: usize,
) -> Result<(), Memory>
    requires order { first ≤ end }
    requires there { end ≤ length parts.now }
    ensures { OnOk result (seats.new.items ≡ seats.old.items ++ seats_from container first (take (end - first) (drop first parts.now))) }
{
    for place in first..end {
        seats.push(Seat {
            container,
            place,
            at: parts[place],
        })?;
    }
    Ok(())
}

/// Puts the entries of a type last.
fn push_entries(
    alloc: Global,
    seats: &mut Vec<Seat>,
    graph: &BaseGraph,
    id: usize,
) -> Result<(), Memory>
    ensures { OnOk result (seats.new.items ≡ seats.old.items ++ entry_seats graph.now.sheet.now.trees.now graph.now.sheet.now.space.now id) }
{
    match type_at(graph, id) {
        None => Ok(()),
        Some(at) => {
            let parts = entries_at(alloc, graph.sheet.trees, at)?;
            push_seats(seats, id, &parts, 0, parts.len())
        }
    }
}

/// Puts its trailers last.
fn push_trailers(
    alloc: Global,
    seats: &mut Vec<Seat>,
    graph: &BaseGraph,
    id: usize,
) -> Result<(), Memory>
    ensures { OnOk result (seats.new.items ≡ seats.old.items ++ trailer_seats graph.now.sheet.now.trees.now graph.now.sheet.now.space.now id) }
{
    match type_at(graph, id) {
        None => Ok(()),
        Some(at) => {
            let parts = own_parts_at(alloc, graph.sheet.trees, at)?;
            let first = entries_at(alloc, graph.sheet.trees, at)?.len();
            push_seats(seats, id, &parts, first, parts.len())
        }
    }
}

/// The entries of some types.
fn entries_along(alloc: Global, graph: &BaseGraph, line: &[usize]) -> Result<Vec<Seat>, Memory>
    ensures { IfOk result (λ s. s.items ≡ flat_map (entry_seats graph.now.sheet.now.trees.now graph.now.sheet.now.space.now) line.now) }
{
    let mut seats = Vec::new(alloc);
    for id in line {
        push_entries(alloc, &mut seats, graph, *id)?;
    }
    Ok(seats)
}

/// Puts the trailers of some types last.
fn push_along(
    alloc: Global,
    seats: &mut Vec<Seat>,
    graph: &BaseGraph,
    line: &[usize],
) -> Result<(), Memory>
    ensures { OnOk result (seats.new.items ≡ seats.old.items ++ flat_map (trailer_seats graph.now.sheet.now.trees.now graph.now.sheet.now.space.now) line.now) }
{
    for id in line {
        push_trailers(alloc, seats, graph, *id)?;
    }
    Ok(())
}

/// The entries from the root of the bases down to a container, and then the trailers from the container up to the root.
pub(crate) fn seats_of(alloc: Global, graph: &BaseGraph, id: usize) -> Result<Vec<Seat>, Memory>
    ensures { IfOk result (λ s. s.items ≡ seats_in graph.now.sheet.now.trees.now graph.now.sheet.now.space.now id) }
{
    let up = lineage(alloc, graph.bases, id)?;
    let mut down = lineage(alloc, graph.bases, id)?;
    down.as_mut_slice().reverse();
    let mut seats = entries_along(alloc, graph, &down)?;
    push_along(alloc, &mut seats, graph, &up)?;
    Ok(seats)
}
