//! Families that hold one another.

ghost use Rattle.std.specs.Prelude.{◌≡◌, ◌++◌, map, IfOk, OnOk};
ghost use Rattle.eds_nesting.specs.Families.{family as family_among, types_of, types_in, held_from, held_in, holding as holding_of, nesting as nesting_of, course_at as course_among};

use crate::family::{family, has_base};
use eds_base::Memory;
use eds_graph::{Course, Graph, courses};
use eds_types::{Kind, Part, TypeRow};
use std::alloc::Global;

fn push_parts(held: &mut Vec<usize>, families: &[usize], parts: &[Part]) -> Result<(), Memory>
    ensures { OnOk result (held.new.items ≡ held.old.items ++ map (family_among families.now) (types_of parts.now)) }
{
    for part in parts {
        match part.type_id() {
            None => (),
            Some(id) => held.push(family(families, id.0 as usize))?,
        }
    }
    Ok(())
}

fn push_types(held: &mut Vec<usize>, families: &[usize], kind: &Kind) -> Result<(), Memory>
    ensures { OnOk result (held.new.items ≡ held.old.items ++ map (family_among families.now) (types_in kind.now)) }
{
    match kind {
        Kind::Int(_, _) => Ok(()),
        Kind::Enum(_, _) => Ok(()),
        Kind::Bool(_) => Ok(()),
        Kind::Str(_) => Ok(()),
        Kind::Bin(_, _) => Ok(()),
        Kind::Arr(item, _) => {
            held.push(family(families, item.0 as usize))?;
            Ok(())
        }
        Kind::Con(container) => {
            push_parts(held, families, container.entries.as_slice())?;
            push_parts(held, families, container.trailers.as_slice())
        }
    }
}

fn push_held(
    held: &mut Vec<usize>,
    families: &[usize],
    name: usize,
    id: usize,
    row: &TypeRow,
) -> Result<(), Memory>
    ensures { OnOk result (held.new.items ≡ held.old.items ++ held_from families.now name id row.now) }
{
    if family(families, id) == name {
        push_types(held, families, &row.kind)?;
    }
    Ok(())
}

/// The families of the types that are held by the types of a family; and itself, where its bases have no end.
fn held(
    alloc: Global,
    rows: &[TypeRow],
    families: &[usize],
    name: usize,
) -> Result<Vec<usize>, Memory>
    ensures { IfOk result (λ h. h.items ≡ held_in rows.now families.now name) }
{
    let mut held = Vec::new(alloc);
    if has_base(rows, name) {
        held.push(name)?;
    }
    for id in 0..rows.len() {
        push_held(&mut held, families, name, id, &rows[id])?;
    }
    Ok(held)
}

/// The graph of all families, by the types that name them.
pub(crate) fn holding(alloc: Global, rows: &[TypeRow], families: &[usize]) -> Result<Graph, Memory>
    ensures { IfOk result (λ g. g ≡ holding_of rows.now families.now) }
{
    let mut graph = Graph::new(alloc);
    for name in 0..rows.len() {
        let children = held(alloc, rows, families, name)?;
        graph.push(children)?;
    }
    Ok(graph)
}

fn course_at(courses: &[Course], name: usize) -> Course
    ensures { result ≡ course_among courses.now name }
{
    match courses.get(name) {
        None => Course::Ends(1),
        Some(course) => *course,
    }
}

fn courses_of(alloc: Global, courses: &[Course], families: &[usize]) -> Result<Vec<Course>, Memory>
    ensures { IfOk result (λ c. c.items ≡ map (course_among courses.now) families.now) }
{
    let mut found = Vec::new(alloc);
    for name in families {
        found.push(course_at(courses, *name))?;
    }
    Ok(found)
}

/// For each type, by the families of all types, where the ways go on which its family holds others: whether it holds itself; or holds one that does; or how
/// many types are nested in it at most, counted with it. A family whose bases go in a circle counts as one that holds itself.
pub fn nesting(alloc: Global, rows: &[TypeRow], families: &[usize]) -> Result<Vec<Course>, Memory>
    ensures { IfOk result (λ c. c.items ≡ nesting_of rows.now families.now) }
{
    let graph = holding(alloc, rows, families)?;
    let found = courses(alloc, &graph)?;
    courses_of(alloc, &found, families)
}
