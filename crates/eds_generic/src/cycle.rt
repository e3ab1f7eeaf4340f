//! Interfaces that are their own bases.

ghost use Rattle.std.specs.Prelude.{◌≡◌, ◌<◌, ◌∷◌, [], length, IfOk};
ghost use Rattle.eds_base.specs.Refusals.{least};
ghost use Rattle.eds_graph.specs.Ways.{all_courses, all_reached};
ghost use Rattle.eds_generic.specs.Cycles.{base_numbers as base_numbers_of, graph_of as graph_of_faces, cycle_of as cycle_of_place, cycle_if, cycle_at as cycle_at_in, breaks_cycle, circular_at, marked_at};
ghost use Rattle.eds_generic.specs.Every.{own_cycle_at, own_cycles};

use crate::face::{Base, Face};
use eds_base::{FaceId, Kept, Memory, Place, Refusal, Rule};
use eds_graph::{Course, Graph, courses, reached};
use std::alloc::Global;

fn base_numbers(alloc: Global, bases: &[Base]) -> Result<Vec<usize>, Memory>
    ensures { IfOk result (λ v. v.items ≡ base_numbers_of bases.now) }
{
    let mut numbers = Vec::new(alloc);
    for base in bases {
        numbers.push(base.face.0 as usize)?;
    }
    Ok(numbers)
}

/// Each interface leads to its bases.
fn graph_of(alloc: Global, faces: &[Face]) -> Result<Graph, Memory>
    ensures { IfOk result (λ g. g ≡ graph_of_faces faces.now) }
{
    let mut graph = Graph::new(alloc);
    for face in faces {
        let numbers = base_numbers(alloc, face.bases.as_slice())?;
        graph.push(numbers)?;
    }
    Ok(graph)
}

fn is_circular(courses: &[Course], id: usize) -> bool
    ensures { result ≡ circular_at courses.now id }
{
    courses.get(id).is_some_and(|course| course.is_on_circle())
}

fn is_marked(marks: &[bool], id: usize) -> bool
    ensures { result ≡ marked_at marks.now id }
{
    marks.get(id).copied().unwrap_or(false)
}

fn cycle_of(at: Place) -> Refusal
    ensures { result ≡ cycle_of_place at }
{
    Refusal {
        rule: Rule::InterfaceCycle,
        place: at,
        kept: Kept::Nothing,
    }
}

fn cycle_where(circular: bool, at: Place) -> Option<Refusal>
    ensures { result ≡ least (cycle_if circular at) }
{
    if circular { Some(cycle_of(at)) } else { None }
}

// ---- all interfaces

fn own_cycle(faces: &[Face], courses: &[Course], id: usize, face: &Face) -> Option<Refusal>
    requires within { id < length faces.now }
    requires courses { courses.now ≡ all_courses (graph_of_faces faces.now) }
    ensures { result ≡ least (own_cycle_at faces.now id face.now) }
{
    cycle_where(is_circular(courses, id), face.place)
}

/// The first interface by place that is its own base.
pub(crate) fn least_own_cycle(alloc: Global, faces: &[Face]) -> Result<Option<Refusal>, Memory>
    ensures { IfOk result (λ r. r ≡ least (own_cycles faces.now)) }
{
    let graph = graph_of(alloc, faces)?;
    let courses = courses(alloc, &graph)?;
    let mut found = None;
    for id in 0..faces.len() {
        let here = own_cycle(faces, &courses, id, &faces[id]);
        found = Refusal::first(found, here);
    }
    Ok(found)
}

// ---- the interfaces that are met from one

fn cycle_at(
    faces: &[Face],
    from: usize,
    met: &[bool],
    courses: &[Course],
    id: usize,
    face: &Face,
) -> Option<Refusal>
    requires within { id < length faces.now }
    requires met { met.now ≡ all_reached (graph_of_faces faces.now) (from ∷ []) }
    requires courses { courses.now ≡ all_courses (graph_of_faces faces.now) }
    ensures { result ≡ least (cycle_at_in faces.now from id face.now.place) }
{
    let circular = is_circular(courses, id);
    if is_marked(met, id) {
        cycle_where(circular, face.place)
    } else {
        None
    }
}

/// The first interface by place that is its own base, among an interface and its bases.
pub(crate) fn least_cycle(
    alloc: Global,
    faces: &[Face],
    from: FaceId,
) -> Result<Option<Refusal>, Memory>
    ensures { IfOk result (λ r. r ≡ least (breaks_cycle faces.now from.0)) }
{
    let start = from.0 as usize;
    let graph = graph_of(alloc, faces)?;
    let met = reached(alloc, &graph, &[start])?;
    let courses = courses(alloc, &graph)?;
    let mut found = None;
    for id in 0..faces.len() {
        let here = cycle_at(faces, start, &met, &courses, id, &faces[id]);
        found = Refusal::first(found, here);
    }
    Ok(found)
}
