//! One search for all circles, and for the longest ways where there are none.

ghost use Rattle.std.specs.Prelude.{◌≡◌, ◌<◌, ◌≤◌, suc, length, map, true, IfOk, OnOk, Some};
ghost use Rattle.eds_graph.specs.declared.course.Course.TheVariants.{Ends as ends_at};
ghost use Rattle.eds_graph.specs.declared.search.State.TheVariants.{New, Open as open_at};
ghost use Rattle.eds_graph.specs.Ways.{all_courses};
ghost use Rattle.eds_graph.specs.Stacks.{top as top_of};
ghost use Rattle.eds_graph.specs.Search.{state, is_done, course_in as course_in_state, join as join_courses, join_all, course_of_top, AreOpen, Closes, Sound, Starts, IsWaiting, IsUnder, left_over};

use crate::course::Course;
use crate::graph::Graph;
use crate::stack::Stack;
use eds_base::{Items, Memory};
use std::alloc::Global;

/// What is known of a number.
#[derive(Clone, Copy)]
pub(crate) enum State {
    /// Nothing.
    New,
    /// It lies on top of so many open numbers.
    Open(usize),
    /// All.
    Done(Course),
}

/// Open numbers that lead to each other, from one on up to the next part.
#[derive(Clone, Copy)]
pub(crate) struct Part {
    /// How many open numbers lie under it.
    first: usize,
    /// How many waiting numbers lie under its own.
    waiting: usize,
    /// Whether its numbers were seen to lie on a circle.
    circle: bool,
}

/// What is known of each number; those that are open, each above numbers that lead to it; those that wait to be looked at; and
/// the parts of both.
#[derive(Drop)]
struct Search {
    states: Items<State>,
    opened: Stack<usize>,
    waiting: Stack<usize>,
    parts: Stack<Part>,
}

fn state_of(states: &[State], number: usize) -> State
    ensures { result ≡ state states.now number }
{
    match states.get(number) {
        None => State::Done(Course::Ends(1)),
        Some(known) => *known,
    }
}

/// Takes an open number from the top, which is done then.
fn close_one(search: &mut Search, course: Course)
    requires are_open { AreOpen search.old.states search.old.opened }
    requires some { 0 < length search.old.opened }
    ensures closes { Closes course search.old.states search.old.opened search.new.states search.new.opened }
    ensures one { length search.old.opened ≡ suc (length search.new.opened) }
    ensures waiting { search.new.waiting ≡ search.old.waiting }
    ensures parts { search.new.parts ≡ search.old.parts }
{
    match search.opened.pop() {
        None => (),
        Some(number) => search.states.set(number, State::Done(course)),
    }
}

/// Takes the open numbers above some from the top; they are done then.
fn close(search: &mut Search, first: usize, course: Course)
    requires are_open { AreOpen search.old.states search.old.opened }
    requires low { first ≤ length search.old.opened }
    ensures closes { Closes course search.old.states search.old.opened search.new.states search.new.opened }
    ensures first { length search.new.opened ≡ first }
    ensures waiting { search.new.waiting ≡ search.old.waiting }
    ensures parts { search.new.parts ≡ search.old.parts }
{
    while search.opened.len() > first {
        close_one(search, course);
    }
}

fn joined(known: Course, next: Course) -> Result<Course, Memory>
    ensures { IfOk result (λ c. c ≡ join_courses known next) }
{
    match known {
        Course::OnCircle => Ok(Course::ToCircle),
        Course::ToCircle => Ok(Course::ToCircle),
        Course::Ends(most) => match next {
            Course::OnCircle => Ok(Course::ToCircle),
            Course::ToCircle => Ok(Course::ToCircle),
            Course::Ends(numbers) => ends_after(most, numbers),
        },
    }
}

fn ends_after(most: usize, numbers: usize) -> Result<Course, Memory>
    ensures { IfOk result (λ c. c ≡ join_courses (ends_at most) (ends_at numbers)) }
{
    match numbers.checked_add(1) {
        None => Err(Memory),
        Some(more) => Ok(Course::Ends(if most < more { more } else { most })),
    }
}

fn course_known(state: State) -> Course
    ensures { result ≡ course_in_state state }
{
    match state {
        State::New => Course::ToCircle,
        State::Open(_) => Course::ToCircle,
        State::Done(course) => course,
    }
}

/// The course of a number on no circle that leads to these, which are all done.
fn course_after(states: &[State], children: &[usize]) -> Result<Course, Memory>
    ensures { IfOk result (λ c. c ≡ join_all states.now (ends_at 1) children.now) }
{
    let mut course = Course::Ends(1);
    for child in children {
        course = joined(course, course_known(state_of(states, *child)))?;
    }
    Ok(course)
}

/// The course of the numbers of the topmost part, for which nothing waits.
fn course_of_part(graph: &Graph, search: &Search, part: Part) -> Result<Course, Memory>
    ensures { IfOk result (λ c. c ≡ course_of_top graph.now search.now.states search.now.opened part.circle) }
{
    if part.circle {
        return Ok(Course::OnCircle);
    }
    match search.opened.top() {
        None => Ok(Course::Ends(1)),
        Some(number) => course_after(search.states.as_slice(), graph.children(number)),
    }
}

/// Closes the topmost part, for which nothing waits.
fn finish(graph: &Graph, search: &mut Search, part: Part) -> Result<(), Memory>
    requires sound { Sound graph.now search.old.states search.old.opened search.old.waiting search.old.parts }
    requires part { top_of search.old.parts ≡ Some part }
    requires none { length search.old.waiting ≤ part.waiting }
    ensures sound { OnOk result (Sound graph.now search.new.states search.new.opened search.new.waiting search.new.parts) }
    ensures smaller { OnOk result (left_over graph.now search.new.states search.new.waiting search.new.parts < left_over graph.now search.old.states search.old.waiting search.old.parts) }
{
    let course = course_of_part(graph, search, part)?;
    close(search, part.first, course);
    let _closed = search.parts.pop();
    Ok(())
}

/// Opens a new number as a part of its own, on top of the part that leads to it.
fn open(graph: &Graph, search: &mut Search, next: usize) -> Result<(), Memory>
    requires sound { Sound graph.now search.old.states search.old.opened search.old.waiting search.old.parts }
    requires waits { IsWaiting search.old.waiting search.old.parts next }
    requires state { state search.old.states next ≡ New }
    ensures sound { OnOk result (Sound graph.now search.new.states search.new.opened search.new.waiting search.new.parts) }
    ensures smaller { OnOk result (left_over graph.now search.new.states search.new.waiting search.new.parts < left_over graph.now search.old.states search.old.waiting search.old.parts) }
{
    let part = Part {
        first: search.opened.len(),
        waiting: search.waiting.len(),
        circle: false,
    };
    search.states.set(next, State::Open(part.first));
    search.opened.push(next)?;
    search.waiting.push_all(graph.children(next))?;
    search.parts.push(part)?;
    Ok(())
}

/// Passes over a number that is done.
fn pass(graph: &Graph, search: &mut Search, next: usize)
    requires sound { Sound graph.now search.old.states search.old.opened search.old.waiting search.old.parts }
    requires waits { IsWaiting search.old.waiting search.old.parts next }
    requires state { is_done (state search.old.states next) ≡ true }
    ensures sound { Sound graph.now search.new.states search.new.opened search.new.waiting search.new.parts }
    ensures smaller { left_over graph.now search.new.states search.new.waiting search.new.parts < left_over graph.now search.old.states search.old.waiting search.old.parts }
{
    let _passed = search.waiting.pop();
}

/// The topmost part leads to a number below it: it and the next part are one, on a circle.
fn merge(graph: &Graph, search: &mut Search, next: usize, at: usize)
    requires sound { Sound graph.now search.old.states search.old.opened search.old.waiting search.old.parts }
    requires waits { IsWaiting search.old.waiting search.old.parts next }
    requires state { state search.old.states next ≡ open_at at }
    requires below { IsUnder at search.old.parts }
    ensures sound { Sound graph.now search.new.states search.new.opened search.new.waiting search.new.parts }
    ensures smaller { left_over graph.now search.new.states search.new.waiting search.new.parts < left_over graph.now search.old.states search.old.waiting search.old.parts }
{
    let _upper = search.parts.pop();
    match search.parts.top() {
        None => (),
        Some(lower) => search.parts.replace_top(Part {
            circle: true,
            ..lower
        }),
    }
}

/// The topmost part leads to a number of its own: it lies on a circle.
fn turn(graph: &Graph, search: &mut Search, part: Part, next: usize, at: usize)
    requires sound { Sound graph.now search.old.states search.old.opened search.old.waiting search.old.parts }
    requires waits { IsWaiting search.old.waiting search.old.parts next }
    requires part { top_of search.old.parts ≡ Some part }
    requires state { state search.old.states next ≡ open_at at }
    requires own { part.first ≤ at }
    ensures sound { Sound graph.now search.new.states search.new.opened search.new.waiting search.new.parts }
    ensures smaller { left_over graph.now search.new.states search.new.waiting search.new.parts < left_over graph.now search.old.states search.old.waiting search.old.parts }
{
    let _turned = search.waiting.pop();
    search.parts.replace_top(Part {
        circle: true,
        ..part
    });
}

/// Looks at a number to which the topmost part leads.
fn look(graph: &Graph, search: &mut Search, part: Part, next: usize) -> Result<(), Memory>
    requires sound { Sound graph.now search.old.states search.old.opened search.old.waiting search.old.parts }
    requires part { top_of search.old.parts ≡ Some part }
    requires waits { IsWaiting search.old.waiting search.old.parts next }
    ensures sound { OnOk result (Sound graph.now search.new.states search.new.opened search.new.waiting search.new.parts) }
    ensures smaller { OnOk result (left_over graph.now search.new.states search.new.waiting search.new.parts < left_over graph.now search.old.states search.old.waiting search.old.parts) }
{
    match state_of(search.states.as_slice(), next) {
        State::New => open(graph, search, next),
        State::Done(_) => {
            pass(graph, search, next);
            Ok(())
        }
        State::Open(at) => {
            if at < part.first {
                merge(graph, search, next, at);
            } else {
                turn(graph, search, part, next, at);
            }
            Ok(())
        }
    }
}

fn step(graph: &Graph, search: &mut Search, part: Part) -> Result<(), Memory>
    requires sound { Sound graph.now search.old.states search.old.opened search.old.waiting search.old.parts }
    requires part { top_of search.old.parts ≡ Some part }
    ensures sound { OnOk result (Sound graph.now search.new.states search.new.opened search.new.waiting search.new.parts) }
    ensures smaller { OnOk result (left_over graph.now search.new.states search.new.waiting search.new.parts < left_over graph.now search.old.states search.old.waiting search.old.parts) }
{
    if search.waiting.len() <= part.waiting {
        return finish(graph, search, part);
    }
    match search.waiting.top() {
        None => Ok(()),
        Some(next) => look(graph, search, part, next),
    }
}

/// All numbers new, and all of them waiting.
fn start(alloc: Global, count: usize) -> Result<Search, Memory>
    ensures { IfOk result (λ s. Starts count s.states s.opened s.waiting s.parts) }
{
    let states = vec![in alloc; State::New; count]?;
    let mut search = Search {
        states: Items::from_vec(states),
        opened: Stack::new(alloc),
        waiting: Stack::new(alloc),
        parts: Stack::new(alloc),
    };
    for number in 0..count {
        search.waiting.push(number)?;
    }
    search.parts.push(Part {
        first: 0,
        waiting: 0,
        circle: false,
    })?;
    Ok(search)
}

fn courses_known(alloc: Global, states: &[State]) -> Result<Vec<Course>, Memory>
    ensures { IfOk result (λ v. v.items ≡ map course_in_state states.now) }
{
    let mut courses = Vec::new(alloc);
    for known in states {
        courses.push(course_known(*known))?;
    }
    Ok(courses)
}

/// Where the ways from each number go. It takes time for each number and each of its children once, and no depth of calls.
pub fn courses(alloc: Global, graph: &Graph) -> Result<Vec<Course>, Memory>
    ensures { IfOk result (λ v. v.items ≡ all_courses graph.now) }
{
    let mut search = start(alloc, graph.len())?;
    while let Some(part) = search.parts.top() {
        step(graph, &mut search, part)?;
    }
    courses_known(alloc, search.states.as_slice())
}
