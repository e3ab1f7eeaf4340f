//! The activities of a component: their rules, and what they are as plan data.

ghost use Rattle.std.specs.Prelude.{◌≡◌, ◌++◌, IfOk, OnOk, map, slice_get};
ghost use Rattle.std.specs.Option.{option_copied};
ghost use Rattle.eds_base.specs.Refusals.{least};
ghost use Rattle.eds_read_act.specs.Scopes.{scope_of, with_arguments};
ghost use Rattle.eds_read_act.specs.Activities.{bad_references_in, mismatches_in, cycle_if, circular_at, breaks_by, breaks_at, over_from, activity_breaks, planned, activity_at as activity_of, numbered_activity, activities_at};

use crate::bad_reference::least_bad_reference;
use crate::call_cycle::call_graph;
use crate::component::Head;
use crate::given::Given;
use crate::scope::Scope;
use crate::sending::copied;
use crate::statement::body_of;
use crate::type_mismatch::{least_mismatch, push_sound};
use crate::walk::links_below;
use eds_base::{Items, Kept, Memory, Place, Refusal, Rule, Text};
use eds_graph::{Course, courses};
use eds_plan::Activity;
use eds_tree::Link;
use std::alloc::Global;

// The scope in which the body of an activity stands.
fn with_head<'a>(scope: &Scope<'a>, head: &'a Head) -> Scope<'a>
    ensures { scope_of result ≡ with_arguments (scope_of scope.now) head.now.arguments }
{
    scope.with(Some(&head.arguments))
}

/// The least break of BadReference in an element or below it.
pub(crate) fn least_reference_in(
    alloc: Global,
    file: u16,
    scope: &Scope,
    node: u32,
) -> Result<Option<Refusal>, Memory>
    ensures { IfOk result (λ r. r ≡ least (bad_references_in file (scope_of scope.now) node)) }
{
    let links = links_below(alloc, scope.tree, node)?;
    let given = Given::of(alloc, scope.tree, node)?;
    least_bad_reference(alloc, file, scope, given, links.as_slice())
}

/// The least break of TypeMismatch in an element or below it.
pub(crate) fn least_mismatch_in(
    alloc: Global,
    file: u16,
    scope: &Scope,
    node: u32,
) -> Result<Option<Refusal>, Memory>
    ensures { IfOk result (λ r. r ≡ least (mismatches_in file (scope_of scope.now) node)) }
{
    let mut links = Vec::new(alloc);
    let given = Given::of(alloc, scope.tree, node)?;
    let link = Link { parent: node, node };
    push_sound(&mut links, alloc, scope, &given, scope.tree.len(), link)?;
    least_mismatch(alloc, file, scope, links.as_slice())
}

/// The least break of BadReference and TypeMismatch in an element or below it.
pub(crate) fn least_break_in(
    alloc: Global,
    file: u16,
    scope: &Scope,
    node: u32,
) -> Result<Option<Refusal>, Memory>
    ensures { IfOk result (λ r. r ≡ least (bad_references_in file (scope_of scope.now) node ++ mismatches_in file (scope_of scope.now) node)) }
{
    let reference = least_reference_in(alloc, file, scope, node)?;
    let mismatch = least_mismatch_in(alloc, file, scope, node)?;
    Ok(Refusal::first(reference, mismatch))
}

fn is_circular(courses: &[Course], number: usize) -> bool
    ensures { result ≡ circular_at courses.now number }
{
    courses
        .get(number)
        .is_some_and(|course| course.is_on_circle())
}

fn cycle_where(
    alloc: Global,
    file: u16,
    node: u32,
    name: &str,
    circular: bool,
) -> Result<Option<Refusal>, Memory>
    ensures { IfOk result (λ r. r ≡ least (cycle_if file node name.now circular)) }
{
    if circular {
        Ok(Some(Refusal {
            rule: Rule::CallCycle,
            place: Place { file, node },
            kept: Kept::Word(Text::of(alloc, name)?),
        }))
    } else {
        Ok(None)
    }
}

// The least break at an activity, of which the number among all is given.
fn least_at(
    alloc: Global,
    file: u16,
    scope: &Scope,
    courses: &[Course],
    number: usize,
    node: u32,
    head: &Head,
) -> Result<Option<Refusal>, Memory>
    ensures { IfOk result (λ r. r ≡ least (breaks_by file (scope_of scope.now) courses.now number node head.now)) }
{
    let inner = with_head(scope, head);
    let found = least_break_in(alloc, file, &inner, node)?;
    let circular = is_circular(courses, number);
    let cycle = cycle_where(alloc, file, node, head.name.as_str(), circular)?;
    Ok(Refusal::first(found, cycle))
}

fn least_numbered(
    alloc: Global,
    file: u16,
    scope: &Scope,
    courses: &[Course],
    number: usize,
    node: u32,
) -> Result<Option<Refusal>, Memory>
    ensures { IfOk result (λ r. r ≡ least (breaks_at file (scope_of scope.now) courses.now number node)) }
{
    match scope.component.activities.get(number) {
        None => Ok(None),
        Some(head) => least_at(alloc, file, scope, courses, number, node, head),
    }
}

// The least break at activities, where it is known where the calls of each lead.
fn least_over(
    alloc: Global,
    file: u16,
    scope: &Scope,
    courses: &[Course],
    nodes: &[u32],
) -> Result<Option<Refusal>, Memory>
    ensures { IfOk result (λ r. r ≡ least (over_from (breaks_at file (scope_of scope.now) courses.now) 0 nodes.now)) }
{
    let mut found = None;
    for (number, node) in nodes.iter().enumerate() {
        let here = least_numbered(alloc, file, scope, courses, number, *node)?;
        found = Refusal::first(found, here);
    }
    Ok(found)
}

/// The least break of BadReference, TypeMismatch and CallCycle in the activities of a component, whose elements are given.
pub fn least_activity_break(
    alloc: Global,
    file: u16,
    scope: &Scope,
    nodes: &[u32],
) -> Result<Option<Refusal>, Memory>
    ensures { IfOk result (λ r. r ≡ least (activity_breaks file (scope_of scope.now) nodes.now)) }
{
    let graph = call_graph(alloc, scope, nodes)?;
    let courses = courses(alloc, &graph)?;
    let found = least_over(alloc, file, scope, courses.as_slice(), nodes)?;
    Ok(found)
}

fn activity_at(alloc: Global, scope: &Scope, node: u32, head: &Head) -> Result<Activity, Memory>
    ensures { IfOk result (λ a. planned a ≡ activity_of (scope_of scope.now) node head.now) }
{
    let inner = with_head(scope, head);
    let body = body_of(alloc, &inner, node)?;
    let name = Text::of(alloc, head.name.as_str())?;
    let arguments = copied(alloc, head.arguments.as_slice())?;
    Ok(Activity {
        name,
        arguments,
        body,
    })
}

fn head_at<'a>(scope: &Scope<'a>, number: usize) -> Option<&'a Head>
    ensures { option_copied result ≡ slice_get scope.now.component.now.activities.now number }
{
    scope.component.activities.get(number)
}

// Puts the activity of a number last, where it has a head.
fn push_activity(
    activities: &mut Items<Activity>,
    alloc: Global,
    scope: &Scope,
    number: usize,
    node: u32,
) -> Result<(), Memory>
    ensures { OnOk result (map planned activities.new ≡ map planned activities.old ++ numbered_activity (scope_of scope.now) number node) }
{
    match head_at(scope, number) {
        None => Ok(()),
        Some(head) => {
            let activity = activity_at(alloc, scope, node, head)?;
            activities.push(activity)?;
            Ok(())
        }
    }
}

/// The activities that elements stand for, whose heads the scope has.
pub fn read_activities(
    alloc: Global,
    scope: &Scope,
    nodes: &[u32],
) -> Result<Items<Activity>, Memory>
    ensures { IfOk result (λ v. map planned v ≡ activities_at (scope_of scope.now) nodes.now) }
{
    let mut activities = Items::new(alloc);
    for (number, node) in nodes.iter().enumerate() {
        push_activity(&mut activities, alloc, scope, number, *node)?;
    }
    Ok(activities)
}
