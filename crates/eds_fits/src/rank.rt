//! The ranks of activities: by how many calls the longest way from each goes.

ghost use Rattle.std.specs.Prelude.{◌≡◌, ◌++◌, IfOk, OnOk, map};
ghost use Rattle.eds_plan.specs.Statements.{stmt, stmts_of};
ghost use Rattle.eds_fits.specs.Deciding.{called_by, called_in, call_graph as call_graph_of, rank_by as rank_by_course, ranks_of as ranks_in};

use eds_base::Memory;
use eds_graph::{Course, Graph, courses};
use eds_plan::{Activity, Statement};
use std::alloc::Global;

#[cycle(statement)]
fn push_calls(statements: &[Statement], called: &mut Vec<usize>) -> Result<(), Memory>
    ensures { OnOk result (called.new.items ≡ called.old.items ++ called_in (stmts_of (map stmt statements.now))) }
{
    for statement in statements {
        push_called(statement, called)?;
    }
    Ok(())
}

#[cycle(statement)]
fn push_called(statement: &Statement, called: &mut Vec<usize>) -> Result<(), Memory>
    ensures { OnOk result (called.new.items ≡ called.old.items ++ called_by (stmt statement.now)) }
{
    match statement {
        Statement::If(_, one, other) => {
            push_calls(one.as_slice(), called)?;
            push_calls(other.as_slice(), called)
        }
        Statement::Iterate(_, _, _, _, inner) => push_calls(inner.as_slice(), called),
        Statement::Call(action) => {
            called.push(action.activity as usize)?;
            Ok(())
        }
        _ => Ok(()),
    }
}

fn call_graph(alloc: Global, activities: &[Activity]) -> Result<Graph, Memory>
    ensures { IfOk result (λ g. g ≡ call_graph_of activities.now) }
{
    let mut graph = Graph::new(alloc);
    for activity in activities {
        let mut called = Vec::new(alloc);
        push_calls(activity.body.as_slice(), &mut called)?;
        graph.push(called)?;
    }
    Ok(graph)
}

fn rank_by(course: Course) -> usize
    ensures { result ≡ rank_by_course course }
{
    match course {
        Course::Ends(numbers) => numbers,
        _ => 0,
    }
}

/// A rank for each activity.
pub(crate) fn ranks_of(alloc: Global, activities: &[Activity]) -> Result<Vec<usize>, Memory>
    ensures { IfOk result (λ r. r.items ≡ ranks_in activities.now) }
{
    let graph = call_graph(alloc, activities)?;
    let mut ranks = Vec::new(alloc);
    let courses = courses(alloc, &graph)?;
    for course in courses.as_slice() {
        ranks.push(rank_by(*course))?;
    }
    Ok(ranks)
}
