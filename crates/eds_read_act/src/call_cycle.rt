//! Activities that call themselves.

ghost use Rattle.std.specs.Prelude.{◌≡◌, ◌++◌, IfOk, OnOk};
ghost use Rattle.std.specs.List.{flat_map};
ghost use Rattle.eds_read_act.specs.ActivitySorts.{sort_at as sort_at_in};
ghost use Rattle.eds_read_act.specs.Scopes.{scope_of};
ghost use Rattle.eds_read_act.specs.CallCycle.{number_if, called_as, called_at as called_in, calls_of as calls_in, call_graph as graph_in};

use crate::activity_sort::{ActivitySort, sort_at};
use crate::scope::Scope;
use crate::sending::activity_of;
use crate::walk::links_below;
use eds_base::Memory;
use eds_graph::Graph;
use eds_tree::Link;
use std::alloc::Global;

// The activity that an element calls.
fn called_at(scope: &Scope, node: u32) -> Option<usize>
    ensures { number_if result ≡ called_as (sort_at_in scope.now.tree.now node) (scope_of scope.now) node }
{
    match sort_at(scope.tree, node) {
        ActivitySort::Call => {
            let (number, _) = activity_of(scope, node)?;
            Some(number)
        }
        _ => None,
    }
}

fn push_called(calls: &mut Vec<usize>, scope: &Scope, links: &[Link]) -> Result<(), Memory>
    ensures { OnOk result (calls.new.items ≡ calls.old.items ++ flat_map (called_in (scope_of scope.now)) links.now) }
{
    for link in links {
        if let Some(number) = called_at(scope, link.node) {
            calls.push(number)?;
        }
    }
    Ok(())
}

// All activities that an activity calls.
fn calls_of(alloc: Global, scope: &Scope, node: u32) -> Result<Vec<usize>, Memory>
    ensures { IfOk result (λ v. v.items ≡ calls_in (scope_of scope.now) node) }
{
    let links = links_below(alloc, scope.tree, node)?;
    let mut calls = Vec::new(alloc);
    push_called(&mut calls, scope, links.as_slice())?;
    Ok(calls)
}

/// Each activity leads to those that it calls.
pub(crate) fn call_graph(alloc: Global, scope: &Scope, nodes: &[u32]) -> Result<Graph, Memory>
    ensures { IfOk result (λ g. g ≡ graph_in (scope_of scope.now) nodes.now) }
{
    let mut graph = Graph::new(alloc);
    for node in nodes {
        let calls = calls_of(alloc, scope, *node)?;
        graph.push(calls)?;
    }
    Ok(graph)
}
