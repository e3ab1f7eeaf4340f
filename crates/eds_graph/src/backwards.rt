//! A graph the other way round.

ghost use Rattle.std.specs.Prelude.{◌≡◌, ◌++◌, [], ◌∷◌, filter, IfOk, OnOk};
ghost use Rattle.eds_graph.specs.Ways.{is_child as is_child_in, parents as parents_in, reversed as reversed_of};

use crate::graph::Graph;
use eds_base::Memory;
use std::alloc::Global;

/// Whether a number is one of those that another leads to in one step.
fn is_child(graph: &Graph, number: usize, parent: usize) -> bool
    ensures { result ≡ is_child_in graph.now number parent }
{
    graph.children(parent).iter().any(|child| *child == number)
}

/// Puts a number last, where it leads to another in one step.
fn push_parent(
    parents: &mut Vec<usize>,
    graph: &Graph,
    number: usize,
    parent: usize,
) -> Result<(), Memory>
    ensures { OnOk result (parents.new.items ≡ parents.old.items ++ filter (is_child_in graph.now number) (parent ∷ [])) }
{
    if is_child(graph, number, parent) {
        parents.push(parent)?;
    }
    Ok(())
}

/// The numbers that lead to one in one step.
fn parents(alloc: Global, graph: &Graph, number: usize) -> Result<Vec<usize>, Memory>
    ensures { IfOk result (λ p. p.items ≡ parents_in graph.now number) }
{
    let mut parents = Vec::new(alloc);
    for parent in 0..graph.len() {
        push_parent(&mut parents, graph, number, parent)?;
    }
    Ok(parents)
}

/// At each number those that lead to it in one step. It takes time for each number and each of all children.
pub fn reversed(alloc: Global, graph: &Graph) -> Result<Graph, Memory>
    ensures { IfOk result (λ g. g ≡ reversed_of graph.now) }
{
    let mut reversed = Graph::new(alloc);
    for number in 0..graph.len() {
        let parents = parents(alloc, graph, number)?;
        reversed.push(parents)?;
    }
    Ok(reversed)
}
