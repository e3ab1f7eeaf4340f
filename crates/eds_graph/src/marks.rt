//! What is reached from given numbers.

ghost use Rattle.std.specs.Prelude.{◌≡◌, ◌≤◌, ◌+◌, ◌∷◌, length, IfOk, OnOk};
ghost use Rattle.eds_graph.specs.Ways.{all_reached};
ghost use Rattle.eds_graph.specs.Reaching.{Reaching, unmarked};

use crate::graph::Graph;
use crate::stack::Stack;
use eds_base::Memory;
use std::alloc::Global;

/// Marks a number that is reached, unless it is marked; what it leads to waits then.
fn mark(
    graph: &Graph,
    marks: &mut [bool],
    waiting: &mut Stack<usize>,
    from: &[usize],
    next: usize,
) -> Result<(), Memory>
    requires { Reaching graph.now from.now marks.old (next ∷ waiting.old) }
    ensures reaching { OnOk result (Reaching graph.now from.now marks.new waiting.new) }
    ensures fewer { OnOk result (length waiting.new + unmarked graph.now marks.new ≤ length waiting.old + unmarked graph.now marks.old) }
{
    if next >= marks.len() || marks[next] {
        return Ok(());
    }
    marks[next] = true;
    waiting.push_all(graph.children(next))?;
    Ok(())
}

/// Of each number whether it is one of the given ones, or one of these leads to it. It takes time for each number and each of
/// its children once, and no depth of calls.
pub fn reached(alloc: Global, graph: &Graph, from: &[usize]) -> Result<Vec<bool>, Memory>
    ensures { IfOk result (λ v. v.items ≡ all_reached graph.now from.now) }
{
    let mut marks = vec![in alloc; false; graph.len()]?;
    let mut waiting = Stack::new(alloc);
    waiting.push_all(from)?;
    while let Some(next) = waiting.pop() {
        mark(graph, marks.as_mut_slice(), &mut waiting, from, next)?;
    }
    Ok(marks)
}
