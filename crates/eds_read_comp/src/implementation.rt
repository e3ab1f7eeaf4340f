//! What the implementation of a component holds beside variables and parameter maps (CCSDS 876.0-B, component implementations).

ghost use Rattle.std.specs.Prelude.{◌≡◌, map, IfOk};
ghost use Rattle.eds_read_comp.specs.Implementations.{activity_nodes as activity_nodes_of, machine_nodes as machine_nodes_of, head_at as head_in, heads_of as heads_in};

use crate::end::typed_names;
use crate::file::File;
use crate::variable::implemented;
use eds_base::{Memory, Text};
use eds_generic::{held_by, own_name};
use eds_read_act::{Fields, Head};
use eds_tree::Tree;
use std::alloc::Global;

/// The activities of a component, in document order.
pub(crate) fn activity_nodes(alloc: Global, tree: &Tree, node: u32) -> Result<Vec<u32>, Memory>
    ensures { IfOk result (λ n. n.items ≡ activity_nodes_of tree.now node) }
{
    implemented(alloc, tree, "ActivitySet", "Activity", node)
}

/// The state machines of a component, in document order.
pub(crate) fn machine_nodes(alloc: Global, tree: &Tree, node: u32) -> Result<Vec<u32>, Memory>
    ensures { IfOk result (λ n. n.items ≡ machine_nodes_of tree.now node) }
{
    implemented(alloc, tree, "StateMachineSet", "StateMachine", node)
}

fn head_at(alloc: Global, file: &File, node: u32) -> Result<Head, Memory>
    ensures { IfOk result (λ h. h ≡ head_in file.now.tree.now file.now.space.now file.now.file node) }
{
    let name = Text::of(alloc, own_name(file.tree, node))?;
    let nodes = held_by(alloc, file.tree, "Argument", node)?;
    let arguments = typed_names(alloc, file, nodes.as_slice())?;
    let arguments = Fields::of(alloc, arguments)?;
    Ok(Head { name, arguments })
}

/// The names and arguments of the activities of a component.
pub(crate) fn heads_of(alloc: Global, file: &File, node: u32) -> Result<Vec<Head>, Memory>
    ensures { IfOk result (λ h. h.items ≡ heads_in file.now.tree.now file.now.space.now file.now.file node) }
{
    let nodes = activity_nodes(alloc, file.tree, node)?;
    let mut heads = Vec::new(alloc);
    for node in nodes.as_slice() {
        let head = head_at(alloc, file, *node)?;
        heads.push(head)?;
    }
    Ok(heads)
}
