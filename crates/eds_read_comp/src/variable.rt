//! The variables of a component (CCSDS 876.0-B, variables), but for their first values.

ghost use Rattle.std.specs.Prelude.{◌≡◌, ◌++◌, map, IfOk, OnOk};
ghost use Rattle.std.specs.List.{flat_map};
ghost use Rattle.eds_generic.specs.Reading.{held_in};
ghost use Rattle.eds_read_comp.specs.Variables.{implemented as implemented_in, variable_nodes as variable_nodes_of, variable_at as variable_in, variables_of as variables_in};

use crate::end::type_at;
use crate::file::File;
use eds_base::{Memory, Text};
use eds_generic::{held_by, held_in_sets, own_name, read_only};
use eds_read_act::VariableHead;
use eds_tree::Tree;
use std::alloc::Global;

fn push_held_in(
    alloc: Global,
    nodes: &mut Vec<u32>,
    tree: &Tree,
    set: &str,
    name: &str,
    holder: u32,
) -> Result<(), Memory>
    ensures { OnOk result (nodes.new.items ≡ nodes.old.items ++ held_in tree.now set.now name.now holder) }
{
    let held = held_in_sets(alloc, tree, set, name, holder)?;
    for node in held.as_slice() {
        nodes.push(*node)?;
    }
    Ok(())
}

/// What the sets of a name hold in the implementation of a component.
pub(crate) fn implemented(
    alloc: Global,
    tree: &Tree,
    set: &str,
    name: &str,
    node: u32,
) -> Result<Vec<u32>, Memory>
    ensures { IfOk result (λ n. n.items ≡ implemented_in tree.now set.now name.now node) }
{
    let holders = held_by(alloc, tree, "Implementation", node)?;
    let mut nodes = Vec::new(alloc);
    for holder in holders.as_slice() {
        push_held_in(alloc, &mut nodes, tree, set, name, *holder)?;
    }
    Ok(nodes)
}

/// The elements of the variables of a component, in document order.
pub(crate) fn variable_nodes(alloc: Global, tree: &Tree, node: u32) -> Result<Vec<u32>, Memory>
    ensures { IfOk result (λ n. n.items ≡ variable_nodes_of tree.now node) }
{
    implemented(alloc, tree, "VariableSet", "Variable", node)
}

/// A variable as its element declares it.
pub(crate) fn variable_at(alloc: Global, file: &File, node: u32) -> Result<VariableHead, Memory>
    ensures { IfOk result (λ v. v ≡ variable_in file.now.tree.now file.now.space.now file.now.file node) }
{
    let name = Text::of(alloc, own_name(file.tree, node))?;
    let id = type_at(alloc, file, node)?;
    Ok(VariableHead {
        name,
        id,
        read_only: read_only(file.tree, node),
    })
}

/// The variables of a component, in document order.
pub(crate) fn variables_of(
    alloc: Global,
    file: &File,
    node: u32,
) -> Result<Vec<VariableHead>, Memory>
    ensures { IfOk result (λ v. v.items ≡ variables_in file.now.tree.now file.now.space.now file.now.file node) }
{
    let nodes = variable_nodes(alloc, file.tree, node)?;
    let mut variables = Vec::new(alloc);
    for node in nodes.as_slice() {
        let variable = variable_at(alloc, file, *node)?;
        variables.push(variable)?;
    }
    Ok(variables)
}
