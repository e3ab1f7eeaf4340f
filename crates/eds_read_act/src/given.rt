//! What the children of an element give for arguments.

ghost use Rattle.std.specs.Prelude.{◌≡◌, IfOk, codes, map, slice_get};
ghost use Rattle.eds_tree.specs.Trees.{is_named};
ghost use Rattle.eds_read_act.specs.Inside.{givers as givers_in};
ghost use Rattle.eds_read_act.specs.Given.{given_name};

use crate::inside::text_at;
use eds_base::{Memory, Text};
use eds_names::NameList;
use eds_tree::Tree;
use std::alloc::Global;

/// The children of an element that give arguments their values, and the names of these arguments.
#[derive(Drop)]
pub(crate) struct Given {
    pub(crate) holder: u32,
    pub(crate) nodes: Vec<u32>,
    pub(crate) names: NameList,
}

fn is_giver(tree: &Tree, node: u32) -> bool
    ensures { result ≡ is_named tree.now (codes "ArgumentValue") node }
{
    tree.name_at(node) == "ArgumentValue"
}

fn givers(alloc: Global, tree: &Tree, holder: u32) -> Result<Vec<u32>, Memory>
    ensures { IfOk result (λ v. v.items ≡ givers_in tree.now holder) }
{
    let mut nodes = Vec::new(alloc);
    for child in tree.children_at(holder) {
        if is_giver(tree, *child) {
            nodes.push(*child)?;
        }
    }
    Ok(nodes)
}

fn names_of(alloc: Global, tree: &Tree, nodes: &[u32]) -> Result<NameList, Memory>
    ensures { IfOk result (λ n. n ≡ map (given_name tree.now) nodes.now) }
{
    let mut names = Vec::new(alloc);
    for node in nodes {
        names.push(Text::of(alloc, text_at(tree, *node, "name"))?)?;
    }
    NameList::of(alloc, names)
}

fn node_at(nodes: &[u32], at: usize) -> Option<u32>
    ensures { result ≡ slice_get nodes.now at }
{
    nodes.get(at).copied()
}

impl Given {
    ghost use Rattle.std.specs.Prelude.{◌≡◌, IfOk};
    ghost use Rattle.eds_read_act.specs.Inside.{given_for};
    ghost use Rattle.eds_read_act.specs.Given.{TellsGiven};

    /// What the children of an element give.
    pub(crate) fn of(alloc: Global, tree: &Tree, holder: u32) -> Result<Given, Memory>
        ensures given { IfOk result (λ g. TellsGiven tree.now g) }
        ensures holder { IfOk result (λ g. g.holder ≡ holder) }
    {
        let nodes = givers(alloc, tree, holder)?;
        let names = names_of(alloc, tree, nodes.as_slice())?;
        Ok(Given {
            holder,
            nodes,
            names,
        })
    }

    /// The first that gives an argument its value.
    pub(crate) fn first(&self, tree: &Tree, name: &str) -> Option<u32>
        requires { TellsGiven tree.now self.now }
        ensures { result ≡ given_for tree.now self.now.holder name.now }
    {
        let at = self.names.position(name)?;
        node_at(self.nodes.as_slice(), at)
    }
}
