//! The states of a machine.

ghost use Rattle.std.specs.Prelude.{◌≡◌, IfOk};
ghost use Rattle.eds_read_act.specs.Machines.{is_state as state_is, states_of as states_in, state_names};

use crate::inside::text_at;
use eds_base::{Memory, Text};
use eds_names::NameList;
use eds_tree::Tree;
use std::alloc::Global;

/// The states of a machine in document order, and their names.
#[derive(Drop)]
pub(crate) struct States {
    pub(crate) machine: u32,
    pub(crate) nodes: Vec<u32>,
    pub(crate) names: NameList,
}

fn is_state(tree: &Tree, node: u32) -> bool
    ensures { result ≡ state_is tree.now node }
{
    let name = tree.name_at(node);
    name == "EntryState" || name == "State" || name == "ExitState"
}

fn states_of(alloc: Global, tree: &Tree, machine: u32) -> Result<Vec<u32>, Memory>
    ensures { IfOk result (λ v. v.items ≡ states_in tree.now machine) }
{
    let mut nodes = Vec::new(alloc);
    for child in tree.children_at(machine) {
        if is_state(tree, *child) {
            nodes.push(*child)?;
        }
    }
    Ok(nodes)
}

fn names_of(alloc: Global, tree: &Tree, machine: u32, nodes: &[u32]) -> Result<NameList, Memory>
    requires { nodes.now ≡ states_in tree.now machine }
    ensures { IfOk result (λ n. n ≡ state_names tree.now machine) }
{
    let mut names = Vec::new(alloc);
    for node in nodes {
        names.push(Text::of(alloc, text_at(tree, *node, "name"))?)?;
    }
    NameList::of(alloc, names)
}

impl States {
    ghost use Rattle.std.specs.Prelude.{◌≡◌, IfOk};
    ghost use Rattle.eds_read_act.specs.Machines.{state_number, state_named};
    ghost use Rattle.eds_read_act.specs.States.{TellsStates};

    /// The states of a machine.
    pub(crate) fn of(alloc: Global, tree: &Tree, machine: u32) -> Result<States, Memory>
        ensures states { IfOk result (λ g. TellsStates tree.now g) }
        ensures machine { IfOk result (λ g. g.machine ≡ machine) }
    {
        let nodes = states_of(alloc, tree, machine)?;
        let names = names_of(alloc, tree, machine, nodes.as_slice())?;
        Ok(States {
            machine,
            nodes,
            names,
        })
    }

    /// The number of the state that an attribute of an element names.
    pub(crate) fn number(&self, tree: &Tree, node: u32, attribute: &str) -> Option<usize>
        requires { TellsStates tree.now self.now }
        ensures { result ≡ state_number tree.now self.now.machine node attribute.now }
    {
        self.names.position(text_at(tree, node, attribute))
    }

    /// That state.
    pub(crate) fn named(&self, tree: &Tree, node: u32, attribute: &str) -> Option<u32>
        requires { TellsStates tree.now self.now }
        ensures { result ≡ state_named tree.now self.now.machine node attribute.now }
    {
        let at = self.number(tree, node, attribute)?;
        self.nodes.as_slice().get(at).copied()
    }
}
