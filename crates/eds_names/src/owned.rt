//! Names that an owner holds twice.

ghost use Rattle.std.specs.Prelude.{◌≡◌, ◌++◌, [], map, IfOk, OnOk};
ghost use Rattle.eds_base.specs.Refusals.{least};
ghost use Rattle.std.specs.List.{flat_map};
ghost use Rattle.eds_names.specs.Repeats.{is_among as among, children_among, sets_in as sets_of, held_by as held_of, named_at, repeats, repeats_by, repeats_at, holding_of, holdings};

use crate::repeat::note_name;
use crate::standing::{Standing, own_name};
use eds_base::{Memory, Place, Refusal};
use eds_tree::Tree;
use indexmap::IndexSet;
use std::alloc::Global;

/// An owner, the sets in which it holds elements, or none where it holds them itself, and these elements, by their names.
#[derive(Clone, Copy)]
pub(crate) struct Ownership {
    pub(crate) owner: &'static str,
    pub(crate) sets: &'static [&'static str],
    pub(crate) held: &'static [&'static str],
}

static OWNERSHIPS: [Ownership; 11] = [
    Ownership {
        owner: "Interface",
        sets: &["GenericTypeSet"],
        held: &["GenericType"],
    },
    Ownership {
        owner: "Interface",
        sets: &["ParameterSet", "CommandSet"],
        held: &["Parameter", "Command"],
    },
    Ownership {
        owner: "Interface",
        sets: &["GenericTypeMapSet"],
        held: &["GenericTypeMap"],
    },
    Ownership {
        owner: "Base",
        sets: &["GenericTypeMapSet"],
        held: &["GenericTypeMap"],
    },
    Ownership {
        owner: "Command",
        sets: &[],
        held: &["Argument"],
    },
    Ownership {
        owner: "Activity",
        sets: &[],
        held: &["Argument"],
    },
    Ownership {
        owner: "Component",
        sets: &["ProvidedInterfaceSet", "RequiredInterfaceSet"],
        held: &["Interface"],
    },
    Ownership {
        owner: "Implementation",
        sets: &["VariableSet"],
        held: &["Variable"],
    },
    Ownership {
        owner: "Implementation",
        sets: &["ActivitySet"],
        held: &["Activity"],
    },
    Ownership {
        owner: "Implementation",
        sets: &["StateMachineSet"],
        held: &["StateMachine"],
    },
    Ownership {
        owner: "StateMachine",
        sets: &[],
        held: &["EntryState", "State", "ExitState"],
    },
];

fn ownerships() -> &'static [Ownership]
    ensures { map holding_of result.now ≡ holdings }
{
    &OWNERSHIPS
}

fn is_among(names: &'static [&'static str], name: &str) -> bool
    ensures { result ≡ among (map (λ n. n.now) names.now) name.now }
{
    for one in names {
        if name == *one {
            return true;
        }
    }
    false
}

// The children of some names go last.
fn push_among(
    children: &mut Vec<u32>,
    tree: &Tree,
    names: &'static [&'static str],
    node: u32,
) -> Result<(), Memory>
    ensures { OnOk result (children.new.items ≡ children.old.items ++ children_among tree.now (map (λ n. n.now) names.now) node) }
{
    for child in tree.children_at(node) {
        if is_among(names, tree.name_at(*child)) {
            children.push(*child)?;
        }
    }
    Ok(())
}

fn sets_in(
    alloc: Global,
    tree: &Tree,
    ownership: &Ownership,
    owner: u32,
) -> Result<Vec<u32>, Memory>
    ensures { IfOk result (λ sets. sets.items ≡ sets_of tree.now (map (λ n. n.now) ownership.now.sets.now) owner) }
{
    let mut sets = Vec::new(alloc);
    if ownership.sets.is_empty() {
        sets.push(owner)?;
    } else {
        push_among(&mut sets, tree, ownership.sets, owner)?;
    }
    Ok(sets)
}

fn held_by(
    alloc: Global,
    tree: &Tree,
    ownership: &Ownership,
    owner: u32,
) -> Result<Vec<u32>, Memory>
    ensures { IfOk result (λ held. held.items ≡ held_of tree.now (holding_of ownership.now) owner) }
{
    let mut held = Vec::new(alloc);
    let sets = sets_in(alloc, tree, ownership, owner)?;
    for set in &sets {
        push_among(&mut held, tree, ownership.held, *set)?;
    }
    Ok(held)
}

fn least_repeat(
    alloc: Global,
    file: u16,
    tree: &Tree,
    held: &[u32],
) -> Result<Option<Refusal>, Memory>
    ensures { IfOk result (λ r. r ≡ least (repeats [] (map (named_at tree.now file) held.now))) }
{
    let mut before = IndexSet::new(alloc);
    let mut found = None;
    for node in held {
        let name = own_name(tree, *node);
        found = note_name(
            alloc,
            &mut before,
            found,
            name,
            name,
            Place { file, node: *node },
        )?;
    }
    Ok(found)
}

fn least_by(
    alloc: Global,
    file: u16,
    tree: &Tree,
    owner: u32,
    ownership: &Ownership,
) -> Result<Option<Refusal>, Memory>
    ensures { IfOk result (λ r. r ≡ least (repeats_by tree.now file owner (holding_of ownership.now))) }
{
    if tree.name_at(owner) != ownership.owner {
        return Ok(None);
    }
    let held = held_by(alloc, tree, ownership, owner)?;
    least_repeat(alloc, file, tree, &held)
}

fn least_at(
    alloc: Global,
    file: u16,
    tree: &Tree,
    standing: Standing,
) -> Result<Option<Refusal>, Memory>
    ensures { IfOk result (λ r. r ≡ least (repeats_at tree.now file standing)) }
{
    let mut found = None;
    for ownership in ownerships() {
        let here = least_by(alloc, file, tree, standing.node, ownership)?;
        found = Refusal::first(found, here);
    }
    Ok(found)
}

/// The first name that an owner of a file holds twice.
pub(crate) fn least_owned(
    alloc: Global,
    file: u16,
    tree: &Tree,
    standings: &[Standing],
) -> Result<Option<Refusal>, Memory>
    ensures { IfOk result (λ r. r ≡ least (flat_map (repeats_at tree.now file) standings.now)) }
{
    let mut found = None;
    for standing in standings {
        let here = least_at(alloc, file, tree, *standing)?;
        found = Refusal::first(found, here);
    }
    Ok(found)
}
