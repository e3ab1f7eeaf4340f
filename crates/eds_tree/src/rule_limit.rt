//! The rule on how many elements of a kind there may be.

ghost use Rattle.std.specs.Prelude.{◌≡◌, ◌≤◌, ◌++◌, Some, codes, length, map, filter, slice_get, option_map, IfOk, OnOk};
ghost use Rattle.std.specs.List.{flat_map};
ghost use Rattle.std.specs.Option.{option_copied};
ghost use Rattle.eds_base.specs.Refusals.{least};
ghost use Rattle.eds_tree.specs.Trees.{links_of, children_named, children_at as children_in, children_of};
ghost use Rattle.eds_tree.specs.Limits.{stands_under as stands_below, count_links, places_from, limit_at, breaks_count, limit_in, machines_of, surplus_machine as surplus_machine_of, breaks_counts, breaks_limit};

use crate::breaks::ElementRule;
use crate::groups::is_member;
use crate::least_with::least_with;
use crate::link::{Link, children_at, is_passed_over, name_at};
use crate::tree::{Node, Tree};
use eds_base::{Items, Kept, Memory, Place, Refusal, Rule, Text};
use std::alloc::Global;

// ---- over all files

fn stands_under(nodes: &[Node], parent: &str, row: &str, link: Link) -> bool
    ensures { result ≡ stands_below nodes.now parent.now row.now link }
{
    name_at(nodes, link.parent) == parent && is_member(row, name_at(nodes, link.node))
}

// The element after so many that stand under a parent, or how many are left to come.
#[tactic(auto, using(crate::proofs::Counting::count_more))]
fn count_in(nodes: &[Node], links: &[Link], parent: &str, row: &str, most: u32) -> Result<u32, u32>
    ensures { result ≡ count_links (filter (stands_below nodes.now parent.now row.now) links.now) most }
{
    let mut left = most;
    for link in links {
        if stands_under(nodes, parent, row, *link) {
            if left == 0 {
                return Err(link.node);
            }
            left -= 1;
        }
    }
    Ok(left)
}

fn count_file(
    tree: &Tree,
    links: Option<&Items<Link>>,
    parent: &str,
    row: &str,
    most: u32,
) -> Result<u32, u32>
    requires { option_copied links ≡ Some (links_of tree.now) }
    ensures { result ≡ count_links (filter (stands_below tree.now parent.now row.now) (links_of tree.now)) most }
{
    match links {
        Some(links) => count_in(tree.as_slice(), links.as_slice(), parent, row, most),
        None => Ok(most),
    }
}

// Where the element stands that is one too many.
fn surplus_place(
    trees: &[Tree],
    walks: &Items<Items<Link>>,
    parent: &str,
    row: &str,
    most: u32,
) -> Option<Place>
    requires few { length trees.now ≤ 64 }
    requires walked { walks.now ≡ map links_of trees.now }
    ensures { result ≡ slice_get (places_from parent.now row.now 0 trees.now) most }
{
    let mut left = most;
    for (file, tree) in trees.iter().enumerate() {
        match count_file(tree, walks.get(file), parent, row, left) {
            Ok(rest) => left = rest,
            Err(node) => {
                return Some(Place {
                    file: file as u16,
                    node,
                });
            }
        }
    }
    None
}

fn limit_refusal(alloc: Global, word: &str, place: Option<Place>) -> Result<Option<Refusal>, Memory>
    ensures { IfOk result (λ r. r ≡ least (limit_at word.now place)) }
{
    match place {
        None => Ok(None),
        Some(place) => Ok(Some(Refusal {
            rule: Rule::Limit,
            place,
            kept: Kept::Word(Text::of(alloc, word)?),
        })),
    }
}

// One limit on the elements of all files.
fn least_count(
    alloc: Global,
    trees: &[Tree],
    walks: &Items<Items<Link>>,
    word: &str,
    parent: &str,
    row: &str,
    most: u32,
) -> Result<Option<Refusal>, Memory>
    requires few { length trees.now ≤ 64 }
    requires walked { walks.now ≡ map links_of trees.now }
    ensures { IfOk result (λ r. r ≡ least (breaks_count word.now parent.now row.now most trees.now)) }
{
    limit_refusal(alloc, word, surplus_place(trees, walks, parent, row, most))
}

// ---- in one element

fn refusal_in(
    alloc: Global,
    file: u16,
    word: &str,
    node: Option<u32>,
) -> Result<Option<Refusal>, Memory>
    ensures { IfOk result (λ r. r ≡ least (limit_in file word.now node)) }
{
    match node {
        None => Ok(None),
        Some(node) => limit_refusal(alloc, word, Some(Place { file, node })),
    }
}

// The children of an element that have a name go last.
fn push_named(out: &mut Vec<u32>, nodes: &[Node], parent: u32, name: &str) -> Result<(), Memory>
    ensures { OnOk result (out.new.items ≡ out.old.items ++ children_named nodes.now parent name.now) }
{
    for child in children_at(nodes, parent) {
        let here = name_at(nodes, *child);
        if !is_passed_over(here) {
            if here == name {
                out.push(*child)?;
            }
        }
    }
    Ok(())
}

// The children of some elements that have a name.
fn named_below(
    alloc: Global,
    nodes: &[Node],
    parents: &[u32],
    name: &str,
) -> Result<Vec<u32>, Memory>
    ensures { IfOk result (λ found. found.items ≡ flat_map (λ parent. children_named nodes.now parent name.now) parents.now) }
{
    let mut found = Vec::new(alloc);
    for parent in parents {
        push_named(&mut found, nodes, *parent, name)?;
    }
    Ok(found)
}

// The state machine of a component that is one too many.
fn surplus_machine(alloc: Global, nodes: &[Node], node: u32) -> Result<Option<u32>, Memory>
    ensures { IfOk result (λ machine. machine ≡ surplus_machine_of nodes.now node) }
{
    if name_at(nodes, node) != "Component" {
        return Ok(None);
    }
    let mut implementations = Vec::new(alloc);
    push_named(&mut implementations, nodes, node, "Implementation")?;
    let sets = named_below(alloc, nodes, implementations.as_slice(), "StateMachineSet")?;
    let machines = named_below(alloc, nodes, sets.as_slice(), "StateMachine")?;
    Ok(number_at(machines.as_slice(), 16))
}

fn number_at(numbers: &[u32], i: usize) -> Option<u32>
    ensures { result ≡ slice_get numbers.now i }
{
    numbers.get(i).copied()
}

/// A component has at most 16 state machines.
struct Machines;

impl ElementRule for Machines {
    ghost use Rattle.eds_tree.specs.Limits.{breaks_machines};

    ghost breaks = { breaks_machines };

    fn least_at(
        alloc: Global,
        file: u16,
        tree: &Tree,
        link: Link,
    ) -> Result<Option<Refusal>, Memory> {
        let nodes = tree.as_slice();
        let machine = surplus_machine(alloc, nodes, link.node)?;
        refusal_in(alloc, file, "machines", machine)
    }
}

/// An element has at most 32,767 children.
struct Children;

impl ElementRule for Children {
    ghost use Rattle.eds_tree.specs.Limits.{breaks_children};

    ghost breaks = { breaks_children };

    fn least_at(
        alloc: Global,
        file: u16,
        tree: &Tree,
        link: Link,
    ) -> Result<Option<Refusal>, Memory> {
        let nodes = tree.as_slice();
        refusal_in(
            alloc,
            file,
            "children",
            number_at(children_at(nodes, link.node), 32_767),
        )
    }
}

// The first limit on the elements of all files that is passed.
fn least_surplus(
    alloc: Global,
    trees: &[Tree],
    walks: &Items<Items<Link>>,
) -> Result<Option<Refusal>, Memory>
    requires few { length trees.now ≤ 64 }
    requires walked { walks.now ≡ map links_of trees.now }
    ensures { IfOk result (λ r. r ≡ least (breaks_counts trees.now)) }
{
    let types = least_count(
        alloc,
        trees,
        walks,
        "types",
        "DataTypeSet",
        "DATATYPE",
        4_096,
    )?;
    let interfaces = least_count(
        alloc,
        trees,
        walks,
        "interfaces",
        "DeclaredInterfaceSet",
        "Interface",
        512,
    )?;
    let components = least_count(
        alloc,
        trees,
        walks,
        "components",
        "ComponentSet",
        "Component",
        64,
    )?;
    let found = Refusal::first(types, interfaces);
    Ok(Refusal::first(found, components))
}

/// The first limit that is passed.
pub(crate) fn least_limit(
    alloc: Global,
    trees: &[Tree],
    walks: &Items<Items<Link>>,
) -> Result<Option<Refusal>, Memory>
    requires few { length trees.now ≤ 64 }
    requires walked { walks.now ≡ map links_of trees.now }
    ensures { IfOk result (λ r. r ≡ least (breaks_limit trees.now)) }
{
    let surplus = least_surplus(alloc, trees, walks)?;
    let machines = least_with::<Machines>(alloc, surplus, trees, walks)?;
    let children = least_with::<Children>(alloc, machines, trees, walks)?;
    Ok(children)
}
