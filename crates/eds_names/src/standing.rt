//! Elements with the package and the component around them.

ghost use Rattle.std.specs.Prelude.{◌≡◌, ◌++◌, OnOk, IfOk};
ghost use Rattle.std.specs.List.{flat_map};
ghost use Rattle.eds_tree.specs.Trees.{children_of};
ghost use Rattle.eds_names.specs.Standings.{own_name as own_name_in, innermost as innermost_in, below as below_in, standings_from, standings_of};

use eds_base::Memory;
use eds_tree::{Tree, is_passed_over};
use std::alloc::Global;

/// An element, its parent, and the package and the component around it, by their numbers. The root is its own parent,
/// and its number says that there is no package or no component.
#[derive(Clone, Copy, PartialEq, Eq)]
pub(crate) struct Standing {
    pub(crate) parent: u32,
    pub(crate) node: u32,
    pub(crate) in_package: u32,
    pub(crate) in_component: u32,
}

/// The name that an element gives itself.
pub(crate) fn own_name(tree: &Tree, node: u32) -> &str
    ensures { result.now ≡ own_name_in tree.now node }
{
    match tree.attribute_at(node, "name") {
        Some(name) => name,
        None => "",
    }
}

fn innermost(tree: &Tree, name: &str, node: u32, around: u32) -> u32
    ensures { result ≡ innermost_in tree.now name.now node around }
{
    if tree.name_at(node) == name {
        node
    } else {
        around
    }
}

fn below(tree: &Tree, above: Standing, child: u32) -> Standing
    ensures { result ≡ below_in tree.now above child }
{
    Standing {
        parent: above.node,
        node: child,
        in_package: innermost(tree, "Package", above.node, above.in_package),
        in_component: innermost(tree, "Component", above.node, above.in_component),
    }
}

#[cycle(push_standings)]
fn push_standings(
    standings: &mut Vec<Standing>,
    tree: &Tree,
    depth: usize,
    standing: Standing,
) -> Result<(), Memory>
    ensures { OnOk result (standings.new.items ≡ standings.old.items ++ standings_from tree.now depth standing) }
{
    if depth == 0 {
        return Ok(());
    }
    standings.push(standing)?;
    push_below(standings, tree, depth - 1, standing)?;
    Ok(())
}

#[cycle(push_standings)]
fn push_below(
    standings: &mut Vec<Standing>,
    tree: &Tree,
    depth: usize,
    above: Standing,
) -> Result<(), Memory>
    ensures { OnOk result (standings.new.items ≡ standings.old.items ++ flat_map (λ child. standings_from tree.now depth (below_in tree.now above child)) (children_of tree.now above.node)) }
{
    for child in tree.children_at(above.node) {
        if !is_passed_over(tree.name_at(*child)) {
            push_standings(standings, tree, depth, below(tree, above, *child))?;
        }
    }
    Ok(())
}

/// All elements of a tree that are not passed over, in document order.
#[tactic(auto, unfolding(crate::specs::Standings::standings_of))]
pub(crate) fn standings_in(alloc: Global, tree: &Tree) -> Result<Vec<Standing>, Memory>
    ensures { IfOk result (λ s. s.items ≡ standings_of tree.now) }
{
    let mut standings = Vec::new(alloc);
    let root = Standing {
        parent: 0,
        node: 0,
        in_package: 0,
        in_component: 0,
    };
    push_standings(&mut standings, tree, tree.len(), root)?;
    Ok(standings)
}
