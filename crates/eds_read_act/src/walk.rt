//! The elements in an element.

ghost use Rattle.std.specs.Prelude.{◌≡◌, ◌++◌, IfOk, OnOk};
ghost use Rattle.std.specs.List.{flat_map};
ghost use Rattle.eds_tree.specs.Trees.{children_of, links_from};
ghost use Rattle.eds_read_act.specs.Scopes.{links_at};

use eds_base::Memory;
use eds_tree::{Link, Tree, is_passed_over};
use std::alloc::Global;

#[cycle(push_below)]
fn push_below(links: &mut Vec<Link>, tree: &Tree, depth: usize, link: Link) -> Result<(), Memory>
    ensures { OnOk result (links.new.items ≡ links.old.items ++ links_from tree.now depth link) }
{
    if depth == 0 {
        return Ok(());
    }
    links.push(link)?;
    push_children(links, tree, depth - 1, link.node)?;
    Ok(())
}

#[cycle(push_below)]
fn push_children(
    links: &mut Vec<Link>,
    tree: &Tree,
    depth: usize,
    parent: u32,
) -> Result<(), Memory>
    ensures { OnOk result (links.new.items ≡ links.old.items ++ flat_map (λ child. links_from tree.now depth (record { parent = parent; node = child })) (children_of tree.now parent)) }
{
    for child in tree.children_at(parent) {
        if !is_passed_over(tree.name_at(*child)) {
            push_below(
                links,
                tree,
                depth,
                Link {
                    parent,
                    node: *child,
                },
            )?;
        }
    }
    Ok(())
}

/// An element and all below it that are not passed over, each with its parent.
pub(crate) fn links_below(alloc: Global, tree: &Tree, node: u32) -> Result<Vec<Link>, Memory>
    ensures { IfOk result (λ v. v.items ≡ links_at tree.now node) }
{
    let mut links = Vec::new(alloc);
    push_below(&mut links, tree, tree.len(), Link { parent: node, node })?;
    Ok(links)
}
