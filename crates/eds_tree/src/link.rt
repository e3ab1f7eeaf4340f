//! The elements of a tree that count, each with its parent.

ghost use Rattle.std.specs.Prelude.{◌≡◌, ◌++◌, OnOk, option_map};
ghost use Rattle.std.specs.List.{flat_map};
ghost use Rattle.eds_tree.specs.Trees.{name_at as name_in, children_at as children_in, attributes_at as attributes_in, is_passed_over as passed_over, children_of, links_from, text_among as text_in};

use crate::tree::Node;
use eds_base::{Memory, Text};

/// An element and its parent, by their numbers; the root is its own parent.
#[derive(Clone, Copy, PartialEq, Eq)]
pub struct Link {
    pub parent: u32,
    pub node: u32,
}

/// The name of the element of a number.
pub(crate) fn name_at(nodes: &[Node], at: u32) -> &str
    ensures { result.now ≡ name_in nodes.now at }
{
    match nodes.get(at as usize) {
        Some(node) => node.name.as_str(),
        None => "",
    }
}

/// The numbers of its children.
pub(crate) fn children_at(nodes: &[Node], at: u32) -> &[u32]
    ensures { result.now ≡ children_in nodes.now at }
{
    match nodes.get(at as usize) {
        Some(node) => node.children.as_slice(),
        None => &[],
    }
}

/// Its attributes.
pub(crate) fn attributes_at(nodes: &[Node], at: u32) -> &[(Text, Text)]
    ensures { result.now ≡ attributes_in nodes.now at }
{
    match nodes.get(at as usize) {
        Some(node) => node.attributes.as_slice(),
        None => &[],
    }
}

/// The text of the first attribute of a name.
pub(crate) fn text_among<'a>(attributes: &'a [(Text, Text)], name: &str) -> Option<&'a str>
    ensures { option_map (λ t. t.now) result ≡ text_in attributes.now name.now }
{
    for attribute in attributes {
        if attribute.0.as_str() == name {
            return Some(attribute.1.as_str());
        }
    }
    None
}

/// Whether an element of this name is passed over with all that it holds.
pub fn is_passed_over(name: &str) -> bool
    ensures { result ≡ passed_over name.now }
{
    name == "Device"
        || name == "LongDescription"
        || name == "Metadata"
        || name == "MetadataSet"
        || name == "MetadataValueSet"
        || name == "NominalRangeSet"
        || name == "SafeRangeSet"
        || name == "Semantics"
        || name == "include"
}

/// Puts an element and all below it last.
#[cycle(push_links)]
pub(crate) fn push_links(
    links: &mut Vec<Link>,
    nodes: &[Node],
    depth: usize,
    link: Link,
) -> Result<(), Memory>
    ensures { OnOk result (links.new.items ≡ links.old.items ++ links_from nodes.now depth link) }
{
    if depth == 0 {
        return Ok(());
    }
    links.push(link)?;
    push_children(links, nodes, depth - 1, link.node)?;
    Ok(())
}

#[cycle(push_links)]
fn push_children(
    links: &mut Vec<Link>,
    nodes: &[Node],
    depth: usize,
    parent: u32,
) -> Result<(), Memory>
    ensures { OnOk result (links.new.items ≡ links.old.items ++ flat_map (λ child. links_from nodes.now depth (record { parent = parent; node = child })) (children_of nodes.now parent)) }
{
    for child in children_at(nodes, parent) {
        if !is_passed_over(name_at(nodes, *child)) {
            push_links(
                links,
                nodes,
                depth,
                Link {
                    parent,
                    node: *child,
                },
            )?;
        }
    }
    Ok(())
}
