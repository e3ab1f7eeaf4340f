//! What an element of an activity holds.

ghost use Rattle.std.specs.Prelude.{◌≡◌, IfOk};
ghost use Rattle.eds_read_act.specs.Inside.{text_at as text_of, child_named as child_of, operand_of as operand_in, operands_of as operands_in, is_operand_at, gives as gives_to, given_for as given_in};

use crate::activity_sort::sort_at;
use eds_base::Memory;
use eds_tree::Tree;
use std::alloc::Global;

/// The text of an attribute, empty where there is none.
pub(crate) fn text_at<'a>(tree: &'a Tree, node: u32, name: &str) -> &'a str
    ensures { result.now ≡ text_of tree.now node name.now }
{
    tree.attribute_at(node, name).unwrap_or("")
}

/// The first child of a name.
pub(crate) fn child_named(tree: &Tree, node: u32, name: &str) -> Option<u32>
    ensures { result ≡ child_of tree.now node name.now }
{
    for child in tree.children_at(node) {
        if tree.name_at(*child) == name {
            return Some(*child);
        }
    }
    None
}

fn is_operand(tree: &Tree, node: u32) -> bool
    ensures { result ≡ is_operand_at tree.now node }
{
    sort_at(tree, node).is_operand()
}

/// The first operand of an element.
pub(crate) fn operand_of(tree: &Tree, node: u32) -> Option<u32>
    ensures { result ≡ operand_in tree.now node }
{
    for child in tree.children_at(node) {
        if is_operand(tree, *child) {
            return Some(*child);
        }
    }
    None
}

/// The operands of an element.
pub(crate) fn operands_of(alloc: Global, tree: &Tree, node: u32) -> Result<Vec<u32>, Memory>
    ensures { IfOk result (λ v. v.items ≡ operands_in tree.now node) }
{
    let mut operands = Vec::new(alloc);
    for child in tree.children_at(node) {
        if is_operand(tree, *child) {
            operands.push(*child)?;
        }
    }
    Ok(operands)
}

fn gives(tree: &Tree, node: u32, name: &str) -> bool
    ensures { result ≡ gives_to tree.now name.now node }
{
    tree.name_at(node) == "ArgumentValue" && text_at(tree, node, "name") == name
}

/// The first child that gives an argument its value.
pub(crate) fn given_for(tree: &Tree, node: u32, name: &str) -> Option<u32>
    ensures { result ≡ given_in tree.now node name.now }
{
    for child in tree.children_at(node) {
        if gives(tree, *child, name) {
            return Some(*child);
        }
    }
    None
}
