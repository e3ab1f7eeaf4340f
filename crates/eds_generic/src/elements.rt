//! The elements of one file, and what their references find.

ghost use Rattle.std.specs.Prelude.{◌≡◌, ◌++◌, [], codes, unwrap_or, IfOk, OnOk};
ghost use Rattle.std.specs.List.{flat_map};
ghost use Rattle.eds_tree.specs.Trees.{attribute_at};
ghost use Rattle.eds_generic.specs.Reading.{is_yes, held, held_in, own_name as own_name_of, type_of as type_of_item, face_of as face_of_item, type_found as type_found_by, face_found as face_found_by};

use eds_base::{FaceId, Memory, Place, TypeId};
use eds_names::{Item, Space};
use eds_tree::Tree;
use std::alloc::Global;

/// The place of an element of a file.
pub fn place(file: u16, node: u32) -> Place
    ensures { result ≡ record { file = file; node = node } }
{
    Place { file, node }
}

fn push_held(nodes: &mut Vec<u32>, tree: &Tree, name: &str, node: u32) -> Result<(), Memory>
    ensures { OnOk result (nodes.new.items ≡ nodes.old.items ++ held tree.now name.now node) }
{
    for child in tree.children_at(node) {
        if tree.name_at(*child) == name {
            nodes.push(*child)?;
        }
    }
    Ok(())
}

/// Those children of an element that have a name, in document order.
pub fn held_by(alloc: Global, tree: &Tree, name: &str, node: u32) -> Result<Vec<u32>, Memory>
    ensures { IfOk result (λ v. v.items ≡ held tree.now name.now node) }
{
    let mut nodes = Vec::new(alloc);
    push_held(&mut nodes, tree, name, node)?;
    Ok(nodes)
}

/// The same of some elements, one after the other.
pub fn held_among(alloc: Global, tree: &Tree, name: &str, sets: &[u32]) -> Result<Vec<u32>, Memory>
    ensures { IfOk result (λ v. v.items ≡ flat_map (held tree.now name.now) sets.now) }
{
    let mut nodes = Vec::new(alloc);
    for set in sets {
        push_held(&mut nodes, tree, name, *set)?;
    }
    Ok(nodes)
}

/// What the sets of one name hold that an element has.
pub fn held_in_sets(
    alloc: Global,
    tree: &Tree,
    set: &str,
    name: &str,
    node: u32,
) -> Result<Vec<u32>, Memory>
    ensures { IfOk result (λ v. v.items ≡ held_in tree.now set.now name.now node) }
{
    let sets = held_by(alloc, tree, set, node)?;
    held_among(alloc, tree, name, sets.as_slice())
}

/// The name that an element gives itself, empty where it gives none.
pub fn own_name(tree: &Tree, node: u32) -> &str
    ensures { result.now ≡ own_name_of tree.now node }
{
    match tree.attribute_at(node, "name") {
        Some(name) => name,
        None => "",
    }
}

/// The text of an attribute of an element, empty where it has none.
pub fn text_of<'a>(tree: &'a Tree, node: u32, name: &str) -> &'a str
    ensures { result.now ≡ unwrap_or (attribute_at tree.now node name.now) [] }
{
    match tree.attribute_at(node, name) {
        Some(text) => text,
        None => "",
    }
}

fn type_of(item: Item) -> Option<TypeId>
    ensures { result ≡ type_of_item item }
{
    match item {
        Item::Sort(id) => Some(id),
        Item::Face(_) => None,
        Item::Comp(_) => None,
    }
}

fn face_of(item: Item) -> Option<FaceId>
    ensures { result ≡ face_of_item item }
{
    match item {
        Item::Sort(_) => None,
        Item::Face(id) => Some(id),
        Item::Comp(_) => None,
    }
}

/// The type that a reference from a place finds.
pub fn type_found(
    alloc: Global,
    space: &Space,
    at: Place,
    text: &str,
) -> Result<Option<TypeId>, Memory>
    ensures { IfOk result (λ id. id ≡ type_found_by space.now at text.now) }
{
    let item = space.look_up(alloc, at, text)?;
    Ok(item.and_then(type_of))
}

/// The interface that a reference from a place finds.
pub fn face_found(
    alloc: Global,
    space: &Space,
    at: Place,
    text: &str,
) -> Result<Option<FaceId>, Memory>
    ensures { IfOk result (λ id. id ≡ face_found_by space.now at text.now) }
{
    let item = space.look_up(alloc, at, text)?;
    Ok(item.and_then(face_of))
}

/// Whether an element is read-only.
pub fn read_only(tree: &Tree, node: u32) -> bool
    ensures { result ≡ is_yes (unwrap_or (attribute_at tree.now node (codes "readOnly")) []) }
{
    let text = text_of(tree, node, "readOnly");
    text == "true" || text == "1"
}
