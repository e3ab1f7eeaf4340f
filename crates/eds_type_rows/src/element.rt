//! The elements of a sheet by their places, and those of one file by their numbers.

ghost use Rattle.std.specs.Prelude.{◌≡◌, ◌++◌, OnOk, IfOk, option_map, slice_get};
ghost use Rattle.std.specs.Option.{option_copied};
ghost use Rattle.eds_tree.specs.Trees.{node_name, node_children};
ghost use Rattle.eds_type_rows.specs.Places.{element as element_of, is_element as is_named, attribute as attribute_of, own_name as own_name_of, is_container as is_container_at, is_sub_range as is_sub_range_at, is_number as is_number_at, is_index as is_index_at, is_array as is_array_at, held};
ghost use Rattle.eds_type_rows.specs.Held.{child_named, number_at};

use eds_base::{Memory, Place};
use eds_tree::{Node, Tree, whole_number};

/// The tree of the file of a number.
pub fn tree_at(trees: &[Tree], file: u16) -> Option<&Tree>
    ensures { option_copied result ≡ slice_get trees.now file }
{
    trees.get(file as usize)
}

fn element<'a>(trees: &'a [Tree], at: Place) -> Option<&'a Node>
    ensures { option_copied result ≡ element_of trees.now at }
{
    trees.get(at.file as usize)?.get(at.node as usize)
}

/// The name of the element at a place, empty where there is none.
pub fn name_at(trees: &[Tree], at: Place) -> &str
    ensures { result.now ≡ node_name (element_of trees.now at) }
{
    match element(trees, at) {
        None => "",
        Some(node) => node.name.as_str(),
    }
}

/// The numbers of the children of the element at a place, in document order.
pub fn children_at(trees: &[Tree], at: Place) -> &[u32]
    ensures { result.now ≡ node_children (element_of trees.now at) }
{
    match element(trees, at) {
        None => &[],
        Some(node) => node.children.as_slice(),
    }
}

/// Whether the element at a place has this name.
pub fn is_element(trees: &[Tree], name: &str, at: Place) -> bool
    ensures { result ≡ is_named trees.now name.now at }
{
    name_at(trees, at) == name
}

/// Whether the element at a place is a container.
pub fn is_container(trees: &[Tree], at: Place) -> bool
    ensures { result ≡ is_container_at trees.now at }
{
    is_element(trees, "ContainerDataType", at)
}

/// Whether the element at a place is a sub-range.
pub fn is_sub_range(trees: &[Tree], at: Place) -> bool
    ensures { result ≡ is_sub_range_at trees.now at }
{
    is_element(trees, "SubRangeDataType", at)
}

/// Whether the element at a place is an integer type or a sub-range.
pub fn is_number(trees: &[Tree], at: Place) -> bool
    ensures { result ≡ is_number_at trees.now at }
{
    is_element(trees, "IntegerDataType", at) || is_sub_range(trees, at)
}

/// Whether the element at a place is an integer type, a sub-range, or an enumerated or boolean type.
pub fn is_index(trees: &[Tree], at: Place) -> bool
    ensures { result ≡ is_index_at trees.now at }
{
    is_number(trees, at)
        || is_element(trees, "EnumeratedDataType", at)
        || is_element(trees, "BooleanDataType", at)
}

/// Whether the element at a place is an array.
pub(crate) fn is_array(trees: &[Tree], at: Place) -> bool
    ensures { result ≡ is_array_at trees.now at }
{
    is_element(trees, "ArrayDataType", at)
}

/// The text of an attribute of the element at a place.
pub fn attribute<'a>(trees: &'a [Tree], name: &str, at: Place) -> Option<&'a str>
    ensures { option_map (λ t. t.now) result ≡ attribute_of trees.now name.now at }
{
    element(trees, at)?.attribute(name)
}

/// The name that the element at a place gives itself, empty where it gives none.
pub fn own_name(trees: &[Tree], at: Place) -> &str
    ensures { result.now ≡ own_name_of trees.now at }
{
    attribute(trees, "name", at).unwrap_or("")
}

/// Puts those children of the element at a place last that have a name.
pub fn push_held(
    places: &mut Vec<Place>,
    trees: &[Tree],
    name: &str,
    at: Place,
) -> Result<(), Memory>
    ensures { OnOk result (places.new.items ≡ places.old.items ++ held trees.now name.now at) }
{
    for node in children_at(trees, at) {
        let child = Place {
            file: at.file,
            node: *node,
        };
        if is_element(trees, name, child) {
            places.push(child)?;
        }
    }
    Ok(())
}

/// The first child of an element that has a name.
pub fn child_named(tree: &Tree, node: u32, name: &str) -> Option<u32>
    ensures { result ≡ child_named tree.now node name.now }
{
    tree.children_at(node)
        .iter()
        .copied()
        .find(|child| tree.name_at(*child) == name)
}

/// The whole number that an attribute of an element spells.
pub(crate) fn number_at(tree: &Tree, node: u32, name: &str) -> Option<i128>
    ensures { result ≡ number_at tree.now node name.now }
{
    whole_number(tree.attribute_at(node, name)?)
}
