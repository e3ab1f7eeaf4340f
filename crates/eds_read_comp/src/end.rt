//! The ends of a component (CCSDS 876.0-B, provided and required interfaces).

ghost use Rattle.std.specs.Prelude.{◌≡◌, ◌++◌, map, codes, IfOk, OnOk};
ghost use Rattle.eds_generic.specs.Reading.{base_face};
ghost use Rattle.eds_read_comp.specs.Ends.{is_end_set as is_end_set_in, ends_in, end_elements as end_elements_of, mapped_at as mapped_in, use_at as use_in, uses_of as uses_in};

use crate::file::File;
use eds_base::{FaceId, Items, Memory, Text, TypeId};
use eds_generic::{
    FaceUse, face_found, held_by, held_in_sets, own_name, place, text_of, type_found,
};
use eds_plan::TypeMap;
use eds_tree::Tree;
use std::alloc::Global;

/// The element of an end, and whether the end is a required one.
#[derive(Clone, Copy, PartialEq, Eq)]
pub(crate) struct EndElement {
    pub(crate) node: u32,
    pub(crate) required: bool,
}

fn is_end_set(tree: &Tree, node: u32) -> bool
    ensures { result ≡ is_end_set_in tree.now node }
{
    let name = tree.name_at(node);
    name == "ProvidedInterfaceSet" || name == "RequiredInterfaceSet"
}

fn push_ends(alloc: Global, ends: &mut Vec<EndElement>, tree: &Tree, set: u32) -> Result<(), Memory>
    ensures { OnOk result (ends.new.items ≡ ends.old.items ++ ends_in tree.now set) }
{
    let required = tree.name_at(set) == "RequiredInterfaceSet";
    let nodes = held_by(alloc, tree, "Interface", set)?;
    for node in nodes.as_slice() {
        ends.push(EndElement {
            node: *node,
            required,
        })?;
    }
    Ok(())
}

/// The ends of a component, in document order over both sets.
pub(crate) fn end_elements(alloc: Global, tree: &Tree, node: u32) -> Result<Vec<EndElement>, Memory>
    ensures { IfOk result (λ e. e.items ≡ end_elements_of tree.now node) }
{
    let mut ends = Vec::new(alloc);
    for child in tree.children_at(node) {
        if is_end_set(tree, *child) {
            push_ends(alloc, &mut ends, tree, *child)?;
        }
    }
    Ok(ends)
}

// ---- what an end says

/// The type that the `type` of an element finds.
pub(crate) fn type_at(alloc: Global, file: &File, node: u32) -> Result<TypeId, Memory>
    ensures { IfOk result (λ id. id ≡ (mapped_in file.now.tree.now file.now.space.now file.now.file node).1) }
{
    let text = text_of(file.tree, node, "type");
    match type_found(alloc, file.space, place(file.file, node), text)? {
        Some(id) => Ok(id),
        None => Ok(TypeId(0)),
    }
}

fn face_at(alloc: Global, file: &File, node: u32) -> Result<FaceId, Memory>
    ensures { IfOk result (λ id. id ≡ base_face file.now.tree.now file.now.space.now file.now.file node) }
{
    let text = text_of(file.tree, node, "type");
    match face_found(alloc, file.space, place(file.file, node), text)? {
        Some(id) => Ok(id),
        None => Ok(FaceId(0)),
    }
}

/// The names of some elements, each with the type that the element names.
pub(crate) fn typed_names(alloc: Global, file: &File, nodes: &[u32]) -> Result<TypeMap, Memory>
    ensures { IfOk result (λ m. m ≡ map (mapped_in file.now.tree.now file.now.space.now file.now.file) nodes.now) }
{
    let mut mapped = Vec::new(alloc);
    for node in nodes {
        let name = Text::of(alloc, own_name(file.tree, *node))?;
        let id = type_at(alloc, file, *node)?;
        mapped.push((name, id))?;
    }
    Ok(Items::from_vec(mapped))
}

/// The interface that an end uses, under its map.
pub(crate) fn use_at(alloc: Global, file: &File, node: u32) -> Result<FaceUse, Memory>
    ensures { IfOk result (λ u. u ≡ use_in file.now.tree.now file.now.space.now file.now.file node) }
{
    let face = face_at(alloc, file, node)?;
    let nodes = held_in_sets(
        alloc,
        file.tree,
        "GenericTypeMapSet",
        "GenericTypeMap",
        node,
    )?;
    let map = typed_names(alloc, file, nodes.as_slice())?;
    Ok(FaceUse {
        place: place(file.file, node),
        face,
        map,
    })
}

/// Puts what the ends of a component use last.
pub(crate) fn push_uses(
    alloc: Global,
    uses: &mut Vec<FaceUse>,
    file: &File,
    node: u32,
) -> Result<(), Memory>
    ensures { OnOk result (uses.new.items ≡ uses.old.items ++ uses_in file.now.tree.now file.now.space.now file.now.file node) }
{
    let ends = end_elements(alloc, file.tree, node)?;
    for end in ends.as_slice() {
        let used = use_at(alloc, file, end.node)?;
        uses.push(used)?;
    }
    Ok(())
}
