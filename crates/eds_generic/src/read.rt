//! From the elements of a sheet to its interfaces.

ghost use Rattle.std.specs.Prelude.{◌≡◌, ◌++◌, [], ◌∷◌, map, codes, unwrap_or, slice_get, IfOk, OnOk};
ghost use Rattle.std.specs.Option.{option_copied};
ghost use Rattle.std.specs.List.{flat_map};
ghost use Rattle.eds_tree.specs.Trees.{attribute_at};
ghost use Rattle.eds_names.specs.Positions.{place_among};
ghost use Rattle.eds_generic.specs.Reading.{own_name as own_name_of, type_or_first, names_among, names_at as names_at_place, base_type as base_type_of, generic_of as generic_at, source_named as source_at_name, source_of as source_at, mapped_of as mapped_at, base_face as base_face_of, base_of as base_at, mode_named as mode_by_name, parameter_of, argument_of as argument_at, command_of, members_of, face_at, face_of_place, face_places as face_places_of, faces_of};

use crate::elements::{
    face_found, held_by, held_in_sets, own_name, place, read_only, text_of, type_found,
};
use crate::face::{Base, Face, Generic, Mapped, OwnArgument, OwnMember, Source};
use eds_base::{FaceId, Items, Memory, Place, Text, TypeId};
use eds_names::{NameList, Space};
use eds_plan::Mode;
use eds_tree::Tree;
use std::alloc::Global;

/// A file, by its number among the files of the sheet, the names of the sheet, and those of its generic types.
#[derive(Clone, Copy)]
struct File<'a> {
    tree: &'a Tree,
    space: &'a Space,
    file: u16,
    /// The generic names of each interface.
    all: &'a [NameList],
}

fn names_of(alloc: Global, tree: &Tree, nodes: &[u32]) -> Result<Vec<Text>, Memory>
    ensures { IfOk result (λ v. v.items ≡ map (own_name_of tree.now) nodes.now) }
{
    let mut names = Vec::new(alloc);
    for node in nodes {
        names.push(Text::of(alloc, own_name(tree, *node))?)?;
    }
    Ok(names)
}

fn base_type(alloc: Global, file: &File, node: u32) -> Result<Option<TypeId>, Memory>
    ensures { IfOk result (λ id. id ≡ base_type_of file.now.tree.now file.now.space.now file.now.file node) }
{
    match file.tree.attribute_at(node, "baseType") {
        None => Ok(None),
        Some(text) => type_found(alloc, file.space, place(file.file, node), text),
    }
}

fn generic_of(alloc: Global, file: &File, node: u32) -> Result<Generic, Memory>
    ensures { IfOk result (λ g. g ≡ generic_at file.now.tree.now file.now.space.now file.now.file node) }
{
    let name = Text::of(alloc, own_name(file.tree, node))?;
    let base = base_type(alloc, file, node)?;
    Ok(Generic { name, base })
}

fn generics_of(alloc: Global, file: &File, nodes: &[u32]) -> Result<Vec<Generic>, Memory>
    ensures { IfOk result (λ v. v.items ≡ map (generic_at file.now.tree.now file.now.space.now file.now.file) nodes.now) }
{
    let mut generics = Vec::new(alloc);
    for node in nodes {
        let generic = generic_of(alloc, file, *node)?;
        generics.push(generic)?;
    }
    Ok(generics)
}

fn type_or_zero(id: Option<TypeId>) -> TypeId
    ensures { result ≡ type_or_first id }
{
    id.unwrap_or(TypeId(0))
}

fn source_named(
    alloc: Global,
    file: &File,
    own: &NameList,
    node: u32,
    text: &str,
) -> Result<Source, Memory>
    ensures { IfOk result (λ s. s ≡ source_at_name file.now.tree.now file.now.space.now file.now.file own.now node text.now) }
{
    match own.position(text) {
        Some(k) => Ok(Source::Generic(k)),
        None => {
            let found = type_found(alloc, file.space, place(file.file, node), text)?;
            Ok(Source::Sort(type_or_zero(found)))
        }
    }
}

fn source_of(alloc: Global, file: &File, own: &NameList, node: u32) -> Result<Source, Memory>
    ensures { IfOk result (λ s. s ≡ source_at file.now.tree.now file.now.space.now file.now.file own.now node) }
{
    source_named(alloc, file, own, node, text_of(file.tree, node, "type"))
}

/// The position of a name among the generic names of the interface of a number.
fn position_in(all: &[NameList], id: FaceId, name: &str) -> Option<usize>
    ensures { result ≡ place_among (names_among all.now id) name.now }
{
    let names = all.get(id.0 as usize)?;
    names.position(name)
}

fn mapped_of(
    alloc: Global,
    file: &File,
    own: &NameList,
    id: FaceId,
    node: u32,
) -> Result<Mapped, Memory>
    ensures { IfOk result (λ m. m ≡ mapped_at file.now.tree.now file.now.space.now file.now.file own.now (names_among file.now.all.now id) node) }
{
    let name = Text::of(alloc, own_name(file.tree, node))?;
    let generic = position_in(file.all, id, own_name(file.tree, node));
    let source = source_of(alloc, file, own, node)?;
    Ok(Mapped {
        name,
        generic,
        source,
    })
}

fn maps_of(
    alloc: Global,
    file: &File,
    own: &NameList,
    id: FaceId,
    nodes: &[u32],
) -> Result<Vec<Mapped>, Memory>
    ensures { IfOk result (λ v. v.items ≡ map (mapped_at file.now.tree.now file.now.space.now file.now.file own.now (names_among file.now.all.now id)) nodes.now) }
{
    let mut maps = Vec::new(alloc);
    for node in nodes {
        let one = mapped_of(alloc, file, own, id, *node)?;
        maps.push(one)?;
    }
    Ok(maps)
}

fn base_face(alloc: Global, file: &File, node: u32) -> Result<FaceId, Memory>
    ensures { IfOk result (λ id. id ≡ base_face_of file.now.tree.now file.now.space.now file.now.file node) }
{
    let text = text_of(file.tree, node, "type");
    match face_found(alloc, file.space, place(file.file, node), text)? {
        Some(id) => Ok(id),
        None => Ok(FaceId(0)),
    }
}

fn base_of(alloc: Global, file: &File, own: &NameList, node: u32) -> Result<Base, Memory>
    ensures { IfOk result (λ b. b ≡ base_at file.now.tree.now file.now.space.now file.now.file file.now.all.now own.now node) }
{
    let face = base_face(alloc, file, node)?;
    let nodes = held_in_sets(
        alloc,
        file.tree,
        "GenericTypeMapSet",
        "GenericTypeMap",
        node,
    )?;
    let maps = maps_of(alloc, file, own, face, nodes.as_slice())?;
    Ok(Base {
        face,
        maps: Items::from_vec(maps),
    })
}

fn bases_of(alloc: Global, file: &File, own: &NameList, nodes: &[u32]) -> Result<Vec<Base>, Memory>
    ensures { IfOk result (λ v. v.items ≡ map (base_at file.now.tree.now file.now.space.now file.now.file file.now.all.now own.now) nodes.now) }
{
    let mut bases = Vec::new(alloc);
    for node in nodes {
        let base = base_of(alloc, file, own, *node)?;
        bases.push(base)?;
    }
    Ok(bases)
}

fn mode_named(text: &str) -> Mode
    ensures { result ≡ mode_by_name text.now }
{
    if text == "out" {
        Mode::Out
    } else if text == "inout" {
        Mode::InOut
    } else if text == "notify" {
        Mode::Notify
    } else {
        Mode::In
    }
}

fn push_parameter(
    alloc: Global,
    members: &mut Vec<OwnMember>,
    file: &File,
    own: &NameList,
    node: u32,
) -> Result<(), Memory>
    ensures { OnOk result (members.new.items ≡ members.old.items ++ parameter_of file.now.tree.now file.now.space.now file.now.file own.now node ∷ []) }
{
    let name = Text::of(alloc, own_name(file.tree, node))?;
    let source = source_of(alloc, file, own, node)?;
    members.push(OwnMember::Parameter(name, source, read_only(file.tree, node)))?;
    Ok(())
}

fn argument_of(alloc: Global, file: &File, own: &NameList, node: u32) -> Result<OwnArgument, Memory>
    ensures { IfOk result (λ a. a ≡ argument_at file.now.tree.now file.now.space.now file.now.file own.now node) }
{
    let name = Text::of(alloc, own_name(file.tree, node))?;
    let source = source_of(alloc, file, own, node)?;
    Ok(OwnArgument {
        name,
        source,
        mode: mode_named(text_of(file.tree, node, "mode")),
    })
}

fn arguments_of(
    alloc: Global,
    file: &File,
    own: &NameList,
    nodes: &[u32],
) -> Result<Vec<OwnArgument>, Memory>
    ensures { IfOk result (λ v. v.items ≡ map (argument_at file.now.tree.now file.now.space.now file.now.file own.now) nodes.now) }
{
    let mut arguments = Vec::new(alloc);
    for node in nodes {
        let argument = argument_of(alloc, file, own, *node)?;
        arguments.push(argument)?;
    }
    Ok(arguments)
}

fn push_command(
    alloc: Global,
    members: &mut Vec<OwnMember>,
    file: &File,
    own: &NameList,
    node: u32,
) -> Result<(), Memory>
    ensures { OnOk result (members.new.items ≡ members.old.items ++ command_of file.now.tree.now file.now.space.now file.now.file own.now node ∷ []) }
{
    let name = Text::of(alloc, own_name(file.tree, node))?;
    let nodes = held_by(alloc, file.tree, "Argument", node)?;
    let arguments = arguments_of(alloc, file, own, nodes.as_slice())?;
    members.push(OwnMember::Command(name, Items::from_vec(arguments)))?;
    Ok(())
}

fn push_parameters(
    alloc: Global,
    members: &mut Vec<OwnMember>,
    file: &File,
    own: &NameList,
    nodes: &[u32],
) -> Result<(), Memory>
    ensures { OnOk result (members.new.items ≡ members.old.items ++ map (parameter_of file.now.tree.now file.now.space.now file.now.file own.now) nodes.now) }
{
    for node in nodes {
        push_parameter(alloc, members, file, own, *node)?;
    }
    Ok(())
}

fn push_commands(
    alloc: Global,
    members: &mut Vec<OwnMember>,
    file: &File,
    own: &NameList,
    nodes: &[u32],
) -> Result<(), Memory>
    ensures { OnOk result (members.new.items ≡ members.old.items ++ map (command_of file.now.tree.now file.now.space.now file.now.file own.now) nodes.now) }
{
    for node in nodes {
        push_command(alloc, members, file, own, *node)?;
    }
    Ok(())
}

fn own_members(
    alloc: Global,
    file: &File,
    own: &NameList,
    node: u32,
) -> Result<Vec<OwnMember>, Memory>
    ensures { IfOk result (λ v. v.items ≡ members_of file.now.tree.now file.now.space.now file.now.file own.now node) }
{
    let parameters = held_in_sets(alloc, file.tree, "ParameterSet", "Parameter", node)?;
    let commands = held_in_sets(alloc, file.tree, "CommandSet", "Command", node)?;
    let mut members = Vec::new(alloc);
    push_parameters(alloc, &mut members, file, own, parameters.as_slice())?;
    push_commands(alloc, &mut members, file, own, commands.as_slice())?;
    Ok(members)
}

fn read_face(alloc: Global, file: &File, node: u32) -> Result<Face, Memory>
    ensures { IfOk result (λ f. f ≡ face_at file.now.tree.now file.now.space.now file.now.file file.now.all.now node) }
{
    let nodes = held_in_sets(alloc, file.tree, "GenericTypeSet", "GenericType", node)?;
    let names = names_of(alloc, file.tree, nodes.as_slice())?;
    let own = NameList::of(alloc, names)?;
    let generics = generics_of(alloc, file, nodes.as_slice())?;
    let found = held_in_sets(alloc, file.tree, "BaseInterfaceSet", "Base", node)?;
    let bases = bases_of(alloc, file, &own, found.as_slice())?;
    let members = own_members(alloc, file, &own, node)?;
    Ok(Face {
        place: place(file.file, node),
        generics: Items::from_vec(generics),
        bases: Items::from_vec(bases),
        members: Items::from_vec(members),
    })
}

fn tree_at(trees: &[Tree], file: u16) -> Option<&Tree>
    ensures { option_copied result ≡ slice_get trees.now file }
{
    trees.get(file as usize)
}

fn push_face(
    alloc: Global,
    faces: &mut Vec<Face>,
    trees: &[Tree],
    space: &Space,
    all: &[NameList],
    at: Place,
) -> Result<(), Memory>
    ensures { OnOk result (faces.new.items ≡ faces.old.items ++ face_of_place trees.now space.now all.now at) }
{
    match tree_at(trees, at.file) {
        None => Ok(()),
        Some(tree) => {
            let file = File {
                tree,
                space,
                file: at.file,
                all,
            };
            let face = read_face(alloc, &file, at.node)?;
            faces.push(face)?;
            Ok(())
        }
    }
}

fn face_places(alloc: Global, space: &Space) -> Result<Vec<Place>, Memory>
    ensures { IfOk result (λ v. v.items ≡ face_places_of space.now) }
{
    let mut places = Vec::new(alloc);
    for one in space.declared() {
        if one.item.is_face() {
            places.push(one.place)?;
        }
    }
    Ok(places)
}

fn names_at(alloc: Global, trees: &[Tree], at: Place) -> Result<NameList, Memory>
    ensures { IfOk result (λ g. g ≡ names_at_place trees.now at) }
{
    match tree_at(trees, at.file) {
        None => NameList::of(alloc, Vec::new(alloc)),
        Some(tree) => {
            let nodes = held_in_sets(alloc, tree, "GenericTypeSet", "GenericType", at.node)?;
            let names = names_of(alloc, tree, nodes.as_slice())?;
            NameList::of(alloc, names)
        }
    }
}

/// The generic names of the interfaces at some places.
fn all_names(alloc: Global, trees: &[Tree], places: &[Place]) -> Result<Vec<NameList>, Memory>
    ensures { IfOk result (λ v. v.items ≡ map (names_at_place trees.now) places.now) }
{
    let mut all = Vec::new(alloc);
    for at in places {
        let names = names_at(alloc, trees, *at)?;
        all.push(names)?;
    }
    Ok(all)
}

/// The interfaces of a sheet, each at its `FaceId`.
pub fn read_faces(alloc: Global, trees: &[Tree], space: &Space) -> Result<Vec<Face>, Memory>
    ensures { IfOk result (λ v. v.items ≡ faces_of trees.now space.now) }
{
    let places = face_places(alloc, space)?;
    let all = all_names(alloc, trees, places.as_slice())?;
    let mut faces = Vec::new(alloc);
    for at in places.as_slice() {
        push_face(alloc, &mut faces, trees, space, &all, *at)?;
    }
    Ok(faces)
}
