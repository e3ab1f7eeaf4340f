//! The references inside interfaces.

ghost use Rattle.std.specs.Prelude.{◌≡◌, ◌++◌, ℕ, List, map, string_bytes, IfOk, OnOk};
ghost use Rattle.std.specs.List.{flat_map};
ghost use Rattle.eds_names.specs.Repeats.{is_among};
ghost use Rattle.eds_type_rows.specs.Places.{held, own_name as own_name_of};
ghost use Rattle.eds_type_rows.specs.FaceReferences.{held_in as held_in_sets, generic_names, base_places as bases_at, map_places as maps_at, typed_places as typed_at, is_own as is_own_name, attribute_of as attribute_sought, reference_at, references_in as references_at, face_places as face_places_of, face_references as face_references_of};

use crate::element::{attribute, own_name, push_held};
use crate::name_set::note_name;
use crate::named_trees::NamedTrees;
use eds_base::{Memory, Place, Text};
use eds_names::Space;
use eds_tree::Tree;
use indexmap::IndexSet;
use std::alloc::Global;

/// What a reference inside an interface or a component is to find.
#[derive(Clone, Copy, PartialEq, Eq)]
pub enum Sought {
    /// The interface that a base names.
    BaseInterface,
    /// The interface that an end of a component names.
    EndInterface,
    /// The type that all that a generic name stands for is or derives from.
    GenericBase,
    /// The type of a parameter, of an argument, of a variable, or in a map.
    MemberType,
}

/// A reference inside an interface or a component.
#[derive(Drop)]
pub struct FaceReference {
    pub place: Place,
    pub text: Text,
    pub sought: Sought,
    /// Whether it is a generic name of the interface itself, in which it stands.
    pub own: bool,
}

// ---- the elements of an interface

pub(crate) fn held_among(
    alloc: Global,
    trees: &[Tree],
    name: &str,
    holders: &[Place],
) -> Result<Vec<Place>, Memory>
    ensures { IfOk result (λ p. p.items ≡ flat_map (held trees.now name.now) holders.now) }
{
    let mut places = Vec::new(alloc);
    for holder in holders {
        push_held(&mut places, trees, name, *holder)?;
    }
    Ok(places)
}

pub(crate) fn held_in(
    alloc: Global,
    trees: &[Tree],
    set: &str,
    name: &str,
    at: Place,
) -> Result<Vec<Place>, Memory>
    ensures { IfOk result (λ p. p.items ≡ held_in_sets trees.now set.now name.now at) }
{
    let mut sets = Vec::new(alloc);
    push_held(&mut sets, trees, set, at)?;
    held_among(alloc, trees, name, &sets)
}

fn map_places(alloc: Global, trees: &[Tree], at: Place) -> Result<Vec<Place>, Memory>
    ensures { IfOk result (λ p. p.items ≡ maps_at trees.now at) }
{
    held_in(alloc, trees, "GenericTypeMapSet", "GenericTypeMap", at)
}

/// What the bases of an interface map generic names to, its parameters, and the arguments of its commands.
fn typed_places(
    alloc: Global,
    trees: &[Tree],
    bases: &[Place],
    at: Place,
) -> Result<Vec<Place>, Memory>
    requires { bases.now ≡ bases_at trees.now at }
    ensures { IfOk result (λ p. p.items ≡ typed_at trees.now at) }
{
    let mut places = Vec::new(alloc);
    push_maps(alloc, &mut places, trees, bases)?;
    let parameters = held_in(alloc, trees, "ParameterSet", "Parameter", at)?;
    push_all(&mut places, &parameters)?;
    let commands = held_in(alloc, trees, "CommandSet", "Command", at)?;
    let arguments = held_among(alloc, trees, "Argument", &commands)?;
    push_all(&mut places, &arguments)?;
    Ok(places)
}

pub(crate) fn push_all(places: &mut Vec<Place>, more: &[Place]) -> Result<(), Memory>
    ensures { OnOk result (places.new.items ≡ places.old.items ++ more.now) }
{
    for at in more {
        places.push(*at)?;
    }
    Ok(())
}

pub(crate) fn push_maps(
    alloc: Global,
    places: &mut Vec<Place>,
    trees: &[Tree],
    bases: &[Place],
) -> Result<(), Memory>
    ensures { OnOk result (places.new.items ≡ places.old.items ++ flat_map (maps_at trees.now) bases.now) }
{
    for base in bases {
        let maps = map_places(alloc, trees, *base)?;
        push_all(places, &maps)?;
    }
    Ok(())
}

// ---- own generic names

/// The generic names of an interface.
#[derive(Drop)]
struct OwnNames<'a> {
    trees: &'a [Tree],
    interface: Place,
    names: IndexSet<String>,
    ghost held: { (q : List ℕ) → is_among (map string_bytes names.keys) q ≡ is_among (generic_names trees.now interface) q },
}

fn names_at(alloc: Global, trees: &[Tree], places: &[Place]) -> Result<IndexSet<String>, Memory>
    ensures { IfOk result (λ s. (q : List ℕ) → is_among (map string_bytes s.keys) q ≡ is_among (map (own_name_of trees.now) places.now) q) }
{
    let mut names = IndexSet::new(alloc);
    for at in places {
        note_name(alloc, &mut names, own_name(trees, *at))?;
    }
    Ok(names)
}

fn is_own(own: &OwnNames, sought: Sought, text: &str) -> bool
    ensures { result ≡ is_own_name (generic_names own.now.trees.now own.now.interface) sought text.now }
{
    match sought {
        Sought::GenericBase => false,
        Sought::BaseInterface => own.names.contains(text),
        Sought::EndInterface => false,
        Sought::MemberType => own.names.contains(text),
    }
}

// ---- its references

pub(crate) fn attribute_of(sought: Sought) -> &'static str
    ensures { result.now ≡ attribute_sought sought }
{
    match sought {
        Sought::GenericBase => "baseType",
        Sought::BaseInterface => "type",
        Sought::EndInterface => "type",
        Sought::MemberType => "type",
    }
}

fn push_reference(
    alloc: Global,
    references: &mut Vec<FaceReference>,
    own: &OwnNames,
    sought: Sought,
    at: Place,
) -> Result<(), Memory>
    ensures { OnOk result (references.new.items ≡ references.old.items ++ reference_at own.now.trees.now own.now.interface sought at) }
{
    match attribute(own.trees, attribute_of(sought), at) {
        None => Ok(()),
        Some(text) => {
            let copy = Text::of(alloc, text)?;
            references.push(FaceReference {
                place: at,
                text: copy,
                sought,
                own: is_own(own, sought, text),
            })?;
            Ok(())
        }
    }
}

fn push_references(
    alloc: Global,
    references: &mut Vec<FaceReference>,
    own: &OwnNames,
    sought: Sought,
    places: &[Place],
) -> Result<(), Memory>
    ensures { OnOk result (references.new.items ≡ references.old.items ++ flat_map (reference_at own.now.trees.now own.now.interface sought) places.now) }
{
    for at in places {
        push_reference(alloc, references, own, sought, *at)?;
    }
    Ok(())
}

/// All references in an interface.
fn push_references_in(
    alloc: Global,
    references: &mut Vec<FaceReference>,
    trees: &[Tree],
    at: Place,
) -> Result<(), Memory>
    ensures { OnOk result (references.new.items ≡ references.old.items ++ references_at trees.now at) }
{
    let generics = held_in(alloc, trees, "GenericTypeSet", "GenericType", at)?;
    let bases = held_in(alloc, trees, "BaseInterfaceSet", "Base", at)?;
    let typed = typed_places(alloc, trees, &bases, at)?;
    let own = OwnNames {
        trees,
        interface: at,
        names: names_at(alloc, trees, &generics)?,
    };
    push_references(alloc, references, &own, Sought::GenericBase, &generics)?;
    push_references(alloc, references, &own, Sought::BaseInterface, &bases)?;
    push_references(alloc, references, &own, Sought::MemberType, &typed)
}

// ---- all interfaces

/// The elements of the declared interfaces.
pub fn face_places(alloc: Global, space: &Space) -> Result<Vec<Place>, Memory>
    ensures { IfOk result (λ p. p.items ≡ face_places_of space.now) }
{
    let mut places = Vec::new(alloc);
    for one in space.declared() {
        if one.item.is_face() {
            places.push(one.place)?;
        }
    }
    Ok(places)
}

/// Puts all references in the interfaces of a sheet last.
pub(crate) fn push_face_references(
    alloc: Global,
    references: &mut Vec<FaceReference>,
    sheet: &NamedTrees,
) -> Result<(), Memory>
    ensures { OnOk result (references.new.items ≡ references.old.items ++ face_references_of sheet.now.trees.now sheet.now.space.now) }
{
    let places = face_places(alloc, sheet.space)?;
    for at in places.as_slice() {
        push_references_in(alloc, references, sheet.trees, *at)?;
    }
    Ok(())
}
