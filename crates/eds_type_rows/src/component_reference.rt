//! The references inside components.

ghost use Rattle.std.specs.Prelude.{◌≡◌, ◌++◌, IfOk, OnOk};
ghost use Rattle.std.specs.List.{flat_map};
ghost use Rattle.eds_type_rows.specs.FaceReferences.{held_in as held_in_sets};
ghost use Rattle.eds_type_rows.specs.ComponentReferences.{end_places as ends_at, implemented as implemented_at, variable_places as variables_at, own_argument_places as own_arguments_at, typed_in_component, free_reference, references_of, component_references};

use crate::element::{attribute, push_held};
use crate::face_reference::{
    FaceReference, Sought, attribute_of, held_among, held_in, push_all, push_maps,
};
use crate::named_trees::NamedTrees;
use eds_base::{Memory, Place, Text};
use eds_tree::Tree;
use std::alloc::Global;

// ---- the elements of a component

fn end_places(alloc: Global, trees: &[Tree], at: Place) -> Result<Vec<Place>, Memory>
    ensures { IfOk result (λ p. p.items ≡ ends_at trees.now at) }
{
    let mut places = held_in(alloc, trees, "ProvidedInterfaceSet", "Interface", at)?;
    let required = held_in(alloc, trees, "RequiredInterfaceSet", "Interface", at)?;
    push_all(&mut places, &required)?;
    Ok(places)
}

fn push_held_in(
    alloc: Global,
    places: &mut Vec<Place>,
    trees: &[Tree],
    set: &str,
    name: &str,
    holders: &[Place],
) -> Result<(), Memory>
    ensures { OnOk result (places.new.items ≡ places.old.items ++ flat_map (held_in_sets trees.now set.now name.now) holders.now) }
{
    for holder in holders {
        let held = held_in(alloc, trees, set, name, *holder)?;
        push_all(places, &held)?;
    }
    Ok(())
}

/// What the sets of a name in the implementation of a component hold.
fn implemented(
    alloc: Global,
    trees: &[Tree],
    set: &str,
    name: &str,
    at: Place,
) -> Result<Vec<Place>, Memory>
    ensures { IfOk result (λ p. p.items ≡ implemented_at trees.now set.now name.now at) }
{
    let mut implementations = Vec::new(alloc);
    push_held(&mut implementations, trees, "Implementation", at)?;
    let mut places = Vec::new(alloc);
    push_held_in(alloc, &mut places, trees, set, name, &implementations)?;
    Ok(places)
}

fn own_argument_places(alloc: Global, trees: &[Tree], at: Place) -> Result<Vec<Place>, Memory>
    ensures { IfOk result (λ p. p.items ≡ own_arguments_at trees.now at) }
{
    let activities = implemented(alloc, trees, "ActivitySet", "Activity", at)?;
    held_among(alloc, trees, "Argument", &activities)
}

/// What the ends of a component map generic names to, its variables, and the arguments of its activities.
fn typed_places(
    alloc: Global,
    trees: &[Tree],
    ends: &[Place],
    at: Place,
) -> Result<Vec<Place>, Memory>
    requires { ends.now ≡ ends_at trees.now at }
    ensures { IfOk result (λ p. p.items ≡ typed_in_component trees.now at) }
{
    let mut places = Vec::new(alloc);
    push_maps(alloc, &mut places, trees, ends)?;
    let variables = implemented(alloc, trees, "VariableSet", "Variable", at)?;
    push_all(&mut places, &variables)?;
    let arguments = own_argument_places(alloc, trees, at)?;
    push_all(&mut places, &arguments)?;
    Ok(places)
}

// ---- its references

fn push_free_reference(
    alloc: Global,
    references: &mut Vec<FaceReference>,
    trees: &[Tree],
    sought: Sought,
    at: Place,
) -> Result<(), Memory>
    ensures { OnOk result (references.new.items ≡ references.old.items ++ free_reference trees.now sought at) }
{
    match attribute(trees, attribute_of(sought), at) {
        None => Ok(()),
        Some(text) => {
            let text = Text::of(alloc, text)?;
            references.push(FaceReference {
                place: at,
                text,
                sought,
                own: false,
            })?;
            Ok(())
        }
    }
}

fn push_free_references(
    alloc: Global,
    references: &mut Vec<FaceReference>,
    trees: &[Tree],
    sought: Sought,
    places: &[Place],
) -> Result<(), Memory>
    ensures { OnOk result (references.new.items ≡ references.old.items ++ flat_map (free_reference trees.now sought) places.now) }
{
    for at in places {
        push_free_reference(alloc, references, trees, sought, *at)?;
    }
    Ok(())
}

/// All references in a component.
fn push_references_of(
    alloc: Global,
    references: &mut Vec<FaceReference>,
    trees: &[Tree],
    at: Place,
) -> Result<(), Memory>
    ensures { OnOk result (references.new.items ≡ references.old.items ++ references_of trees.now at) }
{
    let ends = end_places(alloc, trees, at)?;
    let typed = typed_places(alloc, trees, &ends, at)?;
    push_free_references(alloc, references, trees, Sought::EndInterface, &ends)?;
    push_free_references(alloc, references, trees, Sought::MemberType, &typed)
}

// ---- all components

/// Puts all references in the components of a sheet last.
pub(crate) fn push_component_references(
    alloc: Global,
    references: &mut Vec<FaceReference>,
    sheet: &NamedTrees,
) -> Result<(), Memory>
    ensures { OnOk result (references.new.items ≡ references.old.items ++ component_references sheet.now.trees.now sheet.now.space.now) }
{
    for one in sheet.space.declared() {
        if one.item.is_comp() {
            push_references_of(alloc, references, sheet.trees, one.place)?;
        }
    }
    Ok(())
}
