//! The trees of a sheet with their names.

ghost use Rattle.std.specs.Prelude.{◌≡◌, ◌≤◌, ◌++◌, Ok, length, map, filter, option_map, IfOk, OnOk};
ghost use Rattle.eds_tree.specs.ShapeCheck.{shape_verdict};
ghost use Rattle.eds_names.specs.LookUp.{names_in};
ghost use Rattle.eds_type_rows.specs.Places.{places_in, elements as elements_of, type_places as type_places_of, word_place};

use eds_base::{Memory, Place};
use eds_names::{Declared, Space};
use eds_tree::Tree;
use std::alloc::Global;

/// The trees of at most 64 files, whose elements are as they should be, with their names, and the TYPE word, where there is one.
#[derive(Drop)]
pub struct NamedTrees<'a> {
    pub trees: &'a [Tree],
    pub space: &'a Space,
    pub asked: Option<&'a str>,
    /// All elements that are not passed over.
    pub elements: &'a [Place],
    /// The elements of the declared types, each at its `TypeId`.
    pub types: &'a [Place],
    pub ghost few: { length trees.now ≤ 64 },
    pub ghost shaped: { shape_verdict trees.now ≡ Ok tt },
    pub ghost named: { names_in trees.now ≡ Ok space.now },
    pub ghost walked: { elements.now ≡ elements_of trees.now },
    pub ghost known: { types.now ≡ type_places_of space.now },
}

impl<'a> NamedTrees<'a> {
    /// The place of the TYPE word, behind all files.
    pub fn word_place(&self) -> Place
        ensures { result ≡ word_place self.now.trees.now }
    {
        Place {
            file: self.trees.len() as u16,
            node: 0,
        }
    }
}

fn push_elements(
    alloc: Global,
    places: &mut Vec<Place>,
    file: u16,
    tree: &Tree,
) -> Result<(), Memory>
    ensures { OnOk result (places.new.items ≡ places.old.items ++ places_in file tree.now) }
{
    let links = tree.links(alloc)?;
    for link in links.as_slice() {
        places.push(Place {
            file,
            node: link.node,
        })?;
    }
    Ok(())
}

/// All elements of some files that are not passed over.
pub fn elements(alloc: Global, trees: &[Tree]) -> Result<Vec<Place>, Memory>
    requires { length trees.now ≤ 64 }
    ensures { IfOk result (λ p. p.items ≡ elements_of trees.now) }
{
    let mut places = Vec::new(alloc);
    for (file, tree) in trees.iter().enumerate() {
        push_elements(alloc, &mut places, file as u16, tree)?;
    }
    Ok(places)
}

/// The elements of the declared types.
pub fn type_places(alloc: Global, space: &Space) -> Result<Vec<Place>, Memory>
    ensures { IfOk result (λ p. p.items ≡ type_places_of space.now) }
{
    let mut places = Vec::new(alloc);
    for one in space.declared() {
        if one.item.is_sort() {
            places.push(one.place)?;
        }
    }
    Ok(places)
}
