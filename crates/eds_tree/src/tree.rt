//! Element trees.

use crate::link::{self, Link, push_links};
use eds_base::{Items, Memory, Text};
use std::alloc::Global;
use std::marker::Model;

/// An element: its name without a prefix, its attributes with their texts, and the numbers of its children.
#[derive(Drop)]
pub struct Node {
    pub name: Text,
    pub attributes: Items<(Text, Text)>,
    pub children: Items<u32>,
}

impl Node {
    ghost use Rattle.std.specs.Prelude.{◌≡◌, option_map};
    ghost use Rattle.eds_tree.specs.Trees.{attribute_of};

    /// The text of an attribute.
    pub fn attribute(&self, name: &str) -> Option<&str>
        ensures { option_map (λ t. t.now) result ≡ attribute_of self.now name.now }
    {
        link::text_among(self.attributes.as_slice(), name)
    }
}

/// The elements of one file in document order, which is the order in which they open.
#[derive(Drop)]
pub struct Tree {
    nodes: Items<Node>,
}

/// The trees of the files of a sheet, in the order of the files.
pub type Trees = Items<Tree>;

impl Model for Tree {
    ghost use Rattle.std.specs.Prelude.{List};
    ghost use Rattle.eds_tree.specs.declared.tree.Node.{Node};

    ghost Value = { List Node };

    ghost view = { λ t. t.nodes };
}

impl Tree {
    ghost use Rattle.std.specs.Prelude.{◌≡◌, length, slice_get, option_map, IfOk};
    ghost use Rattle.std.specs.Option.{option_copied};
    ghost use Rattle.eds_tree.specs.Trees.{name_at, attribute_at, children_at, links_of};

    pub(crate) fn of(nodes: Items<Node>) -> Tree
        ensures { result ≡ nodes }
    {
        Tree { nodes }
    }

    /// How many elements there are, those that are passed over among them.
    pub fn len(&self) -> usize
        ensures { result ≡ length self.now }
    {
        self.nodes.len()
    }

    /// The element of a number.
    pub fn get(&self, i: usize) -> Option<&Node>
        ensures { option_copied result ≡ slice_get self.now i }
    {
        self.nodes.get(i)
    }

    /// All elements.
    pub fn as_slice(&self) -> &[Node]
        ensures { result.now ≡ self.now }
    {
        self.nodes.as_slice()
    }

    /// The name of an element, empty where there is no such element.
    pub fn name_at(&self, node: u32) -> &str
        ensures { result.now ≡ name_at self.now node }
    {
        link::name_at(self.nodes.as_slice(), node)
    }

    /// The text of an attribute of an element.
    pub fn attribute_at(&self, node: u32, name: &str) -> Option<&str>
        ensures { option_map (λ t. t.now) result ≡ attribute_at self.now node name.now }
    {
        link::text_among(link::attributes_at(self.nodes.as_slice(), node), name)
    }

    /// The numbers of the children of an element, those that are passed over among them.
    pub fn children_at(&self, node: u32) -> &[u32]
        ensures { result.now ≡ children_at self.now node }
    {
        link::children_at(self.nodes.as_slice(), node)
    }

    /// All elements that are not passed over, each with its parent, in document order.
    #[tactic(auto, unfolding(crate::specs::Trees::links_of))]
    pub fn links(&self, alloc: Global) -> Result<Items<Link>, Memory>
        ensures { IfOk result (λ links. links ≡ links_of self.now) }
    {
        let mut links = Vec::new(alloc);
        let nodes = self.nodes.as_slice();
        push_links(&mut links, nodes, nodes.len(), Link { parent: 0, node: 0 })?;
        Ok(Items::from_vec(links))
    }
}
