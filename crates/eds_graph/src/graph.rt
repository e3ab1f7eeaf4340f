//! Numbers, and what each of them leads to.

use eds_base::{Items, Memory};
use std::alloc::Global;
use std::marker::Model;

/// At each number from 0 the numbers that it leads to in one step. A number for which nothing was pushed leads to nothing.
#[derive(Drop)]
pub struct Graph {
    lists: Items<Items<usize>>,
}

impl Model for Graph {
    ghost use Rattle.std.specs.Prelude.{List, ℕ};

    ghost Value = { List (List ℕ) };

    ghost view = { λ o. o.lists };
}

impl Graph {
    ghost use Rattle.std.specs.Prelude.{◌≡◌, ◌++◌, [], ◌∷◌, length, OnOk, OnErr};
    ghost use Rattle.eds_graph.specs.Ways.{children as children_in};

    /// No numbers.
    pub fn new(alloc: Global) -> Graph
        ensures { result ≡ [] }
    {
        Graph {
            lists: Items::new(alloc),
        }
    }

    /// Adds the next number with what it leads to. Where memory is refused, nothing changes.
    pub fn push(&mut self, children: Vec<usize>) -> Result<(), Memory>
        ensures ok { OnOk result (self.new ≡ self.old ++ children.items ∷ []) }
        ensures err { OnErr result (self.new ≡ self.old) }
    {
        self.lists.push(Items::from_vec(children))
    }

    /// How many numbers there are.
    pub fn len(&self) -> usize
        ensures { result ≡ length self.now }
    {
        self.lists.len()
    }

    /// What a number leads to in one step.
    pub fn children(&self, number: usize) -> &[usize]
        ensures { result.now ≡ children_in self.now number }
    {
        match self.lists.get(number) {
            None => &[],
            Some(list) => list.as_slice(),
        }
    }
}
