//! Chains of types.

use eds_base::TypeId;
use std::marker::Model;

/// The most types of a chain.
const MOST: usize = 16;

/// The types from the root of a type's bases down to the type itself: at most 16, seen as the list of them.
#[derive(Drop)]
pub struct Chain {
    // They fill the end: a chain is put together from its last type up.
    ids: [TypeId; 16],
    from: usize,
}

impl Model for Chain {
    ghost use Rattle.std.specs.Prelude.{List, drop, ◌≤◌};
    ghost use Rattle.eds_base.specs.declared.ids.TypeId.{TypeId};

    ghost Value = { List TypeId };

    ghost view = { λ c. drop c.from c.ids };

    ghost invariant = { λ c. c.from ≤ 16 };
}

impl Chain {
    ghost use Rattle.std.specs.Prelude.{◌≡◌, [], ◌∷◌, length, ◌<◌, ◌≤◌, slice_get};
    ghost use Rattle.std.specs.Option.{option_copied};

    /// The chain of the type alone.
    pub(crate) fn of_one(id: TypeId) -> Chain
        ensures { result ≡ id ∷ [] }
    {
        Chain {
            ids: [id; MOST],
            from: MOST - 1,
        }
    }

    /// Puts a type above all others.
    pub(crate) fn put_first(&mut self, id: TypeId)
        requires { length self.old < 16 }
        ensures { self.new ≡ id ∷ self.old }
    {
        self.from -= 1;
        self.ids[self.from] = id;
    }

    /// How many types there are.
    pub fn len(&self) -> usize
        ensures value { result ≡ length self.now }
        ensures few { length self.now ≤ 16 }
    {
        self.ids[self.from..].len()
    }

    /// The type at a position from 0, the root's, None exactly past the end.
    pub fn get(&self, i: usize) -> Option<&TypeId>
        ensures { option_copied result ≡ slice_get self.now i }
    {
        self.ids[self.from..].get(i)
    }

    /// All of them, from the root down.
    pub fn as_slice(&self) -> &[TypeId]
        ensures value { result.now ≡ self.now }
        ensures few { length self.now ≤ 16 }
    {
        &self.ids[self.from..]
    }
}
