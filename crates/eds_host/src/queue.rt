//! What is still to be delivered.

use eds_base::Memory;
use eds_plan::Primitive;
use std::alloc::Global;
use std::collections::VecDeque;
use std::marker::Model;

/// Primitives that are still to be delivered, first in and first out. Clauses see their plain data.
#[derive(Drop)]
pub struct Queue {
    inner: VecDeque<Primitive>,
}

impl Model for Queue {
    ghost use Rattle.std.specs.Prelude.{List, map};
    ghost use Rattle.std.specs.Coded.{codes};
    ghost use Rattle.eds_plan.specs.Outs.{Signal, signal};
    ghost use Rattle.eds_types.specs.PlainCode.{plain_code};

    ghost Value = { List Signal };

    ghost coded = { Prim.hlevel (codes, plain_code) };

    ghost view = { λ q. map signal q.inner.items };
}

impl Queue {
    ghost use Rattle.std.specs.Prelude.{◌≡◌, ◌++◌, [], ◌∷◌, OnOk, IfSome, IfNone};
    ghost use Rattle.eds_plan.specs.Outs.{signal};

    /// Nothing is to be delivered.
    pub fn new(alloc: Global) -> Queue
        ensures { result ≡ [] }
    {
        Queue {
            inner: VecDeque::new(alloc),
        }
    }

    /// A primitive is to be delivered after all others.
    pub fn push(&mut self, p: Primitive) -> Result<(), Memory>
        ensures { OnOk result (self.new ≡ self.old ++ signal p ∷ []) }
    {
        self.inner.push_back(p)?;
        Ok(())
    }

    /// Takes the first out.
    pub fn pop(&mut self) -> Option<Primitive>
        ensures first { IfSome result (λ p. self.old ≡ signal p ∷ self.new) }
        ensures none { IfNone result (self.old ≡ []) }
        ensures same { IfNone result (self.new ≡ []) }
    {
        self.inner.pop_front()
    }
}
