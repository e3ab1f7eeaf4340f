//! A queue that contracts see as a list.

use crate::Memory;
use std::alloc::Global;
use std::collections::VecDeque;
use std::marker::Model;

/// Items that wait, the one that came first at the front.
#[derive(Drop)]
pub struct Queue<T> {
    inner: VecDeque<T>,
}

impl<T> Model for Queue<T> {
    ghost use Rattle.std.specs.Prelude.{List};

    ghost Value = { List T };

    ghost view = { λ q. q.inner.items };
}

impl<T> Queue<T> {
    ghost use Rattle.std.specs.Prelude.{◌≡◌, ◌↔◌, [], length, IsTrue};

    /// A queue in which nothing waits.
    pub fn new(alloc: Global) -> Queue<T>
        ensures { result ≡ [] }
    {
        Queue {
            inner: VecDeque::new(alloc),
        }
    }

    /// How many items wait.
    pub fn len(&self) -> usize
        ensures { result ≡ length self.now }
    {
        self.inner.len()
    }

    /// Whether nothing waits.
    pub fn is_empty(&self) -> bool
        ensures { IsTrue result ↔ (length self.now ≡ 0) }
    {
        self.inner.is_empty()
    }
}

impl<T: Drop> Queue<T> {
    ghost use Rattle.std.specs.Prelude.{◌≡◌, ◌++◌, [], ◌∷◌, OnOk, OnErr, IfSome, IfNone};

    /// Puts an item at the end. Where memory is refused, nothing changes.
    pub fn push(&mut self, item: T) -> Result<(), Memory>
        ensures ok { OnOk result (self.new ≡ self.old ++ item ∷ []) }
        ensures err { OnErr result (self.new ≡ self.old) }
    {
        self.inner.push_back(item)?;
        Ok(())
    }

    /// Takes the item at the front, None exactly where nothing waits.
    pub fn pop(&mut self) -> Option<T>
        ensures first { IfSome result (λ item. self.old ≡ item ∷ self.new) }
        ensures none { IfNone result (self.old ≡ []) }
        ensures same { IfNone result (self.new ≡ []) }
    {
        self.inner.pop_front()
    }
}
