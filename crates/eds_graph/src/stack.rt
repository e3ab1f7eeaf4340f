//! A stack that contracts see as a list, the top first.

use eds_base::Memory;
use std::alloc::Global;
use std::marker::Model;

/// Items of which the last that was put is on top.
#[derive(Drop)]
pub(crate) struct Stack<T> {
    inner: Vec<T>,
}

impl<T> Model for Stack<T> {
    ghost use Rattle.std.specs.Prelude.{List, reverse};

    ghost Value = { List T };

    ghost view = { λ s. reverse s.inner.items };
}

impl<T> Stack<T> {
    ghost use Rattle.std.specs.Prelude.{◌≡◌, [], length};

    /// No items.
    pub(crate) fn new(alloc: Global) -> Stack<T>
        ensures { result ≡ [] }
    {
        Stack {
            inner: Vec::new(alloc),
        }
    }

    /// How many items there are.
    pub(crate) fn len(&self) -> usize
        ensures { result ≡ length self.now }
    {
        self.inner.len()
    }
}

impl<T: Drop> Stack<T> {
    ghost use Rattle.std.specs.Prelude.{◌≡◌, ◌∷◌, [], OnOk, IfSome, IfNone};

    /// Puts an item on top.
    pub(crate) fn push(&mut self, item: T) -> Result<(), Memory>
        ensures { OnOk result (self.new ≡ item ∷ self.old) }
    {
        self.inner.push(item)?;
        Ok(())
    }

    /// Takes the item on top, None exactly where there is none.
    pub(crate) fn pop(&mut self) -> Option<T>
        ensures top { IfSome result (λ item. self.old ≡ item ∷ self.new) }
        ensures none { IfNone result (self.old ≡ []) }
        ensures empty { IfNone result (self.new ≡ []) }
    {
        self.inner.pop()
    }
}

impl<T: Copy> Stack<T> {
    ghost use Rattle.std.specs.Prelude.{◌≡◌, OnOk};
    ghost use Rattle.eds_graph.specs.Stacks.{top as top_of, pushed, with_top};

    /// Puts items on top, one after another.
    pub(crate) fn push_all(&mut self, items: &[T]) -> Result<(), Memory>
        ensures { OnOk result (self.new ≡ pushed items.now self.old) }
    {
        for item in items {
            self.inner.push(*item)?;
        }
        Ok(())
    }

    /// Puts an item in place of the one on top, if there is one.
    pub(crate) fn replace_top(&mut self, item: T)
        ensures { self.new ≡ with_top item self.old }
    {
        let items = self.inner.len();
        if items > 0 {
            self.inner[items - 1] = item;
        }
    }

    /// The item on top.
    pub(crate) fn top(&self) -> Option<T>
        ensures { result ≡ top_of self.now }
    {
        self.inner.last().copied()
    }
}
