//! The list that several owners share, and that contracts see as a list.

use eds_base::{Items, Memory};
use std::alloc::Global;
use std::marker::Model;
use std::rc::Rc;

/// Items in order, held once for all that share them.
#[derive(Drop)]
pub struct SharedItems<T> {
    inner: Rc<Items<T>>,
}

impl<T> Model for SharedItems<T> {
    ghost use Rattle.std.specs.Prelude.{List};

    ghost Value = { List T };

    ghost view = { λ s. s.inner.value };
}

impl<T> SharedItems<T> {
    ghost use Rattle.std.specs.Prelude.{◌≡◌, length, slice_get};
    ghost use Rattle.std.specs.Option.{option_copied};

    /// How many items there are.
    pub fn len(&self) -> usize
        ensures { result ≡ length self.now }
    {
        self.inner.as_ref().len()
    }

    /// The item at a position from 0, None exactly past the end.
    pub fn get(&self, i: usize) -> Option<&T>
        ensures { option_copied result ≡ slice_get self.now i }
    {
        self.inner.as_ref().get(i)
    }

    /// All of them.
    pub fn as_slice(&self) -> &[T]
        ensures { result.now ≡ self.now }
    {
        self.inner.as_ref().as_slice()
    }
}

impl<T: Drop> SharedItems<T> {
    ghost use Rattle.std.specs.Prelude.{◌≡◌, IfOk};

    /// The items of a list, with no copy.
    pub fn new(alloc: Global, items: Items<T>) -> Result<SharedItems<T>, Memory>
        ensures { IfOk result (λ s. s ≡ items) }
    {
        let inner = Rc::new(alloc, items)?;
        Ok(SharedItems { inner })
    }

    /// The same items for another owner, with no copy.
    pub fn share(&self) -> Result<SharedItems<T>, Memory>
        ensures { IfOk result (λ s. s ≡ self.now) }
    {
        let inner = self.inner.clone()?;
        Ok(SharedItems { inner })
    }
}
