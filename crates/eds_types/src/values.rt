//! Lists of values that contracts see as plain trees.

use crate::Value;
use eds_base::Memory;
use std::alloc::Global;
use std::marker::Model;

/// Values in order. Clauses see their plain trees.
#[derive(Drop)]
pub struct Values {
    inner: Vec<Value>,
}

impl Model for Values {
    ghost use Rattle.std.specs.Prelude.{List, map};
    ghost use Rattle.std.specs.Coded.{coded_list};
    ghost use Rattle.eds_types.specs.Plain.{Plain, plain};
    ghost use Rattle.eds_types.specs.PlainCode.{plain_code};

    ghost Value = { List Plain };

    ghost coded = { coded_list plain_code };

    ghost view = { λ o. map plain o.inner.items };
}

impl Values {
    ghost use Rattle.std.specs.Prelude.{◌≡◌, ◌++◌, ◌<◌, [], ◌∷◌, OnOk, OnErr, length, slice_get, slice_set, option_map};
    ghost use Rattle.std.specs.Option.{option_copied};
    ghost use Rattle.eds_types.specs.Plain.{plain};

    /// No values.
    pub fn new(alloc: Global) -> Values
        ensures { result ≡ [] }
    {
        Values {
            inner: Vec::new(alloc),
        }
    }

    /// How many there are.
    pub fn len(&self) -> usize
        ensures { result ≡ length self.now }
    {
        self.inner.len()
    }

    /// The value at a position; `None` past the end.
    pub fn get(&self, i: usize) -> Option<&Value>
        ensures { option_map plain (option_copied result) ≡ slice_get self.now i }
    {
        self.inner.get(i)
    }

    /// Puts a value last. Where memory runs out, nothing changes.
    pub fn push(&mut self, value: Value) -> Result<(), Memory>
        ensures ok { OnOk result (self.new ≡ self.old ++ plain value ∷ []) }
        ensures err { OnErr result (self.new ≡ self.old) }
    {
        self.inner.push(value)?;
        Ok(())
    }

    /// Replaces the value at a position.
    pub fn set(&mut self, i: usize, value: Value)
        requires { i < length self.old }
        ensures { self.new ≡ slice_set self.old i (plain value) }
    {
        self.inner[i] = value;
    }
}
