//! The states of all components.

use crate::CompState;
use eds_base::{CompId, Items, Memory};
use std::alloc::Global;
use std::marker::Model;

/// The states of components, in document order. Contracts see their plain data.
#[derive(Drop)]
pub struct States {
    inner: Vec<CompState>,
}

impl Model for States {
    ghost use Rattle.std.specs.Prelude.{List, map};
    ghost use Rattle.std.specs.Coded.{codes};
    ghost use Rattle.eds_types.specs.PlainCode.{plain_code};
    ghost use Rattle.eds_plan.specs.States.{StateNow, state_now};

    ghost Value = { List StateNow };

    ghost coded = { Prim.hlevel (codes, plain_code) };

    ghost view = { λ s. map state_now s.inner.items };
}

impl States {
    ghost use Rattle.std.specs.Prelude.{◌≡◌, ◌<◌, ◌++◌, [], ◌∷◌, OnOk, OnErr, Some, length, map, option_map, slice_get};
    ghost use Rattle.std.specs.Borrow.{sem};
    ghost use Rattle.std.specs.Option.{option_copied};
    ghost use Rattle.eds_plan.specs.Lending.{lends_state};
    ghost use Rattle.eds_plan.specs.States.{state_now};

    /// No components.
    pub fn new(alloc: Global) -> States
        ensures { result ≡ [] }
    {
        States {
            inner: Vec::new(alloc),
        }
    }

    /// The states of a list, with no copy.
    pub fn of(states: Items<CompState>) -> States
        ensures { result ≡ map state_now states }
    {
        States {
            inner: states.into_vec(),
        }
    }

    /// The list of the states, with no copy.
    pub fn into_items(self) -> Items<CompState>
        ensures { map state_now result ≡ self }
    {
        let States { inner } = self;
        Items::from_vec(inner)
    }

    /// Puts the state of one more component last. Where memory is refused, nothing changes.
    pub fn push(&mut self, state: CompState) -> Result<(), Memory>
        ensures ok { OnOk result (self.new ≡ self.old ++ state_now state ∷ []) }
        ensures err { OnErr result (self.new ≡ self.old) }
    {
        self.inner.push(state)?;
        Ok(())
    }

    /// How many components there are.
    pub fn len(&self) -> usize
        ensures { result ≡ length self.now }
    {
        self.inner.len()
    }

    /// The state at a position from 0, None exactly past the end.
    pub fn get(&self, i: usize) -> Option<&CompState>
        ensures { option_map state_now (option_copied result) ≡ slice_get self.now i }
    {
        self.inner.get(i)
    }

    /// All of them.
    pub fn as_slice(&self) -> &[CompState]
        ensures { map state_now result.now ≡ self.now }
    {
        self.inner.as_slice()
    }

    /// The state of a component.
    pub fn at(&self, comp: CompId) -> &CompState
        requires { comp.0 < length self.now }
        ensures { slice_get self.now comp.0 ≡ Some (state_now result.now) }
    {
        &self.inner[comp.0 as usize]
    }

    /// The state of a component, to write to.
    pub fn at_mut(&mut self, comp: CompId) -> &mut CompState
        requires { comp.0 < length self.old }
        ensures* writes_back { sem 𝓛 (lends_state self.entry comp.0 result) }
        ensures value { slice_get self.old comp.0 ≡ Some (state_now result.now) }
    {
        &mut self.inner[comp.0 as usize]
    }
}
