//! The list of a session's recordings.

use crate::session::Recorded;
use eds_base::{Items, Memory};
use std::alloc::Global;
use std::marker::Model;

/// The recordings of a session, in order. Contracts see them as a list.
#[derive(Drop)]
pub struct Recordings {
    inner: Items<Recorded>,
}

impl Model for Recordings {
    ghost use Rattle.std.specs.Prelude.{List};
    ghost use Rattle.eds_replay.specs.declared.session.Recorded.{Recorded};
    ghost use Rattle.eds_replay.specs.Sessions.{RiseFrom};

    ghost Value = { List Recorded };

    ghost view = { λ r. r.inner };

    ghost invariant = { λ r. RiseFrom 0 r.inner };
}

impl Recordings {
    ghost use Rattle.std.specs.Prelude.{◌≡◌, ◌≤◌, ◌++◌, [], ◌∷◌, OnOk, OnErr, length, slice_get};
    ghost use Rattle.std.specs.List.{AllByRecursion};
    ghost use Rattle.std.specs.Option.{option_copied};
    ghost use Rattle.eds_replay.specs.declared.session.Recorded.{Recorded};
    ghost use Rattle.eds_replay.specs.Sessions.{RiseFrom};

    /// No recordings.
    pub fn new(alloc: Global) -> Recordings
        ensures { result ≡ [] }
    {
        Recordings {
            inner: Items::new(alloc),
        }
    }

    /// Puts a recording last that belongs to no line before those of the others. Where memory is refused, nothing changes.
    pub fn push(&mut self, item: Recorded) -> Result<(), Memory>
        requires { AllByRecursion (λ (r : Recorded). r.owner ≤ item.owner) self.old }
        ensures ok { OnOk result (self.new ≡ self.old ++ item ∷ []) }
        ensures err { OnErr result (self.new ≡ self.old) }
    {
        self.inner.push(item)
    }

    /// How many recordings there are.
    pub fn len(&self) -> usize
        ensures { result ≡ length self.now }
    {
        self.inner.len()
    }

    /// The recording at a position from 0, None exactly past the end.
    pub fn get(&self, i: usize) -> Option<&Recorded>
        ensures { option_copied result ≡ slice_get self.now i }
    {
        self.inner.get(i)
    }

    /// All of them.
    pub fn as_slice(&self) -> &[Recorded]
        ensures all { result.now ≡ self.now }
        ensures order { RiseFrom 0 self.now }
    {
        self.inner.as_slice()
    }
}
