//! Calls of which some fail.

ghost use Rattle.std.specs.Prelude.{◌≡◌};

use crate::files::Numbers;
use std::marker::Model;

/// The calls made so far, and the numbers of those that fail, the first call having number 1.
#[derive(Drop)]
pub(crate) struct Schedule {
    made: u64,
    failing: Numbers,
}

impl Model for Schedule {
    ghost use Rattle.eds_io.specs.InMemory.{Calls};

    ghost Value = { Calls };

    ghost view = { λ s. record { made = s.made; failing = s.failing } };
}

impl Schedule {
    ghost use Rattle.eds_io.specs.InMemory.{is_next_failing, after_call};

    /// No call made.
    pub(crate) fn new(failing: Numbers) -> Schedule
        ensures { result ≡ record { made = 0; failing = failing } }
    {
        Schedule { made: 0, failing }
    }

    /// Makes the next call, and says whether it fails.
    pub(crate) fn fails_next(&mut self) -> bool
        ensures fails { result ≡ is_next_failing self.old }
        ensures made { self.new ≡ after_call self.old }
    {
        self.made = self.made.saturating_add(1);
        self.failing.as_slice().contains(&self.made)
    }
}
