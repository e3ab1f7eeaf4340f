//! Counts of faults by name.

use crate::files::NamedFile;
use eds_base::Memory;
use std::alloc::Global;
use std::marker::Model;

/// How many reads of each file have failed, and how many of all other names.
#[derive(Drop)]
pub(crate) struct Faults {
    files: Vec<u64>,
    others: u64,
}

impl Model for Faults {
    ghost use Rattle.eds_io.specs.InMemory.{Tally};

    ghost Value = { Tally };

    ghost view = { λ f. record { files = f.files.items; others = f.others } };
}

impl Faults {
    ghost use Rattle.std.specs.Prelude.{◌≡◌, IfOk, IfSome, length, replicate, ◌<◌, ◌≤◌};
    ghost use Rattle.eds_io.specs.InMemory.{tally_at};

    /// No fault yet of so many files.
    pub(crate) fn new(alloc: Global, files: usize) -> Result<Faults, Memory>
        ensures { IfOk result (λ faults. faults ≡ record { files = replicate files 0; others = 0 }) }
    {
        Ok(Faults {
            files: vec![in alloc; 0u64; files]?,
            others: 0,
        })
    }

    /// Counts a fault of the file at a place, or of another name.
    pub(crate) fn count(&mut self, place: Option<usize>)
        requires { IfSome place (λ i. i < length self.old.files) }
        ensures { self.new ≡ tally_at place self.old }
    {
        match place {
            Some(i) => self.files[i] = self.files[i].saturating_add(1),
            None => self.others = self.others.saturating_add(1),
        }
    }
}
