//! A sink that keeps what is written.

use eds_io::{Sink, Wrote};
use std::alloc::Global;

/// What was written, and how many writes failed for want of memory.
#[derive(Drop)]
pub(crate) struct Kept {
    octets: Vec<u8>,
    faults: u64,
}

impl Kept {
    ghost use Rattle.std.specs.Prelude.{◌≡◌, []};

    /// Nothing was written.
    pub(crate) fn new(alloc: Global) -> Kept
        ensures octets { result.octets.items ≡ [] }
        ensures faults { result.faults ≡ 0 }
    {
        Kept {
            octets: Vec::new(alloc),
            faults: 0,
        }
    }

    /// What was written.
    pub(crate) fn written(&self) -> &[u8]
        ensures { result.now ≡ self.now.octets.items }
    {
        self.octets.as_slice()
    }
}

impl Sink for Kept {
    ghost use Rattle.std.specs.Prelude.{Some};

    ghost written = { λ kept. Some kept.octets.items };

    ghost faults = { λ kept. kept.faults };

    fn write(&mut self, piece: &[u8]) -> Wrote {
        if self.octets.extend_from_slice(piece).is_err() {
            self.faults = self.faults.saturating_add(1);
            return Wrote::Failed;
        }
        Wrote::Took(piece.len())
    }
}
