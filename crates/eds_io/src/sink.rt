//! Where octets go.

ghost use Rattle.std.specs.Prelude.{◌≡◌, ◌≤◌, ◌<◌, ℕ, List, ◌++◌, Option, Some, length, take};
ghost use Rattle.eds_io.specs.Counts.{HasRisen};

/// What a write took.
#[derive(Clone, Copy, PartialEq, Eq)]
pub enum Wrote {
    /// So many octets, from the front of the piece.
    Took(usize),
    /// The write failed.
    Failed,
}

/// A place that octets are written to.
pub trait Sink {
    /// What was written, where the sink tells it.
    ghost written: { Self → Option (List ℕ) };

    /// How many writes have failed. One that took nothing of a piece that isn't empty is one of
    /// them.
    ghost faults: { Self → ℕ };

    /// Writes octets from the front of a piece.
    fn write(&mut self, piece: &[u8]) -> Wrote
        ensures bound { (n : ℕ) → result ≡ Wrote.Took n → n ≤ length piece.now }
        ensures took { (before : List ℕ) (n : ℕ) → written self.old ≡ Some before → result ≡ Wrote.Took n → written self.new ≡ Some (before ++ take n piece.now) }
        ensures kept { (before : List ℕ) → written self.old ≡ Some before → result ≡ Wrote.Failed → written self.new ≡ Some before }
        ensures calm { faults self.old ≤ faults self.new }
        ensures cause { result ≡ Wrote.Failed → HasRisen (faults self.old) (faults self.new) }
        ensures idle { result ≡ Wrote.Took 0 → 0 < length piece.now → HasRisen (faults self.old) (faults self.new) };
}
