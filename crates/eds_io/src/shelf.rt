//! A shelf of named files.

ghost use Rattle.std.specs.Prelude.{◌≡◌, ◌≤◌, ◌<◌, ℕ, List, Option, Some, None, IsSomeAnd, length};
ghost use Rattle.eds_io.specs.Counts.{HasRisen};
ghost use Rattle.eds_io.specs.Files.{Files, file_named, IsPiece};
ghost use Rattle.eds_io.specs.Reads.{Given};

/// What a read gave.
#[derive(Clone, Copy, PartialEq, Eq)]
pub enum Got {
    /// So many octets, which stand at the front of the room.
    Bytes(usize),
    /// There is no file of that name.
    NoFile,
    /// The read failed.
    Failed,
}

/// Named files that are read from a place on.
pub trait Shelf {
    /// The files, where the shelf tells them.
    ghost files: { Self → Option Files };

    /// How many reads of a name have failed.
    ghost faults: { Self → List ℕ → ℕ };

    /// What a read of a name from an octet on may give, and the shelf after it.
    ghost gives: { Self → List ℕ → ℕ → Given → Self → Type 0 };

    /// Reads octets of a file into the room, from the octet `from` on. A read of 0 octets into a
    /// room that isn't empty is at the file's end.
    fn read_at(&mut self, name: &str, from: u64, room: &mut [u8]) -> Got
        ensures bound { (n : ℕ) → result ≡ Got.Bytes n → n ≤ length room.old }
        ensures no_file { (told : Files) → files self.old ≡ Some told → result ≡ Got.NoFile → file_named name.now told ≡ None }
        ensures octets { (told : Files) (n : ℕ) → files self.old ≡ Some told → result ≡ Got.Bytes n → IsSomeAnd (file_named name.now told) (λ file. IsPiece file from n room.new) }
        ensures goes_on { (told : Files) → files self.old ≡ Some told → result ≡ Got.Bytes 0 → 0 < length room.old → IsSomeAnd (file_named name.now told) (λ file. length file ≤ from) }
        ensures gives { gives self.old name.now from (record { got = result; room = room.new }) self.new }
        ensures files { files self.new ≡ files self.old }
        ensures calm { (other : List ℕ) → faults self.old other ≤ faults self.new other }
        ensures cause { result ≡ Got.Failed → HasRisen (faults self.old name.now) (faults self.new name.now) };
}
