//! A shelf in memory.

use crate::calls::Schedule;
use crate::files::{NamedFiles, Numbers, place_among, read_named};
use crate::shelf::{Got, Shelf};
use crate::tally::Faults;
use eds_base::Memory;
use std::alloc::Global;
use std::marker::Model;

/// Files in memory, of which a read gives at most so many octets, and whose reads fail where they
/// are told to. It counts the faults of each file, and those of all other names together.
#[derive(Drop)]
pub struct MemShelf {
    files: NamedFiles,
    most: u32,
    calls: Schedule,
    tally: Faults,
}

impl Model for MemShelf {
    ghost use Rattle.std.specs.Prelude.{◌≡◌, ◌≤◌, length};
    ghost use Rattle.eds_io.specs.InMemory.{ShelfState};

    ghost Value = { ShelfState };

    ghost view = { λ s. record { files = s.files; most = s.most; calls = s.calls; tally = s.tally } };

    ghost invariant = { λ s. (1 ≤ s.most) × (length s.tally.files ≡ length s.files) };
}

impl MemShelf {
    ghost use Rattle.std.specs.Prelude.{◌≡◌, ◌≤◌, ℕ, List, Some, length, IfOk};
    ghost use Rattle.eds_io.specs.Files.{HaveOwnNames, file_named, IsPiece};
    ghost use Rattle.eds_io.specs.InMemory.{new_shelf, read_of, after_read};

    /// A shelf of these files, which have different names. A read gives at most `most` octets, and
    /// the reads whose numbers are listed fail, the first read having number 1.
    pub fn new(
        alloc: Global,
        files: NamedFiles,
        most: u32,
        failing: Numbers,
    ) -> Result<MemShelf, Memory>
        requires own_names { HaveOwnNames files }
        requires some { 1 ≤ most }
        ensures { IfOk result (λ shelf. shelf ≡ new_shelf files most failing) }
    {
        let tally = Faults::new(alloc, files.len())?;
        Ok(MemShelf {
            files,
            most,
            calls: Schedule::new(failing),
            tally,
        })
    }

    /// Makes the next read.
    fn read(&mut self, name: &str, from: u64, room: &mut [u8]) -> Got
        ensures gives { result ≡ read_of self.old name.now from (length room.old) }
        ensures after { self.new ≡ after_read self.old name.now }
        ensures piece { (file : List ℕ) (n : ℕ) → file_named name.now self.old.files ≡ Some file → result ≡ Got.Bytes n → IsPiece file from n room.new }
    {
        if self.calls.fails_next() {
            let place = place_among(self.files.as_slice(), name);
            self.tally.count(place);
            return Got::Failed;
        }
        read_named(self.files.as_slice(), name, from, self.most as usize, room)
    }
}

impl Shelf for MemShelf {
    ghost use Rattle.std.specs.Prelude.{◌≡◌, ◌≤◌, ◌<◌, ℕ, List, Option, Some, None, IsSomeAnd, length};
    ghost use Rattle.eds_io.specs.Counts.{HasRisen};
    ghost use Rattle.eds_io.specs.Files.{Files, file_named, IsPiece};
    ghost use Rattle.eds_io.specs.InMemory.{read_of, after_read, place_of, count_at};

    ghost files = { λ shelf. Some shelf.files };

    ghost faults = { λ shelf name. count_at (place_of name shelf.files) shelf.tally };

    ghost gives = { λ before name _ _ after. after ≡ after_read before name };

    fn read_at(&mut self, name: &str, from: u64, room: &mut [u8]) -> Got
        ensures gives { result ≡ read_of self.old name.now from (length room.old) }
        ensures after { self.new ≡ after_read self.old name.now }
        ensures octets { (file : List ℕ) (n : ℕ) → file_named name.now self.old.files ≡ Some file → result ≡ Got.Bytes n → IsPiece file from n room.new }
        ensures goes_on { result ≡ Got.Bytes 0 → 0 < length room.old → IsSomeAnd (file_named name.now self.old.files) (λ file. length file ≤ from) }
        ensures cause { result ≡ Got.Failed → HasRisen (count_at (place_of name.now self.old.files) self.old.tally) (count_at (place_of name.now self.new.files) self.new.tally) }
    {
        let _most = self.most;
        self.read(name, from, room)
    }
}
