//! A shelf and a sink that never fail.

use crate::files::{NamedFiles, read_named};
use crate::shelf::{Got, Shelf};
use crate::sink::{Sink, Wrote};
use std::marker::Model;

/// Files in memory, whose reads never fail.
#[derive(Drop)]
pub struct CalmShelf {
    files: NamedFiles,
}

impl Model for CalmShelf {
    ghost use Rattle.eds_io.specs.Files.{Files};

    ghost Value = { Files };

    ghost view = { λ shelf. shelf.files };
}

impl CalmShelf {
    ghost use Rattle.std.specs.Prelude.{◌≡◌};
    ghost use Rattle.eds_io.specs.Files.{HaveOwnNames};

    /// A shelf of these files, which have different names.
    pub fn new(files: NamedFiles) -> CalmShelf
        requires { HaveOwnNames files }
        ensures { result ≡ files }
    {
        CalmShelf { files }
    }
}

impl Shelf for CalmShelf {
    ghost use Rattle.std.specs.Prelude.{◌≡◌, ℕ, List, Some, length};
    ghost use Rattle.eds_io.specs.Files.{file_named, IsPiece};
    ghost use Rattle.eds_io.specs.InMemory.{got_of};

    ghost files = { λ shelf. Some shelf };

    ghost faults = { λ _ _. 0 };

    ghost gives = { λ before _ _ _ after. after ≡ before };

    fn read_at(&mut self, name: &str, from: u64, room: &mut [u8]) -> Got
        ensures gives { result ≡ got_of (file_named name.now self.old) from (length room.old) (length room.old) }
        ensures same { self.new ≡ self.old }
        ensures piece { (file : List ℕ) (n : ℕ) → file_named name.now self.old ≡ Some file → result ≡ Got.Bytes n → IsPiece file from n room.new }
    {
        let most = room.len();
        read_named(self.files.as_slice(), name, from, most, room)
    }
}

/// A sink that takes every piece whole and keeps nothing of it.
#[derive(Drop)]
pub struct CalmSink {}

impl CalmSink {
    /// The sink.
    pub fn new() -> CalmSink {
        CalmSink {}
    }
}

impl Sink for CalmSink {
    ghost use Rattle.std.specs.Prelude.{◌≡◌, None, length};

    ghost written = { λ _. None };

    ghost faults = { λ _. 0 };

    fn write(&mut self, piece: &[u8]) -> Wrote
        ensures { result ≡ Wrote.Took (length piece.now) }
    {
        Wrote::Took(piece.len())
    }
}
