//! Pieces of files.

ghost use Rattle.std.specs.Prelude.{◌≡◌, ◌≤◌, ◌<◌, ℕ, List, Some, None, Ok, Err, length, IfOk, IsErr, IsSomeAnd};
ghost use Rattle.eds_io.specs.Counts.{HasRisen};
ghost use Rattle.eds_io.specs.Files.{Files, file_named, IsPiece};
ghost use Rattle.eds_io.specs.Reads.{got_of_piece};

use crate::shelf::{Got, Shelf};

/// Why no piece of a file was read.
#[derive(Clone, Copy, PartialEq, Eq)]
pub enum PieceEnd {
    /// There is no file of that name.
    NoFile,
    /// The read failed.
    ReadFault,
}

/// Reads octets of a file into the room, from the octet `from` on, by one read: how many there are, which stand at the front of
/// the room. Where the room is not empty, none are read exactly at the file's end.
pub fn read_piece<S: Shelf>(
    shelf: &mut S,
    name: &str,
    from: u64,
    room: &mut [u8],
) -> Result<usize, PieceEnd>
    ensures bound { IfOk result (λ n. n ≤ length room.old) }
    ensures octets { (told : Files) → S.files shelf.old ≡ Some told → IfOk result (λ n. IsSomeAnd (file_named name.now told) (λ file. IsPiece file from n room.new)) }
    ensures end { (told : Files) → S.files shelf.old ≡ Some told → result ≡ Ok 0 → 0 < length room.old → IsSomeAnd (file_named name.now told) (λ file. length file ≤ from) }
    ensures no_file { (told : Files) → S.files shelf.old ≡ Some told → result ≡ Err PieceEnd.NoFile → file_named name.now told ≡ None }
    ensures missing { (told : Files) → S.files shelf.old ≡ Some told → file_named name.now told ≡ None → IsErr result }
    ensures gives { S.gives shelf.old name.now from (record { got = got_of_piece result; room = room.new }) shelf.new }
    ensures files { S.files shelf.new ≡ S.files shelf.old }
    ensures calm { (other : List ℕ) → S.faults shelf.old other ≤ S.faults shelf.new other }
    ensures cause { result ≡ Err PieceEnd.ReadFault → HasRisen (S.faults shelf.old name.now) (S.faults shelf.new name.now) }
{
    match shelf.read_at(name, from, room) {
        Got::Bytes(n) => Ok(n),
        Got::NoFile => Err(PieceEnd::NoFile),
        Got::Failed => Err(PieceEnd::ReadFault),
    }
}
