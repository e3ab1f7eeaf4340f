//! Files by name.

ghost use Rattle.std.specs.Prelude.{◌≡◌, ◌↔◌, IsTrue, ℕ, List, Option, Some, length, drop, min};
ghost use Rattle.std.specs.List.{find};
ghost use Rattle.std.specs.Option.{option_copied};
ghost use Rattle.eds_io.specs.Files.{file_named, is_named, HaveOwnNames, IsPiece};
ghost use Rattle.eds_io.specs.InMemory.{piece_size, place_of, got_of};

use crate::shelf::Got;
use eds_base::{Items, Octets, Text};

/// A file with its name.
#[derive(Drop)]
pub struct NamedFile {
    pub name: Text,
    pub octets: Octets,
}

/// Files by name, of which no two have one name.
pub type NamedFiles = Items<NamedFile>;

/// Whole numbers in order.
pub type Numbers = Items<u64>;

/// The first file of a name.
fn file_of<'a>(files: &'a [NamedFile], name: &str) -> Option<&'a NamedFile>
    ensures { option_copied result ≡ find (is_named name.now) files.now }
{
    files.iter().find(|file| file.name.as_str() == name)
}

/// Whether no two files have one name.
pub fn have_own_names(files: &[NamedFile]) -> bool
    ensures { IsTrue result ↔ HaveOwnNames files.now }
{
    let mut rest = files;
    while let [file, after @ ..] = rest {
        if file_of(after, file.name.as_str()).is_some() {
            return false;
        }
        rest = after;
    }
    true
}

/// Where the first file of a name stands among files.
pub(crate) fn place_among(files: &[NamedFile], name: &str) -> Option<usize>
    ensures { result ≡ place_of name.now files.now }
{
    files.iter().position(|file| file.name.as_str() == name)
}

/// Copies octets of a file from a place on, no more than `most` and than the room takes, and says
/// how many there were.
pub(crate) fn copy_piece(file: &[u8], from: u64, most: usize, room: &mut [u8]) -> usize
    ensures size { result ≡ piece_size file.now from most (length room.old) }
    ensures piece { IsPiece file.now from result room.new }
{
    if from >= file.len() as u64 {
        return 0;
    }
    let rest = &file[from as usize..];
    let n = rest.len().min(most).min(room.len());
    room[..n].copy_from_slice(&rest[..n]);
    n
}

/// Reads octets of the file of a name from a place on, no more than `most` and than the room takes.
pub(crate) fn read_named(
    files: &[NamedFile],
    name: &str,
    from: u64,
    most: usize,
    room: &mut [u8],
) -> Got
    ensures gives { result ≡ got_of (file_named name.now files.now) from most (length room.old) }
    ensures piece { (file : List ℕ) (n : ℕ) → file_named name.now files.now ≡ Some file → result ≡ Got.Bytes n → IsPiece file from n room.new }
{
    match file_of(files, name) {
        None => Got::NoFile,
        Some(file) => Got::Bytes(copy_piece(file.octets.as_slice(), from, most, room)),
    }
}
