//! Whole files, and whole reports.

ghost use Rattle.std.specs.Prelude.{◌≡◌, ◌≤◌, ◌<◌, ◌++◌, ℕ, List, Option, Some, None, Ok, Err, length, take, IfOk, OnOk, OnErr, IsOk, IsSomeAnd, ◌^◌, ◌-◌};
ghost use Rattle.eds_io.specs.Counts.{HasRisen};
ghost use Rattle.eds_io.specs.Files.{Files, file_named};
ghost use Rattle.eds_io.specs.Reads.{Come, EndsBy};
ghost use Rattle.eds_io.specs.Whole.{UnlessFailed, UnlessMemory};

use crate::shelf::{Got, Shelf};
use crate::sink::{Sink, Wrote};
use eds_base::{Fail, Memory, Octets};
use std::alloc::Global;

/// Why a file was not read whole.
#[derive(Clone, Copy, PartialEq, Eq)]
pub enum ReadEnd {
    /// There is no file of that name.
    NoFile,
    /// A read failed.
    ReadFault,
    /// The file has more octets than are wanted at most.
    TooBig,
}

/// A write failed.
#[derive(Clone, Copy, PartialEq, Eq)]
pub struct WriteFault;

const ROOM: usize = 65536;

/// Room for the octets of one read.
fn make_room(alloc: Global) -> Result<Vec<u8>, Memory>
    ensures { IfOk result (λ room. length room.items ≡ ROOM) }
{
    Ok(vec![in alloc; 0u8; ROOM]?)
}

/// How many octets to ask for where `left` more are wanted at most: one more than that, so that a
/// longer file shows, but no more than the room takes.
fn asked(left: u64) -> usize
    ensures some { 0 < result }
    ensures fits { result ≤ ROOM }
{
    if left < ROOM as u64 {
        left as usize + 1
    } else {
        ROOM
    }
}

/// Reads a file to its end, where it has at most `most` octets.
pub fn read_whole<S: Shelf>(
    alloc: Global,
    shelf: &mut S,
    name: &str,
    most: u64,
) -> Result<Octets, Fail<ReadEnd>>
    ensures whole { (told : Files) → S.files shelf.old ≡ Some told → IfOk result (λ octets. file_named name.now told ≡ Some octets) }
    ensures bound { IfOk result (λ octets. length octets ≤ most) }
    ensures came { (octets : List ℕ) × Come S.gives name.now shelf.old octets shelf.new × EndsBy most octets result }
    ensures no_file { (told : Files) → S.files shelf.old ≡ Some told → result ≡ Err (Fail.Named ReadEnd.NoFile) → file_named name.now told ≡ None }
    ensures missing { (told : Files) → S.files shelf.old ≡ Some told → file_named name.now told ≡ None → UnlessFailed result (result ≡ Err (Fail.Named ReadEnd.NoFile)) }
    ensures too_big { (told : Files) → S.files shelf.old ≡ Some told → result ≡ Err (Fail.Named ReadEnd.TooBig) → IsSomeAnd (file_named name.now told) (λ file. most < length file) }
    ensures longer { (told : Files) (file : List ℕ) → S.files shelf.old ≡ Some told → file_named name.now told ≡ Some file → most < length file → UnlessFailed result (result ≡ Err (Fail.Named ReadEnd.TooBig)) }
    ensures complete { (told : Files) (file : List ℕ) → S.files shelf.old ≡ Some told → file_named name.now told ≡ Some file → length file ≤ most → UnlessFailed result (result ≡ Ok file) }
    ensures files { S.files shelf.new ≡ S.files shelf.old }
    ensures calm { (other : List ℕ) → S.faults shelf.old other ≤ S.faults shelf.new other }
    ensures cause { result ≡ Err (Fail.Named ReadEnd.ReadFault) → HasRisen (S.faults shelf.old name.now) (S.faults shelf.new name.now) }
    ensures steady { (told : Files) (file : List ℕ) → S.files shelf.old ≡ Some told → file_named name.now told ≡ Some file → length file ≤ most → ¬ (HasRisen (S.faults shelf.old name.now) (S.faults shelf.new name.now)) → UnlessMemory result (result ≡ Ok file) }
{
    let mut buffer = make_room(alloc)?;
    let buffer = buffer.as_mut_slice();
    let mut octets = Vec::new(alloc);
    let mut from = 0u64;
    loop {
        let room = &mut buffer[..asked(most - from)];
        match shelf.read_at(name, from, room) {
            Got::NoFile => return Err(Fail::Named(ReadEnd::NoFile)),
            Got::Failed => return Err(Fail::Named(ReadEnd::ReadFault)),
            Got::Bytes(0) => return Ok(Octets::from_vec(octets)),
            Got::Bytes(n) => {
                if n as u64 > most - from {
                    return Err(Fail::Named(ReadEnd::TooBig));
                }
                octets.extend_from_slice(&room[..n])?;
                from += n as u64;
            }
        }
    }
}

/// Writes all the octets.
pub fn write_whole<K: Sink>(sink: &mut K, octets: &[u8]) -> Result<(), WriteFault>
    ensures whole { (before : List ℕ) → K.written sink.old ≡ Some before → OnOk result (K.written sink.new ≡ Some (before ++ octets.now)) }
    ensures prefix { (before : List ℕ) → K.written sink.old ≡ Some before → OnErr result ((n : ℕ) × (n < length octets.now) × (K.written sink.new ≡ Some (before ++ take n octets.now))) }
    ensures calm { K.faults sink.old ≤ K.faults sink.new }
    ensures cause { OnErr result (HasRisen (K.faults sink.old) (K.faults sink.new)) }
    ensures steady { ¬ (HasRisen (K.faults sink.old) (K.faults sink.new)) → IsOk result }
{
    let mut done = 0usize;
    while done < octets.len() {
        match sink.write(&octets[done..]) {
            Wrote::Failed => return Err(WriteFault),
            Wrote::Took(n) => {
                if n == 0 {
                    return Err(WriteFault);
                }
                done += n;
            }
        }
    }
    Ok(())
}
