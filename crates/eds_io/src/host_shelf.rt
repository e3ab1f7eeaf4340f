//! The real files.

ghost use Rattle.std.specs.Prelude.{IfOk, ◌≡◌, ◌≤◌, false, length, MatchOption, string_bytes};
ghost use Rattle.eds_base.specs.Reading.{same};

use crate::shelf::{Got, Shelf};
use std::fs::File;
use std::io::{self, ErrorKind, Read, Seek, SeekFrom};
use std::marker::Model;
use std::rt::Files;

/// A file that was opened to be read, its name where there was memory for it, and the octet from
/// which its next read begins.
#[derive(Drop)]
struct Opened<F> {
    name: Option<String>,
    file: F,
    at: u64,
}

impl<F> Opened<F> {
    fn is_named(&self, name: &str) -> bool
        ensures { MatchOption self.now.name (result ≡ false) (λ known. result ≡ same (string_bytes known) name.now) }
    {
        match &self.name {
            Some(known) => known.as_str() == name,
            None => false,
        }
    }
}

/// The files of the system, of whose content nothing is told. The file that was read last stays
/// open, so that a file is opened once for all its pieces. Each failure counts as one of every
/// name, and nothing else is counted.
#[derive(Drop)]
pub struct HostShelf<R: Files + AllocGlobal> {
    rt: R,
    last: Option<Opened<R::File>>,
    faults: u64,
}

impl<R: Files + AllocGlobal> Model for HostShelf<R> {
    ghost use Rattle.std.specs.Prelude.{ℕ};

    ghost Value = { ℕ };

    ghost view = { λ shelf. shelf.faults };
}

impl<R: Files + AllocGlobal> HostShelf<R> {
    ghost use Rattle.std.specs.Prelude.{◌≡◌};
    ghost use Rattle.eds_io.specs.Counts.{counted};

    /// The files of a runtime, none of whose reads has failed.
    pub fn new(rt: R) -> HostShelf<R>
        ensures { result ≡ 0 }
    {
        HostShelf {
            rt,
            last: None,
            faults: 0,
        }
    }

    /// The file of a name, opened: the one that was read last, where a reading goes on.
    fn opened(&mut self, name: &str, from: u64) -> io::Result<Opened<R::File>>
        ensures { self.new ≡ self.old }
    {
        if from > 0 {
            if let Some(last) = self.last.take() {
                if last.is_named(name) {
                    return Ok(last);
                }
            }
        }
        let file = File::open(&self.rt, name)?;
        let name = String::from_str(self.rt.alloc(), name).ok();
        Ok(Opened { name, file, at: 0 })
    }

    /// Counts a failure.
    fn failed(&mut self) -> Got
        ensures gives { result ≡ Got.Failed }
        ensures counts { self.new ≡ counted self.old }
    {
        self.faults = self.faults.saturating_add(1);
        Got::Failed
    }
}

/// Reads octets of an opened file from a place on.
fn read_on<F: Read + Seek>(opened: &mut Opened<F>, from: u64, room: &mut [u8]) -> io::Result<usize>
    ensures { IfOk result (λ n. n ≤ length room.old) }
{
    if opened.at != from {
        opened.file.seek(SeekFrom::Start(from))?;
    }
    let n = opened.file.read(room)?;
    opened.at = from.saturating_add(n as u64);
    Ok(n)
}

impl<R: Files + AllocGlobal> Shelf for HostShelf<R> {
    ghost use Rattle.std.specs.Prelude.{◌≡◌, ◌≤◌, ℕ, None, ⊤, length};
    ghost use Rattle.eds_io.specs.Faults.{faults_after_read};

    ghost files = { λ _. None };

    ghost faults = { λ shelf _. shelf };

    ghost gives = { λ _ _ _ _ _. ⊤ };

    fn read_at(&mut self, name: &str, from: u64, room: &mut [u8]) -> Got
        ensures bound { (n : ℕ) → result ≡ Got.Bytes n → n ≤ length room.old }
        ensures counts { self.new ≡ faults_after_read result self.old }
    {
        match self.opened(name, from) {
            Ok(mut opened) => match read_on(&mut opened, from, room) {
                Ok(n) => {
                    self.last = Some(opened);
                    Got::Bytes(n)
                }
                Err(_) => self.failed(),
            },
            Err(e) => {
                if e.kind() == ErrorKind::NotFound {
                    return Got::NoFile;
                }
                self.failed()
            }
        }
    }
}
