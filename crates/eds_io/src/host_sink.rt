//! Standard output.

ghost use Rattle.std.specs.Prelude.{IfOk, ◌≤◌, length};

use crate::sink::{Sink, Wrote};
use std::io::{self, Write};
use std::marker::Model;

/// Standard output, of whose content nothing is told. Each write is flushed. Each failure is
/// counted, and nothing else.
#[derive(Drop)]
pub struct HostSink<R: Print> {
    rt: R,
    faults: u64,
}

impl<R: Print> Model for HostSink<R> {
    ghost use Rattle.std.specs.Prelude.{ℕ};

    ghost Value = { ℕ };

    ghost view = { λ sink. sink.faults };
}

impl<R: Print> HostSink<R> {
    ghost use Rattle.std.specs.Prelude.{◌≡◌};
    ghost use Rattle.eds_io.specs.Counts.{counted};

    /// The output of a runtime, none of whose writes has failed.
    pub fn new(rt: R) -> HostSink<R>
        ensures { result ≡ 0 }
    {
        HostSink { rt, faults: 0 }
    }
}

/// Writes octets from the front of a piece, and flushes them.
fn write_through<W: Write>(out: &mut W, piece: &[u8]) -> io::Result<usize>
    ensures { IfOk result (λ n. n ≤ length piece.now) }
{
    let n = out.write(piece)?;
    out.flush()?;
    Ok(n)
}

impl<R: Print> Sink for HostSink<R> {
    ghost use Rattle.std.specs.Prelude.{◌≡◌, ◌≤◌, ℕ, None, length};
    ghost use Rattle.eds_io.specs.Faults.{faults_after_write};

    ghost written = { λ _. None };

    ghost faults = { λ sink. sink };

    fn write(&mut self, piece: &[u8]) -> Wrote
        ensures bound { (n : ℕ) → result ≡ Wrote.Took n → n ≤ length piece.now }
        ensures counts { self.new ≡ faults_after_write result (length piece.now) self.old }
    {
        match write_through(&mut io::writer(&self.rt), piece) {
            Ok(n) => {
                if n == 0 && !piece.is_empty() {
                    self.faults = self.faults.saturating_add(1);
                }
                Wrote::Took(n)
            }
            Err(_) => {
                self.faults = self.faults.saturating_add(1);
                Wrote::Failed
            }
        }
    }
}
