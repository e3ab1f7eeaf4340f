//! A sink in memory.

use crate::calls::Schedule;
use crate::files::Numbers;
use crate::sink::{Sink, Wrote};
use eds_base::Memory;
use std::alloc::Global;
use std::marker::Model;

/// Room for octets in memory, of which a write takes at most so many, and whose writes fail where
/// they are told to, or where their octets would go past the room.
#[derive(Drop)]
pub struct MemSink {
    octets: Vec<u8>,
    room: u32,
    most: u32,
    calls: Schedule,
    faults: u64,
}

impl Model for MemSink {
    ghost use Rattle.std.specs.Prelude.{◌≤◌, vec_capacity, length};
    ghost use Rattle.eds_io.specs.InMemory.{SinkState};

    ghost Value = { SinkState };

    ghost view = { λ s. record { written = s.octets.items; room = s.room; most = s.most; calls = s.calls; faults = s.faults } };

    ghost invariant = { λ s. (1 ≤ s.most) × (s.room ≤ vec_capacity s.octets) × (length s.octets.items ≤ s.room) };
}

impl MemSink {
    ghost use Rattle.std.specs.Prelude.{◌≡◌, ◌≤◌, IfOk};
    ghost use Rattle.eds_io.specs.InMemory.{new_sink};

    /// A sink with room for so many octets, which it takes at once. A write takes at most `most`
    /// octets, and the writes whose numbers are listed fail, the first write having number 1.
    pub fn new(alloc: Global, room: u32, most: u32, failing: Numbers) -> Result<MemSink, Memory>
        requires { 1 ≤ most }
        ensures { IfOk result (λ sink. sink ≡ new_sink room most failing) }
    {
        let octets = Vec::with_capacity(alloc, room as usize)?;
        Ok(MemSink {
            octets,
            room,
            most,
            calls: Schedule::new(failing),
            faults: 0,
        })
    }

    /// What was written.
    pub fn written(&self) -> &[u8]
        ensures { result.now ≡ self.now.written }
    {
        self.octets.as_slice()
    }
}

impl Sink for MemSink {
    ghost use Rattle.std.specs.Prelude.{◌≡◌, Some, length};
    ghost use Rattle.eds_io.specs.InMemory.{write_of, after_write};

    ghost written = { λ sink. Some sink.written };

    ghost faults = { λ sink. sink.faults };

    fn write(&mut self, piece: &[u8]) -> Wrote
        ensures gives { result ≡ write_of self.old (length piece.now) }
        ensures after { self.new ≡ after_write self.old piece.now }
        ensures some { result ≡ Wrote.Took 0 → length piece.now ≡ 0 }
    {
        let n = piece.len().min(self.most as usize);
        let left = self.room as usize - self.octets.len();
        let fails = self.calls.fails_next();
        if fails || n > left || self.octets.extend_from_slice(&piece[..n]).is_err() {
            self.faults = self.faults.saturating_add(1);
            return Wrote::Failed;
        }
        Wrote::Took(n)
    }
}
