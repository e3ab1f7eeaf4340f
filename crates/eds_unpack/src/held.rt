//! Octets that wait for their turn.

ghost use Rattle.std.specs.Prelude.{◌≡◌, ◌↔◌, ◌++◌, ◌+◌, ◌-◌, ◌≤◌, [], length, take, drop, nat_le, IfOk, IsTrue};
ghost use Rattle.eds_unpack.specs.Holding.{from_to};

use eds_base::Memory;
use std::alloc::Global;
use std::marker::Model;

/// The octets that are held, in a room of a fixed size: those from the place `first` on, up to the place `last`.
#[derive(Drop)]
pub(crate) struct Held {
    room: Vec<u8>,
    first: usize,
    last: usize,
}

impl Model for Held {
    ghost use Rattle.std.specs.Prelude.{◌≤◌, length};
    ghost use Rattle.eds_unpack.specs.Holding.{Holding, from_to};

    ghost Value = { Holding };

    ghost view = { λ h. record { size = length h.room.items; octets = from_to h.first h.last h.room.items } };

    ghost invariant = { λ h. (h.first ≤ h.last) × (h.last ≤ length h.room.items) };
}

/// Moves what stands in a room from one place on, up to another, to the front.
#[tactic(auto, using(crate::proofs::Rooms::moved))]
fn move_to_front(room: &mut [u8], first: usize, last: usize)
    requires order { first ≤ last }
    requires within { last ≤ length room.old }
    ensures size { length room.new ≡ length room.old }
    ensures value { take (last - first) room.new ≡ from_to first last room.old }
{
    room.copy_within(first..last, 0);
}

/// Puts a piece into a room, where it has place.
#[tactic(auto, using(std::proofs::lemmas::Slice::overwrites))]
fn put_piece(room: &mut [u8], at: usize, piece: &[u8])
    requires within { at + length piece.now ≤ length room.old }
    ensures size { length room.new ≡ length room.old }
    ensures value { take (at + length piece.now) room.new ≡ take at room.old ++ piece.now }
{
    room[at..at + piece.len()].copy_from_slice(piece);
}

impl Held {
    /// No octets, and room for so many.
    pub(crate) fn with_room(alloc: Global, size: usize) -> Result<Held, Memory>
        ensures { IfOk result (λ h. h ≡ record { size = size; octets = [] }) }
    {
        let room = vec![in alloc; 0u8; size]?;
        Ok(Held {
            room,
            first: 0,
            last: 0,
        })
    }

    /// All of them.
    pub(crate) fn as_slice(&self) -> &[u8]
        ensures value { result.now ≡ self.now.octets }
        ensures few { length result.now ≤ self.now.size }
    {
        &self.room[self.first..self.last]
    }

    /// Whether there are none.
    pub(crate) fn is_empty(&self) -> bool
        ensures { IsTrue result ↔ (self.now.octets ≡ []) }
    {
        self.as_slice().is_empty()
    }

    /// Whether so many more have room.
    pub(crate) fn has_room(&self, more: usize) -> bool
        ensures { result ≡ nat_le (length self.now.octets + more) self.now.size }
    {
        more <= self.room.len() - (self.last - self.first)
    }

    /// Puts some behind the others. There must be room for them.
    pub(crate) fn append(&mut self, piece: &[u8])
        requires { length self.old.octets + length piece.now ≤ self.old.size }
        ensures { self.new ≡ record { size = self.old.size; octets = self.old.octets ++ piece.now } }
    {
        let held = self.last - self.first;
        if self.room.len() - self.last < piece.len() {
            move_to_front(self.room.as_mut_slice(), self.first, self.last);
            self.first = 0;
            self.last = held;
        }
        put_piece(self.room.as_mut_slice(), self.last, piece);
        self.last += piece.len();
    }

    /// Lets the first ones go. So many must be there.
    pub(crate) fn pass(&mut self, count: usize)
        requires { count ≤ length self.old.octets }
        ensures { self.new ≡ record { size = self.old.size; octets = drop count self.old.octets } }
    {
        self.first += count;
    }
}
