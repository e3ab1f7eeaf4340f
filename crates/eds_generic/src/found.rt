//! The interfaces under maps that were found, each once.

ghost use Rattle.std.specs.Prelude.{◌≡◌, [], not, true, IfOk, OnOk};
ghost use Rattle.eds_generic.specs.declared.pair.Pair.{Pair as pair_of};
ghost use Rattle.eds_generic.specs.Pairs.{is_among, put as put_in};

use crate::pair::Pair;
use eds_base::Memory;
use indexmap::IndexSet;
use std::alloc::Global;
use std::marker::Model;

/// How many interfaces under maps are put for one end or interface.
const PAIRS: usize = 65536;

/// How many places for types the bases of all of them have: 64 MiB.
pub(crate) const PLACES: u64 = 8388608;

/// How many interfaces under maps are remembered for the next end or interface.
const HELD_PAIRS: usize = 8192;

/// How many places for types the bases of all of these have: 8 MiB.
const HELD_PLACES: u64 = 1048576;

/// Interfaces under maps in the order in which they were put, each once. There are at most so many of them, and their bases have
/// at most so many places for types, as there is room for: past these no memory is found.
#[derive(Drop)]
pub(crate) struct Found {
    pairs: IndexSet<Pair>,
    room: usize,
    left: u64,
}

impl Model for Found {
    ghost use Rattle.std.specs.Prelude.{List};
    ghost use Rattle.eds_generic.specs.declared.pair.Pair.{Pair as pair};

    ghost Value = { List pair };

    ghost view = { λ f. f.pairs.keys };
}

impl Found {
    /// None; there is room for those of one end or interface, whose bases may have so many places for types.
    pub(crate) fn new(alloc: Global, left: u64) -> Found
        ensures { result ≡ [] }
    {
        Found {
            pairs: IndexSet::new(alloc),
            room: PAIRS,
            left: left.min(PLACES),
        }
    }

    /// None; there is room for those of one end or interface beside those that are remembered.
    pub(crate) fn remembered(alloc: Global) -> Found
        ensures { result ≡ [] }
    {
        Found {
            pairs: IndexSet::new(alloc),
            room: PAIRS + HELD_PAIRS,
            left: PLACES + HELD_PLACES,
        }
    }

    /// How many places for types are left.
    pub(crate) fn left(&self) -> u64 {
        self.left
    }

    /// Forgets them all where there is no room for those of a further end or interface.
    pub(crate) fn make_room(&mut self, alloc: Global)
        ensures { (p : pair_of) → is_among self.new p ≡ true → is_among self.old p ≡ true }
    {
        if self.room < PAIRS || self.left < PLACES {
            *self = Found::remembered(alloc);
        }
    }

    /// Whether a pair is there.
    pub(crate) fn has(&self, pair: &Pair) -> bool
        ensures { result ≡ is_among self.now pair.now }
    {
        self.pairs.contains(pair)
    }

    /// Puts a pair last, unless it is there, and says whether it was not; its bases have so many places for types.
    pub(crate) fn put(&mut self, pair: Pair, places: u64) -> Result<bool, Memory>
        ensures put { OnOk result (self.new ≡ put_in self.old pair) }
        ensures added { IfOk result (λ added. added ≡ not (is_among self.old pair)) }
    {
        match self.room.checked_sub(1) {
            None => return Err(Memory),
            Some(room) => self.room = room,
        }
        match self.left.checked_sub(places) {
            None => return Err(Memory),
            Some(left) => self.left = left,
        }
        let added = self.pairs.insert(pair)?;
        Ok(added)
    }

    /// All of them.
    pub(crate) fn as_slice(&self) -> &[Pair]
        ensures { result.now ≡ self.now }
    {
        self.pairs.as_slice()
    }
}
