//! Counting bits.

ghost use Rattle.std.specs.Prelude.{◌≡◌, ◌≤◌, ◌+◌, ◌^◌, [], Ok, Err, IfSome, IfNone, is_ok};
ghost use Rattle.eds_bits.specs.Bits.{octets_for};
ghost use Rattle.eds_types.specs.Packing.{most_bits};
ghost use Rattle.eds_types.specs.PackedSizes.{not_long};
ghost use Rattle.eds_pack.specs.Counting.{capped, added, at_once, found};

use eds_types::PackReason;
use std::marker::Model;

/// More bits than the octets have that any length entry tells.
const MOST: u128 = 1 << 100;

/// The most bits that a packed value may have.
const MOST_PACKED: u128 = 524_288;

/// A number of bits; where it is larger than any length entry tells, the bound `MOST` stands for it.
#[derive(Drop)]
pub(crate) struct Tally {
    bits: u128,
}

impl Model for Tally {
    ghost use Rattle.std.specs.Prelude.{ℕ, ◌≤◌, ◌^◌};

    ghost Value = { ℕ };

    ghost view = { λ t. t.bits };

    ghost invariant = { λ t. t.bits ≤ 2 ^ 100 };
}

impl Tally {
    /// No bits.
    pub(crate) fn new() -> Tally
        ensures { result ≡ 0 }
    {
        Tally { bits: 0 }
    }

    /// The bound that the number keeps.
    pub(crate) fn keeps_bound(&self)
        ensures { self.now ≤ 2 ^ 100 }
    {
        let _ = &self.bits;
    }

    /// Counts so many bits more.
    pub(crate) fn add(&mut self, bits: u32)
        ensures { self.new ≡ capped (self.old + bits) }
    {
        self.bits = (self.bits + u128::from(bits)).min(MOST);
    }

    /// Counts the bits of another tally.
    pub(crate) fn join(&mut self, other: &Tally)
        ensures { self.new ≡ capped (self.old + other.now) }
    {
        self.bits = (self.bits + other.bits).min(MOST);
    }

    /// Counts the bits of a value in which nothing is nested, where it has a size.
    pub(crate) fn take(&mut self, size: Result<u32, PackReason>) -> Result<(), PackReason>
        ensures { found result self.new [] ≡ added self.old (at_once size) }
    {
        self.add(size?);
        Ok(())
    }

    /// How many octets hold the bits.
    pub(crate) fn octets(&self) -> u128
        ensures value { result ≡ octets_for self.now }
        ensures bound { self.now ≤ 2 ^ 100 }
    {
        self.bits.div_ceil(8)
    }

    /// The bits, where a packed value may have as many.
    pub(crate) fn packed(&self) -> Option<u32>
        ensures some { IfSome result (λ n. (n ≡ self.now) × (n ≤ most_bits)) }
        ensures none { IfNone result (most_bits + 1 ≤ self.now) }
    {
        if self.bits <= MOST_PACKED {
            Some(self.bits as u32)
        } else {
            None
        }
    }
}

/// Whether a value in which nothing is nested packs, where it has this size.
pub(crate) fn packs_at_once(size: Result<u32, PackReason>) -> bool
    ensures { result ≡ is_ok (not_long (at_once size)) }
{
    match size {
        Ok(bits) => u128::from(bits) <= MOST_PACKED,
        Err(_) => false,
    }
}
