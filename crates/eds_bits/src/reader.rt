//! Reading bits of octets, the most significant first.

ghost use Rattle.std.specs.Prelude.{◌≡◌, ◌+◌, ◌*◌, ◌/◌, ◌%◌, ◌^◌, ◌<◌, ◌≤◌, ◌↔◌, length, drop, take, IsNone, IsSome, IsTrue, IfSome, OnSome, IfNone};
ghost use Rattle.std.specs.Bool.{OnTrue, OnFalse};
ghost use Rattle.eds_bits.specs.Bits.{bits_of, unsigned_of};

use crate::octets::shift_into;
use crate::window::{Window, lowest, number_of, word_of};

/// The bits of some octets from one of them on, lent.
#[derive(Clone, Copy)]
pub struct BitView<'a> {
    octets: &'a [u8],
    from: u64,
    ghost few: { length octets.now ≤ 2 ^ 32 },
    ghost in_range: { from ≤ 8 * length octets.now },
}

/// A place among the bits of some octets, which moves on as they are taken.
#[derive(Clone, Copy)]
pub struct BitReader<'a> {
    octets: &'a [u8],
    at: u64,
    ghost few: { length octets.now ≤ 2 ^ 32 },
    ghost in_range: { at ≤ 8 * length octets.now },
}

impl<'a> BitView<'a> {
    ghost use Rattle.eds_bits.specs.Reader.{view_bits};

    /// All the bits of some octets, of which there are at most 2^32.
    pub fn new(octets: &'a [u8]) -> BitView<'a>
        requires { length octets.now ≤ 2 ^ 32 }
        ensures { view_bits result ≡ bits_of octets.now }
    {
        BitView { octets, from: 0 }
    }

    /// The view without its first `n` bits. So many must be there.
    #[tactic(auto, using(crate::proofs::OctetLaws::length_after))]
    pub fn after(&self, n: u64) -> BitView<'a>
        requires { n ≤ length (view_bits self.now) }
        ensures { view_bits result ≡ drop n (view_bits self.now) }
    {
        BitView {
            octets: self.octets,
            from: self.from + n,
        }
    }
}

impl<'a> BitReader<'a> {
    ghost use Rattle.eds_bits.specs.Reader.{view_bits, bits_left};
    ghost use Rattle.eds_bits.specs.Texts.{front_octets};

    /// A reader before the first bit of a view.
    pub fn new(view: BitView<'a>) -> BitReader<'a>
        ensures { bits_left result ≡ view_bits view.entry }
    {
        BitReader {
            octets: view.octets,
            at: view.from,
        }
    }

    /// How many bits are left.
    #[tactic(auto, using(crate::proofs::OctetLaws::length_after))]
    pub fn left(&self) -> u64
        ensures { result ≡ length (bits_left self.now) }
    {
        8 * self.octets.len() as u64 - self.at
    }

    /// The unsigned number of the next `n` bits, at most 64, which the reader then has passed. `None` where fewer than
    /// `n` are left: the reader then stays where it is.
    #[tactic(auto, using(crate::proofs::OctetLaws::length_after))]
    pub fn take(&mut self, n: u32) -> Option<u64>
        requires { n ≤ 64 }
        ensures few { IsNone result ↔ (length (bits_left self.old) < n) }
        ensures enough { OnSome result (n ≤ length (bits_left self.old)) }
        ensures same { IfNone result (bits_left self.new ≡ bits_left self.old) }
        ensures value { IfSome result (λ v. v ≡ unsigned_of (take n (bits_left self.old))) }
        ensures bound { IfSome result (λ v. v < 2 ^ n) }
        ensures after { OnSome result (bits_left self.new ≡ drop n (bits_left self.old)) }
    {
        if self.left() < u64::from(n) {
            return None;
        }
        let value = number_at(self.octets, self.at, n);
        self.at += u64::from(n);
        Some(value)
    }

    /// The octets that are left, lent. `None` exactly where the reader does not stand at a whole octet.
    #[tactic(auto, using(crate::proofs::OctetLaws::length_after))]
    pub fn octets(&self) -> Option<&'a [u8]>
        ensures whole { IsSome result ↔ (length (bits_left self.now) % 8 ≡ 0) }
        ensures value { IfSome result (λ octets. bits_left self.now ≡ bits_of octets.now) }
    {
        if self.at % 8 == 0 {
            Some(&self.octets[(self.at / 8) as usize..])
        } else {
            None
        }
    }

    /// Moves on by `n` bits. So many must be left.
    #[tactic(auto, using(crate::proofs::OctetLaws::length_after))]
    pub fn skip(&mut self, n: u64)
        requires { n ≤ length (bits_left self.old) }
        ensures { bits_left self.new ≡ drop n (bits_left self.old) }
    {
        self.at += n;
    }

    /// Fills the room with the next bits, eight for each octet, which the reader then has passed. `false` where fewer are
    /// left: the reader then stays where it is, and the room is unchanged.
    #[tactic(auto, using(crate::proofs::OctetLaws::length_after))]
    pub fn take_octets(&mut self, room: &mut [u8]) -> bool
        ensures enough { IsTrue result ↔ (8 * length room.old ≤ length (bits_left self.old)) }
        ensures value { OnTrue result (room.new ≡ front_octets (length room.old) (bits_left self.old)) }
        ensures after { OnTrue result (bits_left self.new ≡ drop (8 * length room.old) (bits_left self.old)) }
        ensures few { OnFalse result (length (bits_left self.old) < 8 * length room.old) }
        ensures same { OnFalse result (bits_left self.new ≡ bits_left self.old) }
        ensures same_room { OnFalse result (room.new ≡ room.old) }
    {
        if self.left() / 8 < room.len() as u64 {
            return false;
        }
        octets_at(self.octets, self.at, room);
        self.at += 8 * room.len() as u64;
        true
    }
}

// The number of the n bits from bit `at` on.
fn number_at(octets: &[u8], at: u64, n: u32) -> u64
    requires few { length octets.now ≤ 2 ^ 32 }
    requires within { at + n ≤ 8 * length octets.now }
    requires small { n ≤ 64 }
    ensures value { result ≡ unsigned_of (take n (drop at (bits_of octets.now))) }
    ensures bound { result < 2 ^ n }
{
    let first = (at / 8) as usize;
    let skip = (at % 8) as u32;
    if skip + n <= 64 && octets.len() - first >= 8 {
        number_in_word(octets, first, skip, n)
    } else {
        number_in_window(octets, at, n)
    }
}

// The number of the n bits that stand `skip` bits behind the start of the octet `first`, in one word from there on.
fn number_in_word(octets: &[u8], first: usize, skip: u32, n: u32) -> u64
    requires near { skip + n ≤ 64 }
    requires within { first + 8 ≤ length octets.now }
    ensures value { result ≡ unsigned_of (take n (drop (8 * first + skip) (bits_of octets.now))) }
    ensures bound { result < 2 ^ n }
{
    let word = word_of(&octets[first..first + 8]);
    lowest(u128::from(word) >> (64 - skip - n), n) as u64
}

// The number of the n bits from bit `at` on, wherever they stand.
fn number_in_window(octets: &[u8], at: u64, n: u32) -> u64
    requires few { length octets.now ≤ 2 ^ 32 }
    requires within { at + n ≤ 8 * length octets.now }
    requires small { n ≤ 64 }
    ensures value { result ≡ unsigned_of (take n (drop at (bits_of octets.now))) }
    ensures bound { result < 2 ^ n }
{
    let window = Window::around(at, n);
    let number = number_of(&octets[window.first..window.last]);
    lowest(number >> window.pad, n) as u64
}

// Fills the room with the bits from bit `at` on.
fn octets_at(octets: &[u8], at: u64, room: &mut [u8])
    requires few { length octets.now ≤ 2 ^ 32 }
    requires within { at + 8 * length room.old ≤ 8 * length octets.now }
    ensures { bits_of room.new ≡ take (8 * length room.old) (drop at (bits_of octets.now)) }
{
    let first = (at / 8) as usize;
    let skip = (at % 8) as u32;
    let last = first + room.len();
    if skip == 0 {
        room.copy_from_slice(&octets[first..last]);
    } else {
        shift_into(room, &octets[first..last + 1], skip);
    }
}
