//! Containers as operations: entries at fixed places, which are read one after another.

ghost use Rattle.std.specs.Prelude.{◌≡◌, ◌+◌, ◌-◌, ◌*◌, ◌^◌, ◌≤◌, length};

use eds_base::TypeId;

/// What numbers of at most 62 bits stand for. Where the octet that counts least comes first, octets change places. A number
/// from `half` on, whose first bit is a sign, stands for what it is above `less`, or, where these count down, below it.
#[derive(Clone, Copy)]
pub(crate) struct Coding {
    pub little: bool,
    pub down: bool,
    pub half: u64,
    pub less: u64,
    pub ghost few: { less ≤ 2 ^ 62 },
}

/// What such numbers stand for, where those from `low` to `high` are of the domain.
#[derive(Clone, Copy)]
pub(crate) struct Numbers {
    pub coding: Coding,
    pub low: i64,
    pub high: i64,
}

/// So many decimal digits of so many bits each, the first one first, where their numbers from `low` to `high` are of the
/// domain.
#[derive(Clone, Copy)]
pub(crate) struct Digits {
    pub digit_bits: u32,
    pub digits: u32,
    pub low: i64,
    pub high: i64,
    pub ghost wide: { 4 ≤ digit_bits },
    pub ghost narrow: { digit_bits ≤ 8 },
    pub ghost few: { digit_bits * digits ≤ 64 },
}

/// How the bits of an entry make its value.
#[derive(Clone, Copy)]
pub(crate) enum Meaning {
    /// They are a number.
    Number(Numbers),
    /// They are the decimal digits of a number.
    Digits(Digits),
    /// They are the number of a label, which the row of the type lists.
    Label(Coding),
    /// They are a truth value: whether all bits zero are false.
    Truth(bool),
    /// The row of the type tells.
    Told,
}

/// An entry of a number, label or truth value: its type, the place of its first bit in the container, and how many bits it has.
/// All of them lie in the eight octets from octet `first` on, and `pad` bits of these follow them.
#[derive(Clone, Copy)]
pub(crate) struct Operation {
    pub id: TypeId,
    pub at: u32,
    pub bits: u32,
    pub first: u32,
    pub pad: u32,
    /// The greatest number of so many bits.
    pub mask: u64,
    pub meaning: Meaning,
    /// Whether all patterns of the bits have a value.
    pub sure: bool,
    pub ghost some: { 1 ≤ bits },
    pub ghost start: { 8 * first ≤ at },
    pub ghost end: { at + bits + pad ≡ 8 * first + 64 },
    pub ghost greatest: { mask ≡ 2 ^ bits - 1 },
}

/// The operations of the entries that a container begins with, how many bits these have, and whether the container's value is
/// theirs alone.
#[derive(Drop)]
pub(crate) struct Segment {
    pub operations: Vec<Operation>,
    pub bits: u32,
    pub whole: bool,
    pub ghost few: { length operations.items ≤ 32767 },
}
