//! Whether octets are of an encoding, where they come block by block.

ghost use Rattle.std.specs.Prelude.{ℕ, Bool, List, [], ◌++◌, ◌↔◌, IsTrue};
ghost use Rattle.eds_bits.specs.Scalars.{IsCoded};
ghost use Rattle.eds_codec.specs.Coding.{HasSeen};

use simdutf8::Checker;
use std::simd::prelude::*;

/// How many octets come at once.
pub(crate) const BLOCK: usize = 64;

/// What is known of the octets so far.
#[derive(Clone, Copy)]
pub(crate) enum Coding {
    /// Whether all of them are ASCII.
    Ascii(bool),
    Utf8(Checker),
}

impl Coding {
    /// No octets yet.
    pub(crate) fn new(ascii: bool) -> Coding
        ensures { HasSeen ascii result [] }
    {
        if ascii {
            Coding::Ascii(true)
        } else {
            Coding::Utf8(Checker::new())
        }
    }

    /// The same after one more block.
    pub(crate) fn step(self, block: [u8; BLOCK]) -> Coding
        ensures { (ascii : Bool) (seen : List ℕ) → HasSeen ascii self seen → HasSeen ascii result (seen ++ block) }
    {
        match self {
            Coding::Ascii(plain) => Coding::Ascii(plain && block.is_ascii()),
            Coding::Utf8(checker) => Coding::Utf8(checker.step(u8x64::from_array(block))),
        }
    }

    /// Whether the octets are of the encoding.
    pub(crate) fn finish(self) -> bool
        ensures { (ascii : Bool) (seen : List ℕ) → HasSeen ascii self seen → (IsTrue result ↔ IsCoded ascii seen) }
    {
        match self {
            Coding::Ascii(plain) => plain,
            Coding::Utf8(checker) => checker.finish(),
        }
    }
}
