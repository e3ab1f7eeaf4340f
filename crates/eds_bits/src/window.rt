//! The octets around some bits, and their number.

ghost use Rattle.std.specs.Prelude.{◌≡◌, ◌+◌, ◌*◌, ◌%◌, ◌^◌, ◌<◌, ◌≤◌, length};
ghost use Rattle.eds_bits.specs.Bits.{bits_of, unsigned_of};

/// The whole octets that hold some bits: from octet `first` up to octet `last`, which is not among them. `pad` bits
/// of the last one follow these bits.
#[derive(Clone, Copy)]
pub struct Window {
    pub first: usize,
    pub last: usize,
    pub pad: u32,
}

impl Window {
    /// The octets around the n bits from bit `at` on.
    pub fn around(at: u64, n: u32) -> Window
        requires near { at < 2 ^ 41 }
        requires small { n ≤ 64 }
        ensures start { 8 * result.first ≤ at }
        ensures close { at < 8 * result.first + 8 }
        ensures end { at + n + result.pad ≡ 8 * result.last }
        ensures pad { result.pad < 8 }
    {
        let end = at + u64::from(n);
        let last = end.div_ceil(8);
        Window {
            first: (at / 8) as usize,
            last: last as usize,
            pad: (8 * last - end) as u32,
        }
    }
}

/// The unsigned number of at most nine octets, the most significant first.
pub fn number_of(octets: &[u8]) -> u128
    requires { length octets.now ≤ 9 }
    ensures value { result ≡ unsigned_of (bits_of octets.now) }
    ensures bound { result < 2 ^ (8 * length octets.now) }
{
    let mut number = 0u128;
    for octet in octets {
        number = number << 8 | u128::from(*octet);
    }
    number
}

/// The unsigned number of eight octets, the most significant first.
pub fn word_of(octets: &[u8]) -> u64
    requires { length octets.now ≡ 8 }
    ensures { result ≡ unsigned_of (bits_of octets.now) }
{
    u64::from_be_bytes([
        octets[0], octets[1], octets[2], octets[3], octets[4], octets[5], octets[6], octets[7],
    ])
}

/// The n lowest bits of a number, at most 64.
pub fn lowest(number: u128, n: u32) -> u128
    requires { n ≤ 64 }
    ensures { result ≡ number % 2 ^ n }
{
    number & ((1u128 << n) - 1)
}
