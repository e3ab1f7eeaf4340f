//! Decimal digits of so many bits each, the first digit first.

ghost use Rattle.std.specs.Prelude.{◌≡◌, ◌-◌, ◌*◌, ◌^◌, ◌<◌, ◌≤◌, ◌≤ℤ◌, Some, pos, map};
ghost use Rattle.eds_bits.specs.Bits.{low_bits, unsigned_of, pieces};
ghost use Rattle.eds_bits.specs.Encodings.{decimal_of};

use crate::int_forms::Bounds;

pub fn bounds(digit_bits: u32, digits: u32) -> Bounds
    requires wide { 4 ≤ digit_bits }
    requires narrow { digit_bits ≤ 8 }
    requires few { digit_bits * digits ≤ 64 }
    ensures least { result.least ≡ pos 0 }
    ensures greatest { result.greatest ≡ pos (10 ^ digits - 1) }
{
    Bounds {
        least: 0,
        greatest: i128::from(10u64.pow(digits)) - 1,
    }
}

pub fn encode(digit_bits: u32, digits: u32, n: i128) -> u64
    requires wide { 4 ≤ digit_bits }
    requires narrow { digit_bits ≤ 8 }
    requires few { digit_bits * digits ≤ 64 }
    requires from_least { pos 0 ≤ℤ n }
    requires to_greatest { n ≤ℤ pos (10 ^ digits - 1) }
    ensures small { result < 2 ^ (digit_bits * digits) }
    ensures number { decimal_of (map unsigned_of (pieces digit_bits (low_bits (digit_bits * digits) result))) ≡ Some n }
    ensures zero { n ≡ pos 0 → result ≡ 0 }
{
    let mut raw = 0u64;
    let mut left = n as u64;
    for i in 0..digits {
        raw |= left % 10 << (digit_bits * i);
        left /= 10;
    }
    raw
}

pub fn decode(digit_bits: u32, digits: u32, raw: u64) -> Option<i128>
    requires wide { 4 ≤ digit_bits }
    requires narrow { digit_bits ≤ 8 }
    requires few { digit_bits * digits ≤ 64 }
    requires small { raw < 2 ^ (digit_bits * digits) }
    ensures { result ≡ decimal_of (map unsigned_of (pieces digit_bits (low_bits (digit_bits * digits) raw))) }
{
    let mut n = 0u64;
    let mut worth = 1u64;
    let mut left = raw;
    for _ in 0..digits {
        let digit = left % (1 << digit_bits);
        if digit > 9 {
            return None;
        }
        n += digit * worth;
        worth *= 10;
        left >>= digit_bits;
    }
    Some(i128::from(n))
}
