//! A negative number counts as many less than its bits say as there are patterns.

ghost use Rattle.std.specs.Prelude.{◌≡◌, ◌^◌, ◌<◌, ◌≤◌, ◌≤ℤ◌, Some, pos};
ghost use Rattle.eds_bits.specs.Bits.{low_bits};
ghost use Rattle.eds_bits.specs.Encodings.{least_by, greatest_by, number_by};
ghost use Rattle.eds_bits.specs.declared.forms.Encoding.TheVariants.{TwosComplement};

use crate::int_forms::Bounds;

pub fn bounds(bits: u32) -> Bounds
    requires some { 1 ≤ bits }
    requires few { bits ≤ 64 }
    ensures least { result.least ≡ least_by TwosComplement bits }
    ensures greatest { result.greatest ≡ greatest_by TwosComplement bits }
{
    let half = 1i128 << (bits - 1);
    Bounds {
        least: -half,
        greatest: half - 1,
    }
}

pub fn encode(bits: u32, n: i128) -> u64
    requires some { 1 ≤ bits }
    requires few { bits ≤ 64 }
    requires from_least { least_by TwosComplement bits ≤ℤ n }
    requires to_greatest { n ≤ℤ greatest_by TwosComplement bits }
    ensures small { result < 2 ^ bits }
    ensures number { number_by TwosComplement (low_bits bits result) ≡ Some n }
    ensures zero { n ≡ pos 0 → result ≡ 0 }
{
    if n < 0 {
        (n + (1i128 << bits)) as u64
    } else {
        n as u64
    }
}

pub fn decode(bits: u32, raw: u64) -> Option<i128>
    requires some { 1 ≤ bits }
    requires few { bits ≤ 64 }
    requires small { raw < 2 ^ bits }
    ensures { result ≡ number_by TwosComplement (low_bits bits raw) }
{
    if raw < 1u64 << (bits - 1) {
        Some(i128::from(raw))
    } else {
        Some(i128::from(raw) - (1i128 << bits))
    }
}
