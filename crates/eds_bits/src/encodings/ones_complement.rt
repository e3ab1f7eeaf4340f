//! A negative number is its size with all bits inverted; there are two zeros.

ghost use Rattle.std.specs.Prelude.{◌≡◌, ◌^◌, ◌<◌, ◌≤◌, ◌≤ℤ◌, Some, pos};
ghost use Rattle.eds_bits.specs.Bits.{low_bits};
ghost use Rattle.eds_bits.specs.Encodings.{least_by, greatest_by, number_by};
ghost use Rattle.eds_bits.specs.declared.forms.Encoding.TheVariants.{OnesComplement};

use crate::int_forms::Bounds;

pub fn bounds(bits: u32) -> Bounds
    requires some { 1 ≤ bits }
    requires few { bits ≤ 64 }
    ensures least { result.least ≡ least_by OnesComplement bits }
    ensures greatest { result.greatest ≡ greatest_by OnesComplement bits }
{
    let most = (1i128 << (bits - 1)) - 1;
    Bounds {
        least: -most,
        greatest: most,
    }
}

pub fn encode(bits: u32, n: i128) -> u64
    requires some { 1 ≤ bits }
    requires few { bits ≤ 64 }
    requires from_least { least_by OnesComplement bits ≤ℤ n }
    requires to_greatest { n ≤ℤ greatest_by OnesComplement bits }
    ensures small { result < 2 ^ bits }
    ensures number { number_by OnesComplement (low_bits bits result) ≡ Some n }
    ensures zero { n ≡ pos 0 → result ≡ 0 }
{
    if n < 0 {
        (n + ((1i128 << bits) - 1)) as u64
    } else {
        n as u64
    }
}

pub fn decode(bits: u32, raw: u64) -> Option<i128>
    requires some { 1 ≤ bits }
    requires few { bits ≤ 64 }
    requires small { raw < 2 ^ bits }
    ensures { result ≡ number_by OnesComplement (low_bits bits raw) }
{
    if raw < 1u64 << (bits - 1) {
        Some(i128::from(raw))
    } else {
        Some(i128::from(raw) - ((1i128 << bits) - 1))
    }
}
