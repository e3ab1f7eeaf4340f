//! Binary numbers without a sign.

ghost use Rattle.std.specs.Prelude.{◌≡◌, ◌^◌, ◌<◌, ◌≤◌, ◌≤ℤ◌, Some, pos};
ghost use Rattle.eds_bits.specs.Bits.{low_bits};
ghost use Rattle.eds_bits.specs.Encodings.{least_by, greatest_by, number_by};
ghost use Rattle.eds_bits.specs.declared.forms.Encoding.{Encoding};
ghost use Rattle.eds_bits.specs.declared.forms.Encoding.TheVariants.{Unsigned};

use crate::int_forms::Bounds;

pub fn bounds(bits: u32) -> Bounds
    requires some { 1 ≤ bits }
    requires few { bits ≤ 64 }
    ensures least { result.least ≡ least_by Unsigned bits }
    ensures greatest { result.greatest ≡ greatest_by Unsigned bits }
{
    Bounds {
        least: 0,
        greatest: (1i128 << bits) - 1,
    }
}

pub fn encode(bits: u32, n: i128) -> u64
    requires some { 1 ≤ bits }
    requires few { bits ≤ 64 }
    requires from_least { least_by Unsigned bits ≤ℤ n }
    requires to_greatest { n ≤ℤ greatest_by Unsigned bits }
    ensures small { result < 2 ^ bits }
    ensures number { number_by Unsigned (low_bits bits result) ≡ Some n }
    ensures zero { n ≡ pos 0 → result ≡ 0 }
{
    n as u64
}

pub fn decode(bits: u32, raw: u64) -> Option<i128>
    requires some { 1 ≤ bits }
    requires few { bits ≤ 64 }
    requires small { raw < 2 ^ bits }
    ensures { result ≡ number_by Unsigned (low_bits bits raw) }
{
    Some(i128::from(raw))
}
