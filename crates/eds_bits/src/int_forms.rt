//! Whole numbers of 1 to 64 bits, as their forms spell them.

ghost use Rattle.std.specs.Prelude.{◌≡◌, ℕ, ◌^◌, ◌<◌, ◌≤◌, ◌↔◌, ◌⊎◌, IsSome, IsNone, IfSome, OnSome};
ghost use Rattle.eds_bits.specs.Bits.{Bits, low_bits};
ghost use Rattle.eds_bits.specs.Lists.{HasOne};
ghost use Rattle.eds_bits.specs.Style.{canonical};
ghost use Rattle.eds_bits.specs.Encodings.{ordered};
ghost use Rattle.eds_bits.specs.IntForms.{least, greatest, HasNumber, number_of, digits_of, IsInt, IsNumber};

use crate::encodings::{decimal, ones_complement, sign_magnitude, twos_complement, unsigned};
use crate::{ByteOrder, Encoding, IntForm};

/// The numbers of a form: all from the least to the greatest.
#[derive(Clone, Copy, PartialEq, Eq)]
pub struct Bounds {
    pub least: i128,
    pub greatest: i128,
}

// What an encoding's module does, with an arm for each encoding.
macro_rules! by_encoding {
    ($form:expr, $task:ident($($number:expr)?)) => {
        match $form.encoding {
            Encoding::Unsigned => unsigned::$task($form.bits $(, $number)?),
            Encoding::TwosComplement => twos_complement::$task($form.bits $(, $number)?),
            Encoding::SignMagnitude => sign_magnitude::$task($form.bits $(, $number)?),
            Encoding::OnesComplement => ones_complement::$task($form.bits $(, $number)?),
            Encoding::PackedBcd => decimal::$task(4, $form.bits / 4 $(, $number)?),
            Encoding::Bcd => decimal::$task(8, $form.bits / 8 $(, $number)?),
        }
    };
}

/// The least and the greatest number of a form.
pub fn bounds_of(form: IntForm) -> Bounds
    ensures least { result.least ≡ least form }
    ensures greatest { result.greatest ≡ greatest form }
{
    by_encoding!(form, bounds())
}

/// The bits of a number as a form spells it, zero with all bits zero. None exactly where the form has no
/// such number.
pub fn encode_int(form: IntForm, n: i128) -> Option<u64>
    ensures some { IsSome result ↔ HasNumber form n }
    ensures none { IsNone result ↔ ((bits : Bits) → IsInt form n bits → ⊥) }
    ensures small { IfSome result (λ raw. raw < 2 ^ form.bits) }
    ensures pattern { IfSome result (λ raw. IsNumber canonical form n (low_bits form.bits raw)) }
{
    let bounds = bounds_of(form);
    if n < bounds.least || bounds.greatest < n {
        return None;
    }
    let raw = by_encoding!(form, encode(n));
    Some(reordered(form, raw))
}

/// The number whose bits in a form are those of `raw`. None exactly where the form has no such pattern: it
/// has fewer bits, or a decimal digit is above 9.
pub fn decode_int(form: IntForm, raw: u64) -> Option<i128>
    ensures fits { OnSome result (raw < 2 ^ form.bits) }
    ensures number { raw < 2 ^ form.bits → result ≡ number_of form (low_bits form.bits raw) }
    ensures none { IsNone result ↔ ((2 ^ form.bits ≤ raw) ⊎ HasOne (λ digit. 9 < digit) (digits_of form (low_bits form.bits raw))) }
{
    if raw >> (form.bits - 1) > 1 {
        return None;
    }
    let raw = reordered(form, raw);
    by_encoding!(form, decode(raw))
}

// The bits from big-endian order into the form's, or back.
fn reordered(form: IntForm, raw: u64) -> u64
    requires { raw < 2 ^ form.bits }
    ensures small { result < 2 ^ form.bits }
    ensures bits { low_bits form.bits result ≡ ordered form.order (low_bits form.bits raw) }
{
    match form.order {
        ByteOrder::Big => raw,
        ByteOrder::Little => raw.swap_bytes() >> (64 - form.bits),
    }
}
