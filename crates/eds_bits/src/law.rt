//! Laws of the forms: functions with no body, whose contracts are what was proved.

ghost use Rattle.std.specs.Prelude.{◌≡◌, ◌^◌, ◌<◌, ◌≤ℤ◌, ◌<ℤ◌, ◌↔◌, ℤ, pos, neg_ℤ, Some, IsNone};
ghost use Rattle.eds_bits.specs.Bits.{Bits};
ghost use Rattle.eds_bits.specs.Lists.{HasOne};
ghost use Rattle.eds_bits.specs.Style.{canonical};
ghost use Rattle.eds_bits.specs.IntForms.{least, greatest, HasNumber, number_of, digits_of, IsInt, IsNumber};
ghost use Rattle.eds_bits.specs.Scalars.{check_bits, check_of};
ghost use Rattle.eds_bits.specs.Vectors.{NumberVectors, CheckVectors};

use crate::{CheckKind, IntForm};

/// A pattern stands for at most one number, and for none exactly where one of its decimal digits is above 9.
pub fn numbers_of_patterns(form: IntForm)
    ensures one { (m n : ℤ) (bits : Bits) → IsInt form m bits → IsInt form n bits → m ≡ n }
    ensures none { (bits : Bits) → IsNone (number_of form bits) ↔ HasOne (λ digit. 9 < digit) (digits_of form bits) }
{}

/// The numbers that have a pattern are those from the least to the greatest of the form.
pub fn patterns_of_numbers(form: IntForm)
    ensures only { (n : ℤ) (bits : Bits) → IsInt form n bits → HasNumber form n }
    ensures each { (n : ℤ) → HasNumber form n → (bits : Bits) × IsInt form n bits }
{}

/// Each number of a form has exactly one canonical pattern.
pub fn canonical_patterns(form: IntForm)
    ensures some { (n : ℤ) → HasNumber form n → (bits : Bits) × IsNumber canonical form n bits }
    ensures one { (n : ℤ) (bits others : Bits) → IsNumber canonical form n bits → IsNumber canonical form n others → bits ≡ others }
{}

/// Decoding what encoding gives is the number again, and where decoding gives a number, encoding has a
/// pattern for it.
pub fn decoding_and_encoding(form: IntForm)
    ensures encoded { (n : ℤ) (bits : Bits) → IsNumber canonical form n bits → number_of form bits ≡ Some n }
    ensures decoded { (n : ℤ) (bits : Bits) → IsInt form n bits → (pattern : Bits) × IsNumber canonical form n pattern }
{}

/// No form has a number below -2^63, or one from 2^64 on.
pub fn sizes_of_numbers(form: IntForm)
    ensures in_order { least form ≤ℤ greatest form }
    ensures least { neg_ℤ (pos (2 ^ 63)) ≤ℤ least form }
    ensures greatest { greatest form <ℤ pos (2 ^ 64) }
{}

/// What some octets that are known from outside stand for.
pub fn number_vectors()
    ensures { NumberVectors }
{}

/// The checks of the text `123456789`, which are known from outside.
pub fn check_vectors()
    ensures { CheckVectors }
{}

/// A check is a number of its bits: 16 for the longer cyclic redundancy check, and 8 for the others.
pub fn sizes_of_checks(kind: CheckKind)
    ensures { (bits : Bits) → check_of kind bits < 2 ^ check_bits kind }
{}
