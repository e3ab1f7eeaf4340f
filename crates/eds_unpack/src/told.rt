//! What length entries tell.

ghost use Rattle.std.specs.Prelude.{◌≡◌, ◌≤◌, ◌^◌, [], ℤ, Ok, IfErr, IfSome, OnOk, nat_abs, ◌+ℤ◌, ◌*ℤ◌};
ghost use Rattle.eds_types.specs.Plain.{plain};
ghost use Rattle.eds_types.specs.Reading.{number_in};
ghost use Rattle.eds_unpack.specs.Courses.{told_by};
ghost use Rattle.eds_unpack.specs.Readers.{Gives, with_path, StopsReading};

use crate::progress::Reached;
use eds_base::{Fail, Reason};
use eds_types::Value;

/// The number of a length entry.
fn number_in(value: &Value) -> Result<i128, Fail<Reason>>
    ensures gives { Gives (λ n. n) (with_path [] result) (number_in (plain value.now)) }
    ensures reason { IfErr result StopsReading }
{
    match value {
        Value::Num(number) => Ok(*number),
        _ => Err(Fail::Named(Reason::Short)),
    }
}

/// How many octets a length entry with this number tells.
pub(crate) fn told_octets(c0: i64, c1: i64, number: i128) -> i128
    requires offset { nat_abs c0 ≤ 2 ^ 32 }
    requires factor { nat_abs c1 ≤ 2 ^ 32 }
    requires number { nat_abs number ≤ 2 ^ 64 }
    ensures value { result ≡ c0 +ℤ (c1 *ℤ number) }
    ensures bound { nat_abs result ≤ 2 ^ 97 }
{
    i128::from(c0) + i128::from(c1) * number
}

/// Keeps how many octets a length entry with this value tells.
pub(crate) fn keep_told(
    reached: &mut Reached<'_>,
    c0: &i64,
    c1: &i64,
    value: &Value,
) -> Result<(), Fail<Reason>>
    requires offset { nat_abs c0.now ≤ 2 ^ 32 }
    requires factor { nat_abs c1.now ≤ 2 ^ 32 }
    requires number { (n : ℤ) → number_in (plain value.now) ≡ Ok n → nat_abs n ≤ 2 ^ 64 }
    ensures gives { Gives (λ u. reached.new.octets) (with_path [] result) (told_by c0.now c1.now (plain value.now)) }
    ensures told { OnOk result (IfSome reached.new.octets (λ n. nat_abs n ≤ 2 ^ 97)) }
    ensures fields { reached.new.fields ≡ reached.old.fields }
    ensures start { reached.new.start ≡ reached.old.start }
    ensures reason { IfErr result StopsReading }
{
    let offset = *c0;
    let factor = *c1;
    let number = number_in(value)?;
    reached.octets = Some(told_octets(offset, factor, number));
    Ok(())
}
