//! What a container says of the values of its parts.

ghost use Rattle.std.specs.Prelude.{◌≡◌, [], IfErr, pos};
ghost use Rattle.eds_base.specs.declared.fault.Reason.TheVariants.{FixedDiffers, CheckDiffers};
ghost use Rattle.eds_types.specs.Plain.{plain, num};
ghost use Rattle.eds_types.specs.Reading.{expected};
ghost use Rattle.eds_unpack.specs.Answers.{IsOfReading};
ghost use Rattle.eds_unpack.specs.Readers.{Gives, with_path, StopsReading};

use eds_base::{Fail, Reason};
use eds_types::Value;

/// The value is the one that is wanted, or the reason is told.
fn expect(wanted: &Value, reason: Reason, value: &Value) -> Result<(), Fail<Reason>>
    requires { IsOfReading reason }
    ensures gives { Gives (λ u. u) (with_path [] result) (expected (plain wanted.now) reason (plain value.now)) }
    ensures reason { IfErr result StopsReading }
{
    if value.is(wanted) {
        Ok(())
    } else {
        Err(Fail::Named(reason))
    }
}

/// A fixed value is the one that was read.
pub(crate) fn expect_value(fixed: &Value, value: &Value) -> Result<(), Fail<Reason>>
    ensures gives { Gives (λ u. u) (with_path [] result) (expected (plain fixed.now) FixedDiffers (plain value.now)) }
    ensures reason { IfErr result StopsReading }
{
    expect(fixed, Reason::FixedDiffers, value)
}

/// The number of an error control is the one that was read.
pub(crate) fn expect_check(check: u64, value: &Value) -> Result<(), Fail<Reason>>
    ensures gives { Gives (λ u. u) (with_path [] result) (expected (num (pos check)) CheckDiffers (plain value.now)) }
    ensures reason { IfErr result StopsReading }
{
    expect(&Value::Num(i128::from(check)), Reason::CheckDiffers, value)
}
