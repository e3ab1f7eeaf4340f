//! Numbers of 1 to 19 digits, and the time of a tick.

ghost use Rattle.std.specs.Prelude.{◌≡◌, ◌≤◌, ◌<◌, ◌+◌, ◌^◌, IfOk, IsTrue, length};
ghost use Rattle.std.specs.Char.{is_ascii_digit};
ghost use Rattle.std.specs.List.{list_all};
ghost use Rattle.eds_base.specs.Numbers.{decimal_value};
ghost use Rattle.eds_script.specs.Numbers.{are_digits as digits_form, number_of as number_in, tick_of as tick_in};

use crate::LineWhy;

/// A tick is no longer, in nanoseconds.
const LONGEST_TICK: u64 = 1_000_000_000_000_000_000;

/// The whole time ends before, in nanoseconds.
const TIME_LIMIT: u64 = 9_223_372_036_854_775_808;

fn all_digits(text: &[u8]) -> bool
    ensures { result ≡ list_all is_ascii_digit text.now }
{
    text.iter().all(|c| c.is_ascii_digit())
}

fn are_digits(text: &[u8]) -> bool
    ensures { result ≡ digits_form text.now }
{
    0 < text.len() && (text.len() <= 19 && all_digits(text))
}

// The number that digits spell.
fn digits_value(digits: &[u8]) -> u64
    requires digits { IsTrue (list_all is_ascii_digit digits.now) }
    requires few { length digits.now ≤ 19 }
    ensures { result ≡ decimal_value 0 digits.now }
{
    let mut value = 0;
    for digit in digits {
        value = 10 * value + u64::from(digit.saturating_sub(b'0'));
    }
    value
}

/// The number that 1 to 19 digits spell. None exactly where a text is anything else.
pub fn number_of(text: &str) -> Option<u64>
    ensures { result ≡ number_in text.now }
{
    let digits = text.as_bytes();
    if are_digits(digits) {
        Some(digits_value(digits))
    } else {
        None
    }
}

/// How much time a tick takes, after so much time, or why it doesn't: Number where its text isn't 1 to 19 digits, and then
/// Time where it is longer than 10^18 ns, or ends later than 2^63 - 1 ns.
#[tactic(auto, unfolding(crate::specs::Numbers::tick_of))]
pub(crate) fn tick_of(time: u64, text: &str) -> Result<u64, LineWhy>
    requires { time < 2 ^ 63 }
    ensures value { result ≡ tick_in time text.now }
    ensures in_time { IfOk result (λ n. time + n < 2 ^ 63) }
{
    let Some(tick) = number_of(text) else {
        return Err(LineWhy::Number);
    };
    if tick <= LONGEST_TICK && time + tick < TIME_LIMIT {
        Ok(tick)
    } else {
        Err(LineWhy::Time)
    }
}
