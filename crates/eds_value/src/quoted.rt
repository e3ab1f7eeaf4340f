//! Strings of JSON, put last onto a text.

ghost use Rattle.std.specs.Prelude.{◌≡◌, ◌++◌, IfOk, OnOk, string_bytes};
ghost use Rattle.std.specs.Bool.{OnTrue};
ghost use Rattle.json.specs.Print.{escape, quoted};
ghost use Rattle.json.specs.Run.{is_stop as is_stop_of};
ghost use Rattle.serde_json.specs.Written.{comma_if};

use crate::json_of_value::writer;
use eds_base::Memory;
use std::alloc::{AllocError, Global};

const T: bool = true;

const F: bool = false;

// Which octets don't stand in a string of JSON as they are: those below 32, the quotation mark, and the backslash. A look into a
// table is half of what three comparisons cost, and labels are looked through for each line of a recording.
static STOPS: [bool; 256] = [
    T, T, T, T, T, T, T, T, T, T, T, T, T, T, T, T, T, T, T, T, T, T, T, T, T, T, T, T, T, T, T, T,
    F, F, T, F, F, F, F, F, F, F, F, F, F, F, F, F, F, F, F, F, F, F, F, F, F, F, F, F, F, F, F, F,
    F, F, F, F, F, F, F, F, F, F, F, F, F, F, F, F, F, F, F, F, F, F, F, F, F, F, F, F, T, F, F, F,
    F, F, F, F, F, F, F, F, F, F, F, F, F, F, F, F, F, F, F, F, F, F, F, F, F, F, F, F, F, F, F, F,
    F, F, F, F, F, F, F, F, F, F, F, F, F, F, F, F, F, F, F, F, F, F, F, F, F, F, F, F, F, F, F, F,
    F, F, F, F, F, F, F, F, F, F, F, F, F, F, F, F, F, F, F, F, F, F, F, F, F, F, F, F, F, F, F, F,
    F, F, F, F, F, F, F, F, F, F, F, F, F, F, F, F, F, F, F, F, F, F, F, F, F, F, F, F, F, F, F, F,
    F, F, F, F, F, F, F, F, F, F, F, F, F, F, F, F, F, F, F, F, F, F, F, F, F, F, F, F, F, F, F, F,
];

// Whether an octet doesn't stand in a string of JSON as it is.
#[inline(always)]
fn is_stop(octet: u8) -> bool
    ensures { result ≡ is_stop_of octet }
{
    STOPS[octet as usize]
}

/// Whether a text stands in a string of JSON as it is.
#[inline(always)]
pub(crate) fn is_plain(text: &[u8]) -> bool
    ensures { OnTrue result (escape text.now ≡ text.now) }
{
    for octet in text {
        if is_stop(*octet) {
            return false;
        }
    }
    true
}

/// A text as a string, by a writer.
pub(crate) fn escaped(alloc: Global, text: &str) -> Result<String, Memory>
    ensures { IfOk result (λ s. string_bytes s ≡ quoted text.now) }
{
    let mut out = writer(alloc)?;
    out.string(text)?;
    match String::from_utf8(out.into_inner()) {
        Ok(string) => Ok(string),
        Err(_) => unreachable!(),
    }
}

/// Puts a text last as a string.
pub(crate) fn push_quoted(alloc: Global, text: &str, report: &mut String) -> Result<(), Memory>
    ensures { OnOk result (string_bytes report.new ≡ string_bytes report.old ++ quoted text.now) }
{
    if is_plain(text.as_bytes()) {
        report.push_str("\"")?;
        report.push_str(text)?;
        report.push_str("\"")?;
        Ok(())
    } else {
        Ok(report.push_str(escaped(alloc, text)?.as_str())?)
    }
}

/// Puts a comma last, where something stands before.
pub(crate) fn push_comma(later: bool, report: &mut String) -> Result<(), AllocError>
    ensures { OnOk result (string_bytes report.new ≡ string_bytes report.old ++ comma_if later) }
{
    if later { report.push_str(",") } else { Ok(()) }
}
