//! The octets of hex digits with blanks between them.

ghost use Rattle.std.specs.Prelude.{◌≡◌, IfOk};
ghost use Rattle.eds_base.specs.Reading.{Gives};
ghost use Rattle.eds_cmd.specs.Hex.{digits_of as digits_in, hex_octets as octets_in, is_blank as blank};

use eds_base::{Fail, Memory};
use std::alloc::Global;

/// A text is not hex digits in pairs.
#[derive(Clone, Copy, PartialEq, Eq)]
pub struct NotHex;

fn is_blank(c: u8) -> bool
    ensures { result ≡ blank c }
{
    c == b' ' || c == b'\t' || c == b'\r' || c == b'\n'
}

fn digits_of(alloc: Global, text: &[u8]) -> Result<Vec<u8>, Memory>
    ensures { IfOk result (λ v. v.items ≡ digits_in text.now) }
{
    Ok(
        text.iter()
            .copied()
            .filter(|c| !is_blank(*c))
            .collect(alloc)?,
    )
}

/// The octets that a text of hex digits stands for.
#[tactic(auto, unfolding(crate::specs::Hex::hex_octets))]
pub fn hex_octets(alloc: Global, text: &[u8]) -> Result<Vec<u8>, Fail<NotHex>>
    ensures { Gives (λ v. v.items) result (octets_in text.now) }
{
    let digits = digits_of(alloc, text)?;
    match hex::decode(alloc, digits.as_slice()) {
        Ok(octets) => Ok(octets),
        Err(hex::FromHexError::OutOfMemory) => Err(Fail::Memory),
        Err(_) => Err(Fail::Named(NotHex)),
    }
}
