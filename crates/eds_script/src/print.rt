//! Octets put together, and values one by one.

ghost use Rattle.std.specs.Prelude.{◌≡◌, ◌++◌, IfOk, OnOk, codes, map, option_map, slice_get, string_bytes};
ghost use Rattle.std.specs.Option.{option_copied};
ghost use Rattle.std.specs.Str.{IsUtf8};
ghost use Rattle.eds_types.specs.Plain.{plain};
ghost use Rattle.eds_script.specs.Events.{IsTextLine};

use eds_base::{Memory, Octets};
use eds_types::Value;

/// Puts octets behind others.
pub fn push_octets(text: &mut Vec<u8>, octets: &[u8]) -> Result<(), Memory>
    ensures { OnOk result (text.new.items ≡ text.old.items ++ octets.now) }
{
    text.extend_from_slice(octets)?;
    Ok(())
}

/// A line that ends in what is given behind a space.
pub(crate) fn line_given(front: String, given: &[u8]) -> Result<Octets, Memory>
    requires { IsUtf8 given.now }
    ensures line { IfOk result (λ o. o ≡ string_bytes front ++ codes " " ++ given.now ++ codes "\n") }
    ensures text { IfOk result IsTextLine }
{
    let mut line = front.into_bytes();
    line.push(b' ')?;
    push_octets(&mut line, given)?;
    line.push(b'\n')?;
    Ok(Octets::from_vec(line))
}

/// A line.
pub(crate) fn line_of(front: String) -> Result<Octets, Memory>
    ensures line { IfOk result (λ o. o ≡ string_bytes front ++ codes "\n") }
    ensures text { IfOk result IsTextLine }
{
    let mut line = front.into_bytes();
    line.push(b'\n')?;
    Ok(Octets::from_vec(line))
}

/// The value at a place.
pub(crate) fn value_at(values: &[Value], place: usize) -> Option<&Value>
    ensures { option_map plain (option_copied result) ≡ slice_get (map plain values.now) place }
{
    values.get(place)
}
