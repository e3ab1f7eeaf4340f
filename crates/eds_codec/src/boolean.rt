//! Truth values. All bits zero mean one of the two, by the form, and every other pattern means the other.

ghost use Rattle.std.specs.Prelude.{◌≡◌, ◌+◌, ◌*◌, ◌^◌, ◌<◌, ◌≤◌, ◌↔◌, length, drop, take, IsTrue, IsNone, IfSome, OnSome, IfNone};
ghost use Rattle.std.specs.Bool.{OnTrue, OnFalse};
ghost use Rattle.eds_bits.specs.Reader.{bits_left};
ghost use Rattle.eds_bits.specs.Scalars.{IsBool};
ghost use Rattle.eds_bits.specs.Style.{any, canonical};
ghost use Rattle.eds_codec.specs.Writing.{Written};

use eds_bits::{BitReader, BoolForm, put};

/// Writes a truth value into the bits of the room from bit `at` on, as the number 0 or 1 of the form's bits. All other
/// bits stay. `at` is below 2^40. `false` where the room ends before: then nothing is written.
pub fn write_bool(form: BoolForm, b: bool, room: &mut [u8], at: u64) -> bool
    requires { at < 2 ^ 40 }
    ensures enough { IsTrue result ↔ (at + form.bits ≤ 8 * length room.old) }
    ensures written { OnTrue result (Written (IsBool canonical form b) at room.old room.new) }
    ensures few { OnFalse result (8 * length room.old < at + form.bits) }
    ensures same { OnFalse result (room.new ≡ room.old) }
{
    let number = u64::from(b == form.zero_is_false);
    put(room, at, form.bits, number)
}

/// The truth value of the form's bits, which the reader then has passed. `None` where fewer are left: the reader then
/// stays where it is.
pub fn read_bool(form: BoolForm, reader: &mut BitReader) -> Option<bool>
    ensures few { IsNone result ↔ (length (bits_left reader.old) < form.bits) }
    ensures enough { OnSome result (form.bits ≤ length (bits_left reader.old)) }
    ensures same { IfNone result (bits_left reader.new ≡ bits_left reader.old) }
    ensures value { IfSome result (λ b. IsBool any form b (take form.bits (bits_left reader.old))) }
    ensures after { OnSome result (bits_left reader.new ≡ drop form.bits (bits_left reader.old)) }
{
    let number = reader.take(form.bits)?;
    Some((number != 0) == form.zero_is_false)
}
