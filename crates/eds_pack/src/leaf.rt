//! Writing values in which nothing is nested, and padding.

ghost use Rattle.std.specs.Prelude.{◌≡◌, ◌+◌, ◌≤◌, length, IsTrue};
ghost use Rattle.eds_bits.specs.Bits.{Bits};
ghost use Rattle.eds_bits.specs.IntForms.{IsNumber};
ghost use Rattle.eds_bits.specs.Style.{canonical, is_zero};
ghost use Rattle.eds_types.specs.Plain.{plain};
ghost use Rattle.eds_pack.specs.Putting.{HasRoom, Writes, NumberSpells, LabelSpells, TruthSpells, TextSpells, BitsSpell};

use eds_bits::{BoolForm, IntForm, TextForm, encode_int, put};
use eds_codec::{write_binary, write_bool, write_text};
use eds_types::{Listing, Value, number_of_label};

// Writes a number of a form.
fn put_number(form: IntForm, number: i128, room: &mut [u8], at: u64) -> u64
    requires { HasRoom (IsNumber canonical form number) at room.old }
    ensures { Writes (IsNumber canonical form number) at room.old room.new result }
{
    let Some(raw) = encode_int(form, number) else {
        unreachable!()
    };
    put(room, at, form.bits, raw);
    at + u64::from(form.bits)
}

/// Writes a number into the bits of the room from bit `at` on. Says where it ends.
pub(crate) fn write_number(form: IntForm, value: &Value, room: &mut [u8], at: u64) -> u64
    requires { HasRoom (NumberSpells form (plain value.now)) at room.old }
    ensures { Writes (NumberSpells form (plain value.now)) at room.old room.new result }
{
    match value {
        Value::Num(number) => put_number(form, *number, room, at),
        _ => unreachable!(),
    }
}

/// Writes the number of a label.
pub(crate) fn write_label(
    form: IntForm,
    listing: &Listing,
    value: &Value,
    room: &mut [u8],
    at: u64,
) -> u64
    requires { HasRoom (LabelSpells form listing.now (plain value.now)) at room.old }
    ensures { Writes (LabelSpells form listing.now (plain value.now)) at room.old room.new result }
{
    match value {
        Value::Label(label) => match number_of_label(listing.as_slice(), label.as_str()) {
            Some(number) => put_number(form, number, room, at),
            None => unreachable!(),
        },
        _ => unreachable!(),
    }
}

/// Writes a truth value.
pub(crate) fn write_truth(form: BoolForm, value: &Value, room: &mut [u8], at: u64) -> u64
    requires { HasRoom (TruthSpells form (plain value.now)) at room.old }
    ensures { Writes (TruthSpells form (plain value.now)) at room.old room.new result }
{
    match value {
        Value::Bool(truth) => {
            write_bool(form, *truth, room, at);
            at + u64::from(form.bits)
        }
        _ => unreachable!(),
    }
}

/// Writes a text.
pub(crate) fn write_string(form: TextForm, value: &Value, room: &mut [u8], at: u64) -> u64
    requires { HasRoom (TextSpells form (plain value.now)) at room.old }
    ensures { Writes (TextSpells form (plain value.now)) at room.old room.new result }
{
    match value {
        Value::Text(text) => match write_text(form, text.as_str(), room, at) {
            Ok(size) => at + u64::from(size),
            Err(_) => unreachable!(),
        },
        _ => unreachable!(),
    }
}

/// Writes a binary.
pub(crate) fn write_bits(value: &Value, room: &mut [u8], at: u64) -> u64
    requires { HasRoom (BitsSpell (plain value.now)) at room.old }
    ensures { Writes (BitsSpell (plain value.now)) at room.old room.new result }
{
    match value {
        Value::Bits(bits, octets) => {
            write_binary(*bits, octets.as_slice(), room, at);
            at + u64::from(*bits)
        }
        _ => unreachable!(),
    }
}

/// Writes so many zeros.
pub(crate) fn write_padding(bits: u32, room: &mut [u8], at: u64) -> u64
    requires few { bits ≤ 524288 }
    requires room { HasRoom (λ b. (length b ≡ bits) × IsTrue (is_zero b)) at room.old }
    ensures { Writes (λ b. (length b ≡ bits) × IsTrue (is_zero b)) at room.old room.new result }
{
    let mut done = 0;
    while done < bits {
        let more = (bits - done).min(64);
        put(room, at + u64::from(done), more, 0);
        done += more;
    }
    at + u64::from(bits)
}
