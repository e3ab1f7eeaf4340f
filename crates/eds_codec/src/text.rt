//! Texts: fixed ones, and others, which end with their termination octet.

ghost use Rattle.std.specs.Prelude.{◌≡◌, ℕ, List, ◌+◌, ◌-◌, ◌*◌, ◌^◌, ◌<◌, ◌≤◌, ◌↔◌, ◌++◌, length, take, drop, replicate, true, false, IsTrue, IfOk, IfErr, OnOk, OnErr, Err};
ghost use Rattle.eds_base.specs.declared.fail.Fail.TheVariants.{Named};
ghost use Rattle.eds_bits.specs.Bits.{Bits, bits_of, with_piece};
ghost use Rattle.eds_bits.specs.Reader.{bits_left};
ghost use Rattle.eds_bits.specs.Scalars.{IsText, IsCoded, before_stop};
ghost use Rattle.eds_bits.specs.Style.{any, canonical};
ghost use Rattle.eds_bits.specs.Texts.{IsTextOf, text_bits, spelled_size, front_octets};
ghost use Rattle.eds_codec.specs.Reading.{BeginsWith, TextFails, IfNamed};
ghost use Rattle.eds_codec.specs.Writing.{Written, TextRefused};

use crate::coding::BLOCK;
use crate::scan::{scanned, text_size};
use eds_base::{Fail, Text};
use eds_bits::{BitReader, TextForm, put_octets};
use std::alloc::Global;

/// Why a text is not written.
#[derive(Clone, Copy, PartialEq, Eq)]
pub enum TextFail {
    /// It is outside the encoding, or the termination octet stands in it.
    BadText,
    /// It has more octets than the form admits.
    TooLong,
    /// The room ends before it does.
    Room,
}

/// Why no text is read.
#[derive(Clone, Copy, PartialEq, Eq)]
pub enum TextFault {
    /// The bits end before it does.
    Short,
    /// Its octets are outside the encoding.
    BadText,
    /// Its termination octet is missing.
    Unterminated,
}

/// Writes a text into the room from bit `at` on, and what follows it up to the form's length as termination octets; or
/// one termination octet, where the text is not fixed. All other bits stay. `at` is below 2^40. The answer is how many
/// bits were written. After a refusal the room is unchanged; of several reasons the first counts.
pub fn write_text(form: TextForm, text: &str, room: &mut [u8], at: u64) -> Result<u32, TextFail>
    requires { at < 2 ^ 40 }
    ensures size { IfOk result (λ n. n ≡ text_bits form text.now) }
    ensures written { OnOk result (Written (IsText canonical form text.now) at room.old room.new) }
    ensures refused { IfErr result (TextRefused form text.now at room.old) }
    ensures refuses { (why : TextFail) → TextRefused form text.now at room.old why → result ≡ Err why }
    ensures same { OnErr result (room.new ≡ room.old) }
{
    if !is_text_of(form, text) {
        return Err(TextFail::BadText);
    }
    let octets = text.as_bytes();
    if octets.len() > form.length as usize {
        return Err(TextFail::TooLong);
    }
    let size = bits_of_text(form, octets.len() as u32);
    if (room.len() as u64) < (at + u64::from(size)).div_ceil(8) {
        return Err(TextFail::Room);
    }
    let first = (at / 8) as usize;
    write_octets(octets, form.stop, size / 8, &mut room[first..], at % 8);
    Ok(size)
}

/// The text at the front of the reader's bits, which the reader then has passed with what fills it up or ends it. After a
/// refusal, Memory among them, the reader stays where it is.
pub fn read_text(
    alloc: Global,
    form: TextForm,
    reader: &mut BitReader,
) -> Result<Text, Fail<TextFault>>
    ensures text { IfOk result (λ text. BeginsWith (IsText any form text) (bits_left reader.old) (bits_left reader.new)) }
    ensures fault { IfErr result (IfNamed (TextFails form (bits_left reader.old))) }
    ensures fails { (why : TextFault) → TextFails form (bits_left reader.old) why → result ≡ Err (Named why) }
    ensures same { OnErr result (bits_left reader.new ≡ bits_left reader.old) }
{
    let size = match size_of_text(form, *reader) {
        Ok(size) => size,
        Err(fault) => return Err(Fail::Named(fault)),
    };
    let mut octets = Vec::new(alloc);
    octets.resize(size as usize, 0)?;
    let mut ahead = *reader;
    ahead.take_octets(octets.as_mut_slice());
    let Ok(text) = String::from_utf8(octets) else {
        return Err(Fail::Named(TextFault::BadText));
    };
    reader.skip(u64::from(bits_of_text(form, size)));
    Ok(Text::from_string(text))
}

/// Moves the reader on as `read_text` does, and fails as it does.
pub fn skip_text(form: TextForm, reader: &mut BitReader) -> Result<(), TextFault>
    ensures text { OnOk result ((text : List ℕ) × BeginsWith (IsText any form text) (bits_left reader.old) (bits_left reader.new)) }
    ensures fault { IfErr result (TextFails form (bits_left reader.old)) }
    ensures fails { (why : TextFault) → TextFails form (bits_left reader.old) why → result ≡ Err why }
    ensures same { OnErr result (bits_left reader.new ≡ bits_left reader.old) }
{
    let size = size_of_text(form, *reader)?;
    reader.skip(u64::from(bits_of_text(form, size)));
    Ok(())
}

// How many octets the text at the front of the reader's bits has.
fn size_of_text(form: TextForm, reader: BitReader) -> Result<u32, TextFault>
    ensures text { IfOk result (λ n. IsText any form (front_octets n (bits_left reader.entry)) (take (text_bits form (front_octets n (bits_left reader.entry))) (bits_left reader.entry))) }
    ensures size { IfOk result (λ n. length (front_octets n (bits_left reader.entry)) ≡ n) }
    ensures within { IfOk result (λ n. text_bits form (front_octets n (bits_left reader.entry)) ≤ length (bits_left reader.entry)) }
    ensures most { IfOk result (λ n. n ≤ form.length) }
    ensures fault { IfErr result (TextFails form (bits_left reader.entry)) }
    ensures fails { (why : TextFault) → TextFails form (bits_left reader.entry) why → result ≡ Err why }
{
    if form.fixed {
        fixed_size(form, reader)
    } else {
        open_size(form, reader)
    }
}

fn fixed_size(form: TextForm, reader: BitReader) -> Result<u32, TextFault>
    requires { form.fixed ≡ true }
    ensures text { IfOk result (λ n. IsText any form (front_octets n (bits_left reader.entry)) (take (text_bits form (front_octets n (bits_left reader.entry))) (bits_left reader.entry))) }
    ensures size { IfOk result (λ n. length (front_octets n (bits_left reader.entry)) ≡ n) }
    ensures within { IfOk result (λ n. text_bits form (front_octets n (bits_left reader.entry)) ≤ length (bits_left reader.entry)) }
    ensures most { IfOk result (λ n. n ≤ form.length) }
    ensures fault { IfErr result (TextFails form (bits_left reader.entry)) }
    ensures fails { (why : TextFault) → TextFails form (bits_left reader.entry) why → result ≡ Err why }
{
    if reader.left() / 8 < u64::from(form.length) {
        return Err(TextFault::Short);
    }
    let scan = scanned(form, reader, form.length);
    if scan.coded {
        Ok(scan.size)
    } else {
        Err(TextFault::BadText)
    }
}

fn open_size(form: TextForm, reader: BitReader) -> Result<u32, TextFault>
    requires { form.fixed ≡ false }
    ensures text { IfOk result (λ n. IsText any form (front_octets n (bits_left reader.entry)) (take (text_bits form (front_octets n (bits_left reader.entry))) (bits_left reader.entry))) }
    ensures size { IfOk result (λ n. length (front_octets n (bits_left reader.entry)) ≡ n) }
    ensures within { IfOk result (λ n. text_bits form (front_octets n (bits_left reader.entry)) ≤ length (bits_left reader.entry)) }
    ensures most { IfOk result (λ n. n ≤ form.length) }
    ensures fault { IfErr result (TextFails form (bits_left reader.entry)) }
    ensures fails { (why : TextFault) → TextFails form (bits_left reader.entry) why → result ≡ Err why }
{
    let most = (reader.left() / 8).min(u64::from(form.length) + 1) as u32;
    let scan = scanned(form, reader, most);
    if scan.size < most {
        if scan.coded {
            Ok(scan.size)
        } else {
            Err(TextFault::BadText)
        }
    } else if most <= form.length {
        Err(TextFault::Short)
    } else {
        Err(TextFault::Unterminated)
    }
}

// How many bits spell a text of `size` octets.
fn bits_of_text(form: TextForm, size: u32) -> u32
    requires { size ≤ 65536 }
    ensures { result ≡ 8 * spelled_size form.fixed form.length size }
{
    8 * if form.fixed { form.length } else { size + 1 }
}

fn is_text_of(form: TextForm, text: &str) -> bool
    ensures { IsTrue result ↔ IsTextOf form text.now }
{
    if !is_coded(form.ascii, text) {
        return false;
    }
    text_size(form.stop, text.as_bytes()) == text.len()
}

fn is_coded(ascii: bool, text: &str) -> bool
    ensures { IsTrue result ↔ IsCoded ascii text.now }
{
    if ascii { text.is_ascii() } else { true }
}

// Writes the octets, and copies of one octet behind them up to `count` octets.
fn write_octets(octets: &[u8], stop: u8, count: u32, room: &mut [u8], at: u64)
    requires near { at < 8 }
    requires some { length octets.now ≤ count }
    requires few { count ≤ 65537 }
    requires within { at + 8 * count ≤ 8 * length room.old }
    ensures { bits_of room.new ≡ with_piece at (bits_of (octets.now ++ replicate (count - length octets.now) stop)) (bits_of room.old) }
{
    put_octets(room, at, octets);
    let size = octets.len() as u32;
    put_copies(stop, count - size, room, at + 8 * u64::from(size));
}

// Writes copies of one octet.
fn put_copies(octet: u8, count: u32, room: &mut [u8], at: u64)
    requires few { count ≤ 65537 }
    requires near { at ≤ 2 ^ 20 }
    requires within { at + 8 * count ≤ 8 * length room.old }
    ensures { bits_of room.new ≡ with_piece at (bits_of (replicate count octet)) (bits_of room.old) }
{
    let block = [octet; BLOCK];
    let mut done = 0;
    while done < count {
        let n = (count - done).min(BLOCK as u32);
        put_octets(room, at + 8 * u64::from(done), &block[..n as usize]);
        done += n;
    }
}
