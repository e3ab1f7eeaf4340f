//! The search for the end of a text.

ghost use Rattle.std.specs.Prelude.{◌≡◌, ℕ, ◌+◌, ◌-◌, ◌*◌, ◌^◌, ◌<◌, ◌≤◌, ◌↔◌, ◌++◌, length, take, drop, replicate, IsTrue};
ghost use Rattle.eds_bits.specs.Bits.{bits_of, octets_of};
ghost use Rattle.eds_bits.specs.Reader.{bits_left};
ghost use Rattle.eds_bits.specs.Scalars.{IsCoded, before_stop};
ghost use Rattle.eds_bits.specs.Texts.{front_octets};

use crate::coding::{BLOCK, Coding};
use eds_bits::{BitReader, TextForm};
use memchr::memchr;

/// The octets before the first termination octet.
#[derive(Clone, Copy)]
pub(crate) struct Scan {
    /// How many they are. Where there is no termination octet, all that were searched.
    pub(crate) size: u32,
    /// Whether they are of the form's encoding.
    pub(crate) coded: bool,
}

/// Searches the next `most` octets. So many must be left.
pub(crate) fn scanned(form: TextForm, reader: BitReader, most: u32) -> Scan
    requires enough { 8 * most ≤ length (bits_left reader) }
    ensures size { result.size ≡ length (before_stop form.stop (front_octets most (bits_left reader.entry))) }
    ensures coded { IsTrue result.coded ↔ IsCoded form.ascii (before_stop form.stop (front_octets most (bits_left reader.entry))) }
{
    match reader.octets() {
        Some(octets) => scanned_octets(form, &octets[..most as usize]),
        None => scanned_blocks(form, reader, most),
    }
}

fn scanned_octets(form: TextForm, octets: &[u8]) -> Scan
    requires { length octets.now < 2 ^ 32 }
    ensures size { result.size ≡ length (before_stop form.stop (octets_of (bits_of octets.now))) }
    ensures coded { IsTrue result.coded ↔ IsCoded form.ascii (before_stop form.stop (octets_of (bits_of octets.now))) }
{
    let size = text_size(form.stop, octets);
    Scan {
        size: size as u32,
        coded: is_coded(form.ascii, &octets[..size]),
    }
}

/// How many octets stand before the first termination octet.
pub(crate) fn text_size(stop: u8, octets: &[u8]) -> usize
    ensures value { result ≡ length (before_stop stop octets.now) }
    ensures bound { result ≤ length octets.now }
{
    memchr(stop, octets).unwrap_or(octets.len())
}

fn is_coded(ascii: bool, text: &[u8]) -> bool
    ensures { IsTrue result ↔ IsCoded ascii text.now }
{
    if ascii {
        text.is_ascii()
    } else {
        simdutf8::is_utf8(text)
    }
}

// Where no octet of the reader is one of those that it reads: block by block.
fn scanned_blocks(form: TextForm, reader: BitReader, most: u32) -> Scan
    requires { 8 * most ≤ length (bits_left reader) }
    ensures size { result.size ≡ length (before_stop form.stop (front_octets most (bits_left reader.entry))) }
    ensures coded { IsTrue result.coded ↔ IsCoded form.ascii (before_stop form.stop (front_octets most (bits_left reader.entry))) }
{
    let mut ahead = reader;
    let mut coding = Coding::new(form.ascii);
    let mut size = 0;
    let mut left = most;
    while 0 < left {
        let n = left.min(BLOCK as u32);
        let block = next_block(&mut ahead, form.stop, n);
        coding = coding.step(block.octets);
        size += block.size;
        left = left_after(left, n, block.size);
    }
    Scan {
        size,
        coded: coding.finish(),
    }
}

// How many octets are still to be searched, after n of them, of which `size` stand before a termination octet.
fn left_after(left: u32, n: u32, size: u32) -> u32
    requires { n ≤ left }
    ensures stopped { size < n → result ≡ 0 }
    ensures goes_on { n ≤ size → result + n ≡ left }
{
    if size < n { 0 } else { left - n }
}

// The next octets of a text, up to the first termination octet among them, and zeros behind them.
#[derive(Clone, Copy)]
struct Block {
    octets: [u8; BLOCK],
    size: u32,
}

// Takes the next n octets.
fn next_block(reader: &mut BitReader, stop: u8, n: u32) -> Block
    requires enough { 8 * n ≤ length (bits_left reader.old) }
    requires few { n ≤ 64 }
    ensures size { result.size ≡ length (before_stop stop (front_octets n (bits_left reader.old))) }
    ensures octets { result.octets ≡ before_stop stop (front_octets n (bits_left reader.old)) ++ replicate (64 - result.size) 0 }
    ensures after { bits_left reader.new ≡ drop (8 * n) (bits_left reader.old) }
{
    let mut taken = [0; BLOCK];
    reader.take_octets(&mut taken[..n as usize]);
    let size = text_size(stop, &taken[..n as usize]);
    let mut octets = [0; BLOCK];
    octets[..size].copy_from_slice(&taken[..size]);
    Block {
        octets,
        size: size as u32,
    }
}
