//! A text and a binary of 64 KiB, which are read again and again from any bit of their first octet on, or whose check is taken.

ghost use Rattle.std.specs.Prelude.{◌≡◌, ◌+◌, ◌≤◌, length, IfOk};

use eds_base::{Fail, Memory};
use eds_bits::{BitReader, BitView, CheckKind, TextForm};
use eds_codec::{check_next, read_binary, read_text};
use std::alloc::Global;

/// How many octets are read at a time.
const SIZE: u32 = 65_536;

/// As what the octets are read, or which check is taken of them.
#[derive(Clone, Copy)]
pub(crate) enum Kind {
    Binary,
    Text,
    Check(CheckKind),
}

fn kind_of(word: &str) -> Option<Kind> {
    match word {
        "binary" => Some(Kind::Binary),
        "text" => Some(Kind::Text),
        "sum" => Some(Kind::Check(CheckKind::Checksum)),
        "xor" => Some(Kind::Check(CheckKind::Longitudinal)),
        "crc8" => Some(Kind::Check(CheckKind::Crc8)),
        "crc16" => Some(Kind::Check(CheckKind::Crc16Ccitt)),
        _ => None,
    }
}

/// What is read, how many bits stand before it, and how often.
#[derive(Clone, Copy)]
pub(crate) struct Task {
    kind: Kind,
    bits: u8,
    turns: u32,
    ghost within_octet: { bits ≤ 7 },
}

impl Task {
    /// The task of some words, which has at most so many turns.
    pub(crate) fn of(kind: &str, bits: &str, turns: &str, most: u32) -> Option<Task> {
        let kind = kind_of(kind)?;
        let bits = bits.parse::<u8>().ok()?;
        let turns = turns.parse::<u32>().ok()?;
        if bits <= 7 && 1 <= turns && turns <= most {
            Some(Task { kind, bits, turns })
        } else {
            None
        }
    }

    pub(crate) fn turns(&self) -> u32
        ensures { result ≡ self.now.turns }
    {
        self.turns
    }
}

// As many letters A as are read at a time, behind some bits; the last octet holds their last bits.
fn letters_behind(alloc: Global, bits: u8) -> Result<Vec<u8>, Memory>
    requires { bits ≤ 7 }
    ensures { IfOk result (λ octets. length octets.items ≡ SIZE + 1) }
{
    let octet = ((0x4141u16 >> bits) & 0xFF) as u8;
    Ok(vec![in alloc; octet; SIZE as usize + 1]?)
}

// How many octets there are, and the last of them, as one number.
fn weight(octets: &[u8]) -> u64 {
    let last = u64::from(*octets.last().unwrap_or(&0));
    (octets.len() as u64).wrapping_mul(256).wrapping_add(last)
}

fn binary_weight(alloc: Global, reader: &mut BitReader) -> Result<u64, Memory> {
    match read_binary(alloc, 8 * SIZE, reader) {
        Ok(octets) => Ok(weight(octets.as_slice())),
        Err(Fail::Named(_)) => Ok(0),
        Err(Fail::Memory) => Err(Memory),
    }
}

fn text_weight(alloc: Global, reader: &mut BitReader) -> Result<u64, Memory> {
    let form = TextForm {
        length: SIZE,
        fixed: true,
        ascii: false,
        stop: 0,
    };
    match read_text(alloc, form, reader) {
        Ok(text) => Ok(weight(text.as_str().as_bytes())),
        Err(Fail::Named(_)) => Ok(0),
        Err(Fail::Memory) => Err(Memory),
    }
}

// Of how many octets a turn takes the check: not each time as many, so that a compiler takes it anew.
fn octets_checked(turn: u32) -> u32
    ensures { result ≤ SIZE }
{
    SIZE - turn % 64
}

// What is read once behind some bits of the octets, of which there is one more than is read.
fn read_once(alloc: Global, kind: Kind, octets: &[u8], bits: u8, turn: u32) -> Result<u64, Memory>
    requires within_octet { bits ≤ 7 }
    requires size { length octets.now ≡ SIZE + 1 }
{
    let mut reader = BitReader::new(BitView::new(octets).after(u64::from(bits)));
    match kind {
        Kind::Binary => binary_weight(alloc, &mut reader),
        Kind::Text => text_weight(alloc, &mut reader),
        Kind::Check(kind) => Ok(check_next(kind, reader, 8 * octets_checked(turn))),
    }
}

/// What is read adds up to, modulo 2^64: each time the number of octets times 256, and the last octet; or the check.
pub(crate) fn sum_read(alloc: Global, task: Task) -> Result<u64, Memory> {
    let octets = letters_behind(alloc, task.bits)?;
    let mut sum = 0u64;
    for turn in 0..task.turns {
        let weight = read_once(alloc, task.kind, octets.as_slice(), task.bits, turn)?;
        sum = sum.wrapping_add(weight);
    }
    Ok(sum)
}
