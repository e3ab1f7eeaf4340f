//! Checks over bits: sums, and cyclic redundancy checks by tables of 256 remainders.

ghost use Rattle.std.specs.Prelude.{◌≡◌, ℕ, List, ◌*◌, ◌^◌, ◌<◌, ◌≤◌, ◌++◌, [], length, take};
ghost use Rattle.eds_bits.specs.Bits.{bits_of};
ghost use Rattle.eds_bits.specs.Reader.{bits_left, view_bits};
ghost use Rattle.eds_bits.specs.Scalars.{check_bits, check_of, check_of_octets};
ghost use Rattle.eds_bits.specs.Texts.{front_octets};
ghost use Rattle.eds_bits.specs.declared.forms.CheckKind.TheVariants.{Checksum, Longitudinal, Crc8, Crc16Ccitt};

use crate::binary::last_octet;
use crate::coding::BLOCK;
use crate::tables::{
    crc8_before_1, crc8_before_2, crc8_before_3, crc8_before_4, crc8_before_5, crc8_before_6,
    crc8_before_7, crc8_of, crc16_before_1, crc16_before_2, crc16_before_3, crc16_of,
};
use eds_bits::{BitReader, BitView, CheckKind};

/// The check of the view's first `bits` bits, filled with zeros to whole octets. So many must be there.
pub fn check_sum(kind: CheckKind, view: BitView, bits: u32) -> u64
    requires { bits ≤ length (view_bits view) }
    ensures { result ≡ check_of kind (take bits (view_bits view.entry)) }
{
    check_next(kind, BitReader::new(view), bits)
}

/// The check of the reader's next `bits` bits, filled with zeros to whole octets. So many must be left. The reader stays
/// where it is.
pub fn check_next(kind: CheckKind, reader: BitReader, bits: u32) -> u64
    requires { bits ≤ length (bits_left reader) }
    ensures { result ≡ check_of kind (take bits (bits_left reader.entry)) }
{
    let mut reader = reader;
    let whole = bits / 8;
    let check = check_ahead(kind, reader, whole);
    reader.skip(8 * u64::from(whole));
    let last = bits % 8;
    if last == 0 {
        return u64::from(check);
    }
    let octet = last_octet(&mut reader, last);
    u64::from(check_more(kind, check, &[octet]))
}

// The check of the next octets. So many must be left.
fn check_ahead(kind: CheckKind, reader: BitReader, count: u32) -> u16
    requires { 8 * count ≤ length (bits_left reader) }
    ensures { result ≡ check_of_octets kind (front_octets count (bits_left reader.entry)) }
{
    match reader.octets() {
        Some(octets) => check_octets(kind, &octets[..count as usize]),
        None => check_blocks(kind, reader, count),
    }
}

fn check_octets(kind: CheckKind, octets: &[u8]) -> u16
    ensures { result ≡ check_of kind (bits_of octets.now) }
{
    check_more(kind, check_of_none(kind), octets)
}

// The check of the next octets where no octet of the reader is one of them: block by block.
fn check_blocks(kind: CheckKind, reader: BitReader, count: u32) -> u16
    requires { 8 * count ≤ length (bits_left reader) }
    ensures { result ≡ check_of_octets kind (front_octets count (bits_left reader.entry)) }
{
    let mut ahead = reader;
    let mut check = check_of_none(kind);
    let mut done = 0;
    while done < count {
        let n = (count - done).min(BLOCK as u32);
        let mut block = [0; BLOCK];
        ahead.take_octets(&mut block[..n as usize]);
        check = check_more(kind, check, &block[..n as usize]);
        done += n;
    }
    check
}

// The check of no octets.
fn check_of_none(kind: CheckKind) -> u16
    ensures { result ≡ check_of_octets kind [] }
{
    match kind {
        CheckKind::Checksum | CheckKind::Longitudinal | CheckKind::Crc8 => 0,
        CheckKind::Crc16Ccitt => 0xFFFF,
    }
}

// The check of some octets, with more behind those whose check is known.
fn check_more(kind: CheckKind, check: u16, octets: &[u8]) -> u16
    requires { check < 2 ^ check_bits kind }
    ensures { (seen : List ℕ) → check ≡ check_of_octets kind seen → result ≡ check_of_octets kind (seen ++ octets.now) }
{
    match kind {
        CheckKind::Checksum => summed(check, octets),
        CheckKind::Longitudinal => combined(check, octets),
        CheckKind::Crc8 => crc8_more(check, octets),
        CheckKind::Crc16Ccitt => crc16_more(check, octets),
    }
}

fn summed(before: u16, octets: &[u8]) -> u16
    requires { before < 256 }
    ensures { (seen : List ℕ) → before ≡ check_of_octets Checksum seen → result ≡ check_of_octets Checksum (seen ++ octets.now) }
{
    let mut sum = before as u8;
    for octet in octets {
        sum = sum.wrapping_add(*octet);
    }
    u16::from(sum)
}

fn combined(before: u16, octets: &[u8]) -> u16
    ensures { (seen : List ℕ) → before ≡ check_of_octets Longitudinal seen → result ≡ check_of_octets Longitudinal (seen ++ octets.now) }
{
    let mut check = before;
    for octet in octets {
        check ^= u16::from(*octet);
    }
    check
}

// Eight octets at a time, and then those that are left one by one.
fn crc8_more(before: u16, octets: &[u8]) -> u16
    requires { before < 256 }
    ensures { (seen : List ℕ) → before ≡ check_of_octets Crc8 seen → result ≡ check_of_octets Crc8 (seen ++ octets.now) }
{
    let mut check = before as u8;
    let mut left = octets;
    'blocks: while left.len() >= 8 {
        check = crc8_of_eight(check, &left[..8]);
        left = &left[8..];
    }
    crc8_of_each(check, left)
}

fn crc8_of_each(before: u8, octets: &[u8]) -> u16
    ensures { (seen : List ℕ) → before ≡ check_of_octets Crc8 seen → result ≡ check_of_octets Crc8 (seen ++ octets.now) }
{
    let mut check = before;
    for octet in octets {
        check = crc8_of(check ^ *octet);
    }
    u16::from(check)
}

// What eight octets more make of a check: each adds the remainder that it has by its place, the first one together with the
// check before them.
#[inline(always)]
fn crc8_of_eight(check: u8, octets: &[u8]) -> u8
    requires { length octets.now ≡ 8 }
    ensures { (seen : List ℕ) → check ≡ check_of_octets Crc8 seen → result ≡ check_of_octets Crc8 (seen ++ octets.now) }
{
    crc8_before_7(check ^ octets[0])
        ^ (crc8_before_6(octets[1])
            ^ (crc8_before_5(octets[2])
                ^ (crc8_before_4(octets[3])
                    ^ (crc8_before_3(octets[4])
                        ^ (crc8_before_2(octets[5])
                            ^ (crc8_before_1(octets[6]) ^ crc8_of(octets[7])))))))
}

// Four octets at a time, and then those that are left one by one.
fn crc16_more(before: u16, octets: &[u8]) -> u16
    ensures { (seen : List ℕ) → before ≡ check_of_octets Crc16Ccitt seen → result ≡ check_of_octets Crc16Ccitt (seen ++ octets.now) }
{
    let mut check = before;
    let mut left = octets;
    'blocks: while left.len() >= 4 {
        check = crc16_of_four(check, &left[..4]);
        left = &left[4..];
    }
    crc16_of_each(check, left)
}

fn crc16_of_each(before: u16, octets: &[u8]) -> u16
    ensures { (seen : List ℕ) → before ≡ check_of_octets Crc16Ccitt seen → result ≡ check_of_octets Crc16Ccitt (seen ++ octets.now) }
{
    let mut check = before;
    for octet in octets {
        check = crc16_of((check >> 8) as u8 ^ *octet) ^ check << 8;
    }
    check
}

// What four octets more make of a check: each adds the remainder that it has by its place, the first two together with the
// octets of the check before them.
#[inline(always)]
fn crc16_of_four(check: u16, octets: &[u8]) -> u16
    requires { length octets.now ≡ 4 }
    ensures { (seen : List ℕ) → check ≡ check_of_octets Crc16Ccitt seen → result ≡ check_of_octets Crc16Ccitt (seen ++ octets.now) }
{
    crc16_before_3((check >> 8) as u8 ^ octets[0])
        ^ (crc16_before_2((check % 256) as u8 ^ octets[1])
            ^ (crc16_before_1(octets[2]) ^ crc16_of(octets[3])))
}
