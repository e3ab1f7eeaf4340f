//! Truth values, texts and binaries.

use crate::slow::Spelling;
use crate::slow::checks::octet_of;
use eds_bits::{BoolForm, TextForm};

/// Whether the bits spell the truth value in a form.
pub(crate) fn is_truth(spelling: Spelling, form: BoolForm, truth: bool, bits: &[bool]) -> bool {
    if bits.len() != form.bits as usize {
        return false;
    }
    let ones = bits.iter().filter(|bit| **bit).count();
    let is_one = ones == 1 && bits.last() == Some(&true);
    if truth == form.zero_is_false {
        ones > 0 && (spelling == Spelling::Any || is_one)
    } else {
        ones == 0
    }
}

/// Whether the bits spell the text, given by its octets.
pub(crate) fn is_text(spelling: Spelling, form: &TextForm, text: &[u8], bits: &[bool]) -> bool {
    if bits.len() % 8 != 0 || text.len() > form.length as usize || text.contains(&form.stop) {
        return false;
    }
    if form.ascii && text.iter().any(|octet| *octet > 127) {
        return false;
    }
    let octets = bits.len() / 8;
    let fits = if form.fixed {
        octets == form.length as usize
    } else {
        octets == text.len() + 1
    };
    fits && begins_with(text, bits) && ends_after(spelling, form.stop, text.len(), bits)
}

// The first octets are those of the text.
fn begins_with(text: &[u8], bits: &[bool]) -> bool {
    let mut octets = bits.chunks(8);
    for wanted in text {
        let Some(octet) = octets.next() else {
            return false;
        };
        if octet_of(octet) != u32::from(*wanted) {
            return false;
        }
    }
    true
}

// The first octet after the text is the termination octet, if there is one at all; and in the canonical spelling all are.
fn ends_after(spelling: Spelling, stop: u8, length: usize, bits: &[bool]) -> bool {
    for (place, octet) in bits.chunks(8).enumerate() {
        let counts = place == length || (place > length && spelling == Spelling::Canonical);
        if counts && octet_of(octet) != u32::from(stop) {
            return false;
        }
    }
    true
}

/// Whether the octets hold the bits, the last filled with zeros.
pub(crate) fn are_octets_of(octets: &[u8], bits: &[bool]) -> bool {
    octets.len() == bits.chunks(8).count() && begins_with(octets, bits)
}
