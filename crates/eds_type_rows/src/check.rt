//! The checks of error controls by their words.

ghost use Rattle.std.specs.Prelude.{◌≡◌};
ghost use Rattle.eds_type_rows.specs.Checks.{check_named as check_of_word, check_at as check_in};

use crate::element::attribute;
use eds_base::Place;
use eds_bits::CheckKind;
use eds_tree::Tree;

/// The check that a word names.
fn check_named(word: &str) -> Option<CheckKind>
    ensures { result ≡ check_of_word word.now }
{
    if word == "CHECKSUM" {
        Some(CheckKind::Checksum)
    } else if word == "CHECKSUM_LONGITUDINAL" {
        Some(CheckKind::Longitudinal)
    } else if word == "CRC8" {
        Some(CheckKind::Crc8)
    } else if word == "CRC16_CCITT" {
        Some(CheckKind::Crc16Ccitt)
    } else {
        None
    }
}

/// The check of an error control, the sum where it names none.
pub fn check_at(trees: &[Tree], at: Place) -> CheckKind
    ensures { result ≡ check_in trees.now at }
{
    match attribute(trees, "errorControlType", at) {
        None => CheckKind::Checksum,
        Some(word) => check_named(word).unwrap_or(CheckKind::Checksum),
    }
}
