//! The rule that the type of an error control holds its check.

ghost use Rattle.std.specs.Prelude.{◌≡◌, IfOk};
ghost use Rattle.eds_bits.specs.Scalars.{check_bits as bits_of_check};
ghost use Rattle.eds_read_types.specs.ErrorControl.{is_unsigned as is_unsigned_encoding, fits_check as fits_check_of, holds_check as holds_check_of, holds_check_at as holds_check_in_place, is_held as is_held_at};

use crate::breaks::{PlaceRule, refusal_where};
use eds_base::{Memory, Place, Refusal, Rule};
use eds_bits::{CheckKind, Encoding, IntForm};
use eds_tree::Tree;
use eds_type_rows::check::check_at;
use eds_type_rows::element::{child_named, is_element, tree_at};
use eds_type_rows::form::int_form_of;
use eds_type_rows::named_trees::NamedTrees;
use eds_type_rows::part::entry_id;
use eds_type_rows::scalar_kind::is_integer;
use std::alloc::Global;

// ---- the type of a check

/// The bits of a check.
fn check_bits(check: CheckKind) -> u32
    ensures { result ≡ bits_of_check check }
{
    match check {
        CheckKind::Checksum => 8,
        CheckKind::Longitudinal => 8,
        CheckKind::Crc8 => 8,
        CheckKind::Crc16Ccitt => 16,
    }
}

fn is_unsigned(encoding: Encoding) -> bool
    ensures { result ≡ is_unsigned_encoding encoding }
{
    match encoding {
        Encoding::Unsigned => true,
        Encoding::TwosComplement => false,
        Encoding::SignMagnitude => false,
        Encoding::OnesComplement => false,
        Encoding::PackedBcd => false,
        Encoding::Bcd => false,
    }
}

/// Whether a form is unsigned and has the bits of a check.
fn fits_check(check: CheckKind, form: Option<IntForm>) -> bool
    ensures { result ≡ fits_check_of check form }
{
    form.is_some_and(|form| is_unsigned(form.encoding) && form.bits == check_bits(check))
}

/// Whether an element is an integer type of such a form without a range.
fn holds_check(check: CheckKind, tree: &Tree, node: u32) -> bool
    ensures { result ≡ holds_check_of check tree.now node }
{
    is_integer(tree, node)
        && child_named(tree, node, "Range").is_none()
        && fits_check(check, int_form_of(tree, node))
}

fn holds_check_at(trees: &[Tree], check: CheckKind, found: Option<Place>) -> bool
    ensures { result ≡ holds_check_in_place trees.now check found }
{
    match found {
        None => false,
        Some(at) => tree_at(trees, at.file).is_some_and(|tree| holds_check(check, tree, at.node)),
    }
}

// ---- the rule

/// Whether the type of the error control at a place holds its check.
fn is_held(alloc: Global, sheet: &NamedTrees, at: Place) -> Result<bool, Memory>
    ensures { IfOk result (λ b. b ≡ is_held_at sheet.now.trees.now sheet.now.space.now at) }
{
    let id = entry_id(alloc, sheet, at)?;
    let found = sheet.types.get(id.0 as usize).copied();
    Ok(holds_check_at(sheet.trees, check_at(sheet.trees, at), found))
}

/// The type of an error control holds its check.
pub(crate) struct ErrorControl;

impl PlaceRule for ErrorControl {
    ghost use Rattle.eds_read_types.specs.ErrorControl.{error_control_at};

    ghost breaks = { error_control_at };

    fn least_at(alloc: Global, sheet: &NamedTrees, at: Place) -> Result<Option<Refusal>, Memory> {
        if !is_element(sheet.trees, "ErrorControlEntry", at) {
            return Ok(None);
        }
        let held = is_held(alloc, sheet, at)?;
        Ok(refusal_where(!held, Rule::ErrorControl, at))
    }
}
