//! The scales of length entries.

ghost use Rattle.std.specs.Prelude.{◌≡◌, pos, option_map, IfOk, if◌then◌else◌, codes};
ghost use Rattle.std.specs.List.{flat_map};
ghost use Rattle.eds_type_rows.specs.Places.{held, attribute as attribute_of};
ghost use Rattle.eds_type_rows.specs.Calibrators.{whole_or_zero as whole_or_zero_of, exponent_at as exponent_in, coefficient_at as coefficient_in, calibrators_at as calibrators_in, terms_at as terms_in, coefficient_of as coefficient_among, has_exponent as has_exponent_in, repeats_exponent as repeats_exponent_in, or_plain, is_scale as is_scale_of, has_scale as has_scale_in, c0_or_plain, c1_or_plain};

use crate::element::{attribute, push_held};
use eds_base::{Memory, Place};
use eds_tree::{Tree, whole_number};
use std::alloc::Global;

/// A container has `offset + factor * r` octets where its length entry has the raw number `r`.
#[derive(Clone, Copy)]
pub(crate) struct Scale {
    pub(crate) offset: i128,
    pub(crate) factor: i128,
}

// ---- terms

/// A number, 0 where the text is none.
fn whole_or_zero(text: Option<&str>) -> i128
    ensures { result ≡ whole_or_zero_of (option_map (λ t. t.now) text.entry) }
{
    text.and_then(|text| whole_number(text)).unwrap_or(0)
}

/// The number that an attribute of an element is.
fn number_named(trees: &[Tree], name: &str, at: Place) -> i128
    ensures { result ≡ whole_or_zero_of (attribute_of trees.now name.now at) }
{
    whole_or_zero(attribute(trees, name, at))
}

fn exponent_at(trees: &[Tree], at: Place) -> i128
    ensures { result ≡ exponent_in trees.now at }
{
    number_named(trees, "exponent", at)
}

fn coefficient_at(trees: &[Tree], at: Place) -> i128
    ensures { result ≡ coefficient_in trees.now at }
{
    number_named(trees, "coefficient", at)
}

/// The calibrators of a length entry.
fn calibrators_at(alloc: Global, trees: &[Tree], at: Place) -> Result<Vec<Place>, Memory>
    ensures { IfOk result (λ p. p.items ≡ calibrators_in trees.now at) }
{
    let mut calibrators = Vec::new(alloc);
    push_held(&mut calibrators, trees, "PolynomialCalibrator", at)?;
    Ok(calibrators)
}

/// Their terms, in document order.
fn terms_of(alloc: Global, trees: &[Tree], calibrators: &[Place]) -> Result<Vec<Place>, Memory>
    ensures { IfOk result (λ p. p.items ≡ flat_map (held trees.now (codes "Term")) calibrators.now) }
{
    let mut terms = Vec::new(alloc);
    for calibrator in calibrators {
        push_held(&mut terms, trees, "Term", *calibrator)?;
    }
    Ok(terms)
}

/// The coefficient of an exponent, 0 where no term has it.
fn coefficient_of(trees: &[Tree], exponent: i128, terms: &[Place]) -> i128
    ensures { result ≡ coefficient_among trees.now exponent terms.now }
{
    let mut rest = terms;
    while let [term, after @ ..] = rest {
        if exponent_at(trees, *term) == exponent {
            return coefficient_at(trees, *term);
        }
        rest = after;
    }
    0
}

/// Whether some term has an exponent.
fn has_exponent(trees: &[Tree], exponent: i128, terms: &[Place]) -> bool
    ensures { result ≡ has_exponent_in trees.now exponent terms.now }
{
    terms
        .iter()
        .any(|term| exponent_at(trees, *term) == exponent)
}

/// Whether an exponent stands twice.
fn repeats_exponent(trees: &[Tree], terms: &[Place]) -> bool
    ensures { result ≡ repeats_exponent_in trees.now terms.now }
{
    let mut rest = terms;
    while let [term, after @ ..] = rest {
        if has_exponent(trees, exponent_at(trees, *term), after) {
            return true;
        }
        rest = after;
    }
    false
}

// ---- the scale

/// What the calibrators of a length entry with such terms say; none of them is the plain scale.
fn said(trees: &[Tree], calibrators: &[Place], terms: &[Place]) -> Scale
    ensures offset { result.offset ≡ or_plain (pos 0) (coefficient_among trees.now (pos 0) terms.now) calibrators.now }
    ensures factor { result.factor ≡ or_plain (pos 1) (coefficient_among trees.now (pos 1) terms.now) calibrators.now }
{
    match calibrators {
        [] => Scale {
            offset: 0,
            factor: 1,
        },
        [_, ..] => Scale {
            offset: coefficient_of(trees, 0, terms),
            factor: coefficient_of(trees, 1, terms),
        },
    }
}

fn is_scale(scale: Scale) -> bool
    ensures { result ≡ is_scale_of scale.offset scale.factor }
{
    1 <= scale.factor
        && scale.factor <= 4_294_967_296
        && -4_294_967_296 <= scale.offset
        && scale.offset <= 4_294_967_296
}

/// Whether the length entry at a place has a scale, and no exponent stands twice.
pub fn has_scale(alloc: Global, trees: &[Tree], at: Place) -> Result<bool, Memory>
    ensures { IfOk result (λ b. b ≡ has_scale_in trees.now at) }
{
    let calibrators = calibrators_at(alloc, trees, at)?;
    let terms = terms_of(alloc, trees, &calibrators)?;
    Ok(is_scale(said(trees, &calibrators, &terms)) && !repeats_exponent(trees, &terms))
}

fn or_plain_scale(scale: Scale) -> (i64, i64)
    ensures offset { result.0 ≡ (if is_scale_of scale.offset scale.factor then scale.offset else pos 0) }
    ensures factor { result.1 ≡ (if is_scale_of scale.offset scale.factor then scale.factor else pos 1) }
{
    if is_scale(scale) {
        (scale.offset as i64, scale.factor as i64)
    } else {
        (0, 1)
    }
}

/// The scale, or 0 and 1 where it has none.
pub(crate) fn scale_at(alloc: Global, trees: &[Tree], at: Place) -> Result<(i64, i64), Memory>
    ensures offset { IfOk result (λ c. c.0 ≡ c0_or_plain trees.now at) }
    ensures factor { IfOk result (λ c. c.1 ≡ c1_or_plain trees.now at) }
{
    let calibrators = calibrators_at(alloc, trees, at)?;
    let terms = terms_of(alloc, trees, &calibrators)?;
    Ok(or_plain_scale(said(trees, &calibrators, &terms)))
}
