//! The rule on elements that the profile names and does not support.

ghost use Rattle.std.specs.Prelude.{◌≡◌, option_map, map};
ghost use Rattle.eds_tree.specs.ByteOrder.{first_from, first_in_order};
ghost use Rattle.eds_tree.specs.Unsupported.{is_named_unsupported as is_named, is_zero_or_one as zero_or_one, is_other_exponent as other_exponent, is_fractional as fractional, is_other_word as other_word, has_unsupported_text as unsupported_text, spells_flag as flag_spelled, has_failed as waits_for_failure, has_fixed_value as fixed_value, is_element_unsupported as element_unsupported, word_if, unsupported_words, unsupported_word as unsupported_word_of, is_unsupported as is_unsupported_at};

use crate::attributes::has_attribute;
use crate::breaks::{ElementRule, refusal};
use crate::link::{Link, attributes_at, name_at, text_among};
use crate::order::first_of;
use crate::shape::is_among;
use crate::tree::{Node, Tree};
use eds_base::{Memory, Refusal, Rule, Text, flag_value, is_decimal_fraction, whole_number};
use std::alloc::Global;

fn is_named_unsupported(parent: &str, name: &str) -> bool
    ensures { result ≡ is_named parent.now name.now }
{
    is_among(
        &[
            "FloatDataType",
            "FloatDataEncoding",
            "SplineCalibrator",
            "Calibration",
            "ParameterActivityMap",
            "ParameterActivityMapSet",
            "AlternateSet",
            "OverArray",
            "PrecisionRange",
            "EnumeratedRange",
        ],
        name,
    ) || (name == "PolynomialCalibrator" && parent != "LengthEntry")
}

fn is_zero_or_one(number: Option<i128>) -> bool
    ensures { result ≡ zero_or_one number }
{
    number.is_some_and(|n| n == 0 || n == 1)
}

fn is_other_exponent(text: Option<&str>) -> bool
    ensures { result ≡ other_exponent (option_map (λ t. t.now) text.entry) }
{
    text.is_some_and(|text| !is_zero_or_one(whole_number(text)))
}

fn is_fractional(text: Option<&str>) -> bool
    ensures { result ≡ fractional (option_map (λ t. t.now) text.entry) }
{
    text.is_some_and(|text| is_decimal_fraction(text))
}

fn is_other_word(words: &'static [&'static str], text: Option<&str>) -> bool
    ensures { result ≡ other_word (map (λ w. w.now) words.now) (option_map (λ t. t.now) text.entry) }
{
    match text {
        None => false,
        Some(text) => !is_among(words, text),
    }
}

fn has_unsupported_text(name: &str, attributes: &[(Text, Text)]) -> bool
    ensures { result ≡ unsupported_text name.now attributes.now }
{
    if name == "Term" {
        is_other_exponent(text_among(attributes, "exponent"))
            || is_fractional(text_among(attributes, "coefficient"))
    } else if name == "ErrorControlEntry" {
        is_other_word(
            &["CHECKSUM", "CHECKSUM_LONGITUDINAL", "CRC8", "CRC16_CCITT"],
            text_among(attributes, "errorControlType"),
        )
    } else if name == "Operator" {
        is_other_word(
            &["add", "subtract", "multiply"],
            text_among(attributes, "operator"),
        )
    } else {
        false
    }
}

fn spells_flag(wanted: bool, text: Option<&str>) -> bool
    ensures { result ≡ flag_spelled wanted (option_map (λ t. t.now) text.entry) }
{
    text.is_some_and(|text| flag_value(text) == Some(wanted))
}

fn has_failed(name: &str, attributes: &[(Text, Text)]) -> bool
    ensures { result ≡ waits_for_failure name.now attributes.now }
{
    is_among(
        &[
            "OnCommandPrimitive",
            "OnParameterPrimitive",
            "OnTimer",
            "Transition",
        ],
        name,
    ) && spells_flag(true, text_among(attributes, "failed"))
}

fn has_fixed_value(name: &str, attributes: &[(Text, Text)]) -> bool
    ensures { result ≡ fixed_value name.now attributes.now }
{
    name == "GenericTypeMap" && has_attribute(attributes, "fixedValue")
}

fn is_element_unsupported(parent: &str, name: &str, attributes: &[(Text, Text)]) -> bool
    ensures { result ≡ element_unsupported parent.now name.now attributes.now }
{
    is_named_unsupported(parent, name) || has_unsupported_text(name, attributes)
}

fn first_if<'a>(found: Option<&'a str>, is: bool, word: &'a str) -> Option<&'a str>
    ensures { option_map (λ w. w.now) result ≡ first_from (option_map (λ w. w.now) found.entry) (word_if is word.now) }
{
    if is { first_of(found, word) } else { found }
}

fn first_unsupported<'a>(
    parent: &str,
    name: &'a str,
    attributes: &[(Text, Text)],
) -> Option<&'a str>
    ensures { option_map (λ w. w.now) result ≡ first_in_order (unsupported_words parent.now name.now attributes.now) }
{
    let found = first_if(None, is_element_unsupported(parent, name, attributes), name);
    let found = first_if(found, has_failed(name, attributes), "failed");
    first_if(found, has_fixed_value(name, attributes), "fixedValue")
}

/// The first in byte order of what is not supported of an element below the root.
pub(crate) fn unsupported_word(nodes: &[Node], link: Link) -> Option<&str>
    ensures { option_map (λ w. w.now) result ≡ unsupported_word_of nodes.now link }
{
    if link.node == 0 {
        return None;
    }
    first_unsupported(
        name_at(nodes, link.parent),
        name_at(nodes, link.node),
        attributes_at(nodes, link.node),
    )
}

/// Whether something of an element is not supported.
pub(crate) fn is_unsupported(nodes: &[Node], link: Link) -> bool
    ensures { result ≡ is_unsupported_at nodes.now link }
{
    unsupported_word(nodes, link).is_some()
}

/// An element is supported.
pub(crate) struct Unsupported;

impl ElementRule for Unsupported {
    ghost use Rattle.eds_tree.specs.Unsupported.{breaks_unsupported};

    ghost breaks = { breaks_unsupported };

    fn least_at(
        alloc: Global,
        file: u16,
        tree: &Tree,
        link: Link,
    ) -> Result<Option<Refusal>, Memory> {
        let nodes = tree.as_slice();
        refusal(
            alloc,
            Rule::Unsupported,
            file,
            link.node,
            unsupported_word(nodes, link),
        )
    }
}
