//! The ranges of integer types and sub-ranges.

ghost use Rattle.std.specs.Prelude.{◌≡◌, option_map};
ghost use Rattle.eds_type_rows.specs.Ranges.{inclusive_end, exclusive_end, includes_least, excludes_least, includes_greatest, excludes_greatest, lower_end, upper_end, range_by, range_in, range_of};

use crate::element::{child_named, number_at};
use eds_domains::{End, NO_RANGE, Range};
use eds_tree::Tree;

fn inclusive_end(number: Option<i128>) -> End
    ensures { result ≡ inclusive_end number }
{
    match number {
        None => End::Open,
        Some(n) => End::Inclusive(n),
    }
}

fn exclusive_end(number: Option<i128>) -> End
    ensures { result ≡ exclusive_end number }
{
    match number {
        None => End::Open,
        Some(n) => End::Exclusive(n),
    }
}

/// Whether a range of this type has its least number.
fn includes_least(range_type: &str) -> bool
    ensures { result ≡ includes_least range_type.now }
{
    range_type == "inclusiveMinInclusiveMax"
        || range_type == "inclusiveMinExclusiveMax"
        || range_type == "atLeast"
}

/// Whether it has the numbers above its least number, and not that one.
fn excludes_least(range_type: &str) -> bool
    ensures { result ≡ excludes_least range_type.now }
{
    range_type == "exclusiveMinInclusiveMax"
        || range_type == "exclusiveMinExclusiveMax"
        || range_type == "greaterThan"
}

/// Whether it has its greatest number.
fn includes_greatest(range_type: &str) -> bool
    ensures { result ≡ includes_greatest range_type.now }
{
    range_type == "inclusiveMinInclusiveMax"
        || range_type == "exclusiveMinInclusiveMax"
        || range_type == "atMost"
}

/// Whether it has the numbers below its greatest number, and not that one.
fn excludes_greatest(range_type: &str) -> bool
    ensures { result ≡ excludes_greatest range_type.now }
{
    range_type == "inclusiveMinExclusiveMax"
        || range_type == "exclusiveMinExclusiveMax"
        || range_type == "lessThan"
}

/// The lower end by the type of a range.
fn lower_end(range_type: &str, least: Option<i128>) -> End
    ensures { result ≡ lower_end range_type.now least }
{
    if includes_least(range_type) {
        inclusive_end(least)
    } else if excludes_least(range_type) {
        exclusive_end(least)
    } else {
        End::Open
    }
}

/// The upper end by the type of a range.
fn upper_end(range_type: &str, greatest: Option<i128>) -> End
    ensures { result ≡ upper_end range_type.now greatest }
{
    if includes_greatest(range_type) {
        inclusive_end(greatest)
    } else if excludes_greatest(range_type) {
        exclusive_end(greatest)
    } else {
        End::Open
    }
}

fn range_by(tree: &Tree, bounds: u32, range_type: Option<&str>) -> Range
    ensures { result ≡ range_by tree.now bounds (option_map (λ w. w.now) range_type.entry) }
{
    match range_type {
        None => NO_RANGE,
        Some(range_type) => Range {
            low: lower_end(range_type, number_at(tree, bounds, "min")),
            high: upper_end(range_type, number_at(tree, bounds, "max")),
        },
    }
}

/// The range of an element that holds bounds: the `Range` of a type, or a range constraint. Where it holds none, any number
/// is admitted.
pub fn range_in(tree: &Tree, node: u32) -> Range
    ensures { result ≡ range_in tree.now node }
{
    match child_named(tree, node, "MinMaxRange") {
        None => NO_RANGE,
        Some(bounds) => range_by(tree, bounds, tree.attribute_at(bounds, "rangeType")),
    }
}

/// The range of an integer type or sub-range, which admits any number where the type has none.
pub fn range_of(tree: &Tree, node: u32) -> Range
    ensures { result ≡ range_of tree.now node }
{
    match child_named(tree, node, "Range") {
        None => NO_RANGE,
        Some(range) => range_in(tree, range),
    }
}
