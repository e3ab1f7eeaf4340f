//! The rule that an element has each attribute and each child that it needs.

ghost use Rattle.std.specs.Prelude.{◌≡◌, map, length, filter, not, nat_lt, option_map};
ghost use Rattle.eds_tree.specs.ByteOrder.{first_from, first_in_order};
ghost use Rattle.eds_tree.specs.Rows.{child_of, shape_of};
ghost use Rattle.eds_tree.specs.Missing.{range_ends as ends_of, asked_for as also_needed, missing_attributes, fewest as fewest_of, members_of, lacks as lacks_row, child_name, missing_children, missing_in};
ghost use Rattle.eds_tree.specs.Attributes.{has_attribute as has};
ghost use Rattle.eds_tree.specs.Trees.{children_of};

use crate::attributes::{Lacks, first_failing, has_attribute};
use crate::breaks::{ElementRule, refusal};
use crate::groups::is_member;
use crate::link::{Link, attributes_at, children_at, is_passed_over, name_at, text_among};
use crate::order::first_of;
use crate::row::{Child, Mark, Shape};
use crate::shape::{is_among, shape_at};
use crate::tree::{Node, Tree};
use eds_base::{Memory, Refusal, Rule, Text};
use std::alloc::Global;

// Which ends of a range a type of range asks for.
fn range_ends(word: Option<&str>) -> &'static [&'static str]
    ensures { map (λ w. w.now) result.now ≡ ends_of (option_map (λ w. w.now) word.entry) }
{
    match word {
        None => &[],
        Some(word) => {
            if is_among(
                &[
                    "inclusiveMinInclusiveMax",
                    "inclusiveMinExclusiveMax",
                    "exclusiveMinInclusiveMax",
                    "exclusiveMinExclusiveMax",
                ],
                word,
            ) {
                &["max", "min"]
            } else if is_among(&["atLeast", "greaterThan"], word) {
                &["min"]
            } else if is_among(&["atMost", "lessThan"], word) {
                &["max"]
            } else {
                &[]
            }
        }
    }
}

// What an element needs by what else it has.
fn asked_for(name: &str, attributes: &[(Text, Text)]) -> &'static [&'static str]
    ensures { map (λ w. w.now) result.now ≡ also_needed name.now attributes.now }
{
    if name == "MinMaxRange" {
        range_ends(text_among(attributes, "rangeType"))
    } else if name == "Dimension" {
        if has_attribute(attributes, "indexTypeRef") {
            &[]
        } else {
            &["size"]
        }
    } else {
        &[]
    }
}

// The first of some names that is missing, and of one that is found already.
fn first_asked(
    before: Option<&'static str>,
    names: &'static [&'static str],
    attributes: &[(Text, Text)],
) -> Option<&'static str>
    ensures { option_map (λ w. w.now) result ≡ first_from (option_map (λ w. w.now) before.entry) (filter (λ a. not (has attributes.now a)) (map (λ w. w.now) names.now)) }
{
    let mut found = before;
    for name in names {
        if !has_attribute(attributes, name) {
            found = first_of(found, name);
        }
    }
    found
}

// The first attribute that an element lacks.
fn missing_attribute(
    name: &str,
    shape: &'static Shape,
    attributes: &[(Text, Text)],
) -> Option<&'static str>
    ensures { option_map (λ w. w.now) result ≡ first_in_order (missing_attributes name.now (shape_of shape.now) attributes.now) }
{
    first_asked(
        first_failing::<Lacks>(None, shape.required, attributes),
        asked_for(name, attributes),
        attributes,
    )
}

fn fewest(mark: Mark) -> u8
    ensures { result ≡ fewest_of mark }
{
    match mark {
        Mark::Any | Mark::AtMostOne => 0,
        Mark::One | Mark::AtLeastOne => 1,
        Mark::Two => 2,
    }
}

// Whether an element has fewer children of a row than a number.
fn has_fewer(nodes: &[Node], parent: u32, row: &str, than: u8) -> bool
    ensures { result ≡ nat_lt (length (members_of nodes.now row.now (children_of nodes.now parent))) than }
{
    let mut left = than;
    for child in children_at(nodes, parent) {
        if left == 0 {
            return false;
        }
        let name = name_at(nodes, *child);
        if !is_passed_over(name) {
            if is_member(row, name) {
                left -= 1;
            }
        }
    }
    left > 0
}

fn lacks(nodes: &[Node], parent: u32, row: &'static Child) -> bool
    ensures { result ≡ lacks_row nodes.now (children_of nodes.now parent) (child_of row.now) }
{
    has_fewer(nodes, parent, row.name, fewest(row.mark))
}

// The first child that an element lacks, a group by its name.
fn first_lacking(nodes: &[Node], parent: u32, rows: &'static [Child]) -> Option<&'static str>
    ensures { option_map (λ w. w.now) result ≡ first_in_order (map child_name (filter (lacks_row nodes.now (children_of nodes.now parent)) (map child_of rows.now))) }
{
    let mut found = None;
    for row in rows {
        if lacks(nodes, parent, row) {
            found = first_of(found, row.name);
        }
    }
    found
}

fn missing(nodes: &[Node], link: Link, shape: Option<&'static Shape>) -> Option<&'static str>
    ensures { option_map (λ w. w.now) result ≡ missing_in nodes.now link (option_map (λ s. shape_of s.now) shape.entry) }
{
    let shape = shape?;
    missing_attribute(
        name_at(nodes, link.node),
        shape,
        attributes_at(nodes, link.node),
    )
    .or_else(|| first_lacking(nodes, link.node, shape.children))
}

/// An element has each attribute and each child that it needs.
pub(crate) struct MissingAttribute;

impl ElementRule for MissingAttribute {
    ghost use Rattle.eds_tree.specs.Missing.{breaks_missing};

    ghost breaks = { breaks_missing };

    fn least_at(
        alloc: Global,
        file: u16,
        tree: &Tree,
        link: Link,
    ) -> Result<Option<Refusal>, Memory> {
        let nodes = tree.as_slice();
        let word = missing(nodes, link, shape_at(nodes, link));
        refusal(alloc, Rule::MissingAttribute, file, link.node, word)
    }
}
