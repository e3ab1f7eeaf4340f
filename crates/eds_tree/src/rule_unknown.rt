//! The rule that the table lists each element under its parent, and that there are no more of it than the table allows.

ghost use Rattle.std.specs.Prelude.{◌≡◌, None, option_map, map, filter, drop, IfOk};
ghost use Rattle.std.specs.List.{flat_map};
ghost use Rattle.eds_base.specs.Refusals.{least};
ghost use Rattle.eds_tree.specs.Rows.{child_of, shape_of};
ghost use Rattle.eds_tree.specs.Trees.{counted, children_of};
ghost use Rattle.eds_tree.specs.Missing.{members_of};
ghost use Rattle.eds_tree.specs.Unknown.{is_root_name as root_name, unknown_root as unknown_root_of, is_listed as listed, unlisted, surplus, too_many, is_supported as supported, unknown_children, unknown_at, lower as lower_of, lowest_from};

use crate::breaks::{ElementRule, refusal};
use crate::groups::is_member;
use crate::link::{Link, children_at, is_passed_over, name_at};
use crate::row::{Child, Mark, Shape};
use crate::rule_unsupported::is_unsupported;
use crate::shape::{is_among, shape_at};
use crate::tree::{Node, Tree};
use eds_base::{Memory, Refusal, Rule};
use std::alloc::Global;

fn is_root_name(name: &str) -> bool
    ensures { result ≡ root_name name.now }
{
    is_among(&["DataSheet", "PackageFile"], name)
}

// The name of a root that is none.
fn unknown_root(nodes: &[Node], link: Link) -> Option<&str>
    ensures { option_map (λ w. w.now) result ≡ unknown_root_of nodes.now link }
{
    let name = name_at(nodes, link.node);
    if link.node == 0 && !is_root_name(name) {
        Some(name)
    } else {
        None
    }
}

fn is_listed(rows: &'static [Child], name: &str) -> bool
    ensures { result ≡ listed (map child_of rows.now) name.now }
{
    for row in rows {
        if is_member(row.name, name) {
            return true;
        }
    }
    false
}

fn is_supported(nodes: &[Node], parent: u32, child: u32) -> bool
    ensures { result ≡ supported nodes.now parent child }
{
    !is_unsupported(
        nodes,
        Link {
            parent,
            node: child,
        },
    )
}

fn lower(found: Option<u32>, n: u32) -> Option<u32>
    ensures { result ≡ lower_of found n }
{
    match found {
        None => Some(n),
        Some(m) => { if n < m { Some(n) } else { Some(m) } }
    }
}

// The first child of an element that no row lists.
fn first_unlisted(nodes: &[Node], parent: u32, rows: &'static [Child]) -> Option<u32>
    ensures { result ≡ lowest_from None (filter (supported nodes.now parent) (unlisted nodes.now (map child_of rows.now) (children_of nodes.now parent))) }
{
    let mut found = None;
    for child in children_at(nodes, parent) {
        let name = name_at(nodes, *child);
        if !is_passed_over(name) {
            if !is_listed(rows, name) {
                if is_supported(nodes, parent, *child) {
                    found = lower(found, *child);
                }
            }
        }
    }
    found
}

// What comes after the first child of a row.
fn after_member<'a>(nodes: &[Node], row: &str, children: &'a [u32]) -> &'a [u32]
    ensures { members_of nodes.now row.now (counted nodes.now result.now) ≡ drop 1 (members_of nodes.now row.now (counted nodes.now children.now)) }
{
    let mut rest = children;
    while let [child, after @ ..] = rest {
        let name = name_at(nodes, *child);
        if !is_passed_over(name) {
            if is_member(row, name) {
                return after;
            }
        }
        rest = after;
    }
    &[]
}

// What comes after as many children of a row as there may be.
#[tactic(auto, using(crate::proofs::Lowest::drop_two))]
fn after_most<'a>(nodes: &[Node], row: &'static Child, children: &'a [u32]) -> &'a [u32]
    ensures { members_of nodes.now row.now.name.now (counted nodes.now result.now) ≡ surplus row.now.mark (members_of nodes.now row.now.name.now (counted nodes.now children.now)) }
{
    match row.mark {
        Mark::Any | Mark::AtLeastOne => &[],
        Mark::AtMostOne | Mark::One => after_member(nodes, row.name, children),
        Mark::Two => after_member(nodes, row.name, after_member(nodes, row.name, children)),
    }
}

// The first supported child of a row among some, and a number that is found already.
fn first_supported(
    nodes: &[Node],
    parent: u32,
    before: Option<u32>,
    row: &str,
    children: &[u32],
) -> Option<u32>
    ensures { result ≡ lowest_from before (filter (supported nodes.now parent) (members_of nodes.now row.now (counted nodes.now children.now))) }
{
    let mut found = before;
    for child in children {
        let name = name_at(nodes, *child);
        if !is_passed_over(name) {
            if is_member(row, name) {
                if is_supported(nodes, parent, *child) {
                    found = lower(found, *child);
                }
            }
        }
    }
    found
}

fn first_of_row(
    nodes: &[Node],
    parent: u32,
    before: Option<u32>,
    row: &'static Child,
) -> Option<u32>
    ensures { result ≡ lowest_from before (filter (supported nodes.now parent) (too_many nodes.now (children_of nodes.now parent) (child_of row.now))) }
{
    let children = after_most(nodes, row, children_at(nodes, parent));
    first_supported(nodes, parent, before, row.name, children)
}

// The first child that is one too many, and a number that is found already.
fn first_too_many(
    nodes: &[Node],
    parent: u32,
    before: Option<u32>,
    rows: &'static [Child],
) -> Option<u32>
    ensures { result ≡ lowest_from before (flat_map (λ row. filter (supported nodes.now parent) (too_many nodes.now (children_of nodes.now parent) row)) (map child_of rows.now)) }
{
    let mut found = before;
    for row in rows {
        found = first_of_row(nodes, parent, found, row);
    }
    found
}

fn first_unknown(nodes: &[Node], link: Link, shape: Option<&'static Shape>) -> Option<u32>
    ensures { result ≡ lowest_from None (unknown_children nodes.now link (option_map (λ s. shape_of s.now) shape.entry)) }
{
    let shape = shape?;
    let found = first_unlisted(nodes, link.node, shape.children);
    first_too_many(nodes, link.node, found, shape.children)
}

// The refusal of a child, where there is one.
fn unknown_child(
    alloc: Global,
    file: u16,
    nodes: &[Node],
    child: Option<u32>,
) -> Result<Option<Refusal>, Memory>
    ensures { IfOk result (λ r. r ≡ option_map (unknown_at file nodes.now) child) }
{
    match child {
        None => Ok(None),
        Some(child) => refusal(
            alloc,
            Rule::UnknownElement,
            file,
            child,
            Some(name_at(nodes, child)),
        ),
    }
}

/// The table lists each element under its parent, and there are no more of it than the table allows.
pub(crate) struct UnknownElement;

impl ElementRule for UnknownElement {
    ghost use Rattle.eds_tree.specs.Missing.{members_of};
    ghost use Rattle.eds_tree.specs.Unknown.{breaks_unknown};

    ghost breaks = { breaks_unknown };

    fn least_at(
        alloc: Global,
        file: u16,
        tree: &Tree,
        link: Link,
    ) -> Result<Option<Refusal>, Memory> {
        let nodes = tree.as_slice();
        let root = refusal(
            alloc,
            Rule::UnknownElement,
            file,
            link.node,
            unknown_root(nodes, link),
        )?;
        let child = unknown_child(
            alloc,
            file,
            nodes,
            first_unknown(nodes, link, shape_at(nodes, link)),
        )?;
        Ok(Refusal::first(root, child))
    }
}
