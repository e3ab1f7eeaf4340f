//! The parts of containers as elements.

ghost use Rattle.std.specs.Prelude.{◌≡◌, ◌++◌, filter, option_map, IfOk, OnOk, is_some};
ghost use Rattle.std.specs.List.{flat_map, list_any};
ghost use Rattle.eds_type_rows.specs.Places.{children};
ghost use Rattle.eds_type_rows.specs.Entries.{sort_at as sort_in, is_part as is_part_in, is_list as is_list_in, parts_held, entries_at as entries_in, trailers_at as trailers_in, own_parts_at as own_parts_in, is_part_list as is_part_list_in, parts_at as parts_in_order, type_named as type_named_in, has_name_by, has_name as has_name_in, named_among as named_in};

use crate::element::{attribute, children_at, is_element, name_at, push_held};
use crate::part_sort::{PartSort, part_sort_of};
use eds_base::{Memory, Place};
use eds_tree::Tree;
use std::alloc::Global;

/// The sort of part that the element at a place is.
pub(crate) fn sort_at(trees: &[Tree], at: Place) -> Option<PartSort>
    ensures { result ≡ sort_in trees.now at }
{
    part_sort_of(name_at(trees, at))
}

fn is_part(trees: &[Tree], at: Place) -> bool
    ensures { result ≡ is_part_in trees.now at }
{
    sort_at(trees, at).is_some()
}

/// Puts the parts last that a list of entries holds.
fn push_parts(parts: &mut Vec<Place>, trees: &[Tree], list: Place) -> Result<(), Memory>
    ensures { OnOk result (parts.new.items ≡ parts.old.items ++ parts_held trees.now list) }
{
    for node in children_at(trees, list) {
        let child = Place {
            file: list.file,
            node: *node,
        };
        if is_part(trees, child) {
            parts.push(child)?;
        }
    }
    Ok(())
}

/// The parts that some lists of entries hold.
fn parts_in(alloc: Global, trees: &[Tree], lists: &[Place]) -> Result<Vec<Place>, Memory>
    ensures { IfOk result (λ p. p.items ≡ flat_map (parts_held trees.now) lists.now) }
{
    let mut parts = Vec::new(alloc);
    for list in lists {
        push_parts(&mut parts, trees, *list)?;
    }
    Ok(parts)
}

/// The entries of a container, in document order.
pub(crate) fn entries_at(alloc: Global, trees: &[Tree], at: Place) -> Result<Vec<Place>, Memory>
    ensures { IfOk result (λ p. p.items ≡ entries_in trees.now at) }
{
    let mut lists = Vec::new(alloc);
    push_held(&mut lists, trees, "EntryList", at)?;
    parts_in(alloc, trees, &lists)
}

/// The trailers of a container, in document order.
pub(crate) fn trailers_at(alloc: Global, trees: &[Tree], at: Place) -> Result<Vec<Place>, Memory>
    ensures { IfOk result (λ p. p.items ≡ trailers_in trees.now at) }
{
    let mut lists = Vec::new(alloc);
    push_held(&mut lists, trees, "TrailerEntryList", at)?;
    parts_in(alloc, trees, &lists)
}

/// All parts of a container: its entries, and then its trailers.
pub fn own_parts_at(alloc: Global, trees: &[Tree], at: Place) -> Result<Vec<Place>, Memory>
    ensures { IfOk result (λ p. p.items ≡ own_parts_in trees.now at) }
{
    let mut parts = entries_at(alloc, trees, at)?;
    let trailers = trailers_at(alloc, trees, at)?;
    for trailer in &trailers {
        parts.push(*trailer)?;
    }
    Ok(parts)
}

fn is_part_list(trees: &[Tree], at: Place) -> bool
    ensures { result ≡ is_part_list_in trees.now at }
{
    is_element(trees, "EntryList", at) || is_element(trees, "TrailerEntryList", at)
}

/// The lists of entries and of trailers of a container, in document order.
fn part_lists(alloc: Global, trees: &[Tree], at: Place) -> Result<Vec<Place>, Memory>
    ensures { IfOk result (λ p. p.items ≡ filter (is_part_list_in trees.now) (children trees.now at)) }
{
    let mut lists = Vec::new(alloc);
    for node in children_at(trees, at) {
        let child = Place {
            file: at.file,
            node: *node,
        };
        if is_part_list(trees, child) {
            lists.push(child)?;
        }
    }
    Ok(lists)
}

/// All parts of a container, in document order.
pub fn parts_at(alloc: Global, trees: &[Tree], at: Place) -> Result<Vec<Place>, Memory>
    ensures { IfOk result (λ p. p.items ≡ parts_in_order trees.now at) }
{
    let lists = part_lists(alloc, trees, at)?;
    parts_in(alloc, trees, &lists)
}

/// The reference to its type that a part has.
pub(crate) fn type_named(trees: &[Tree], at: Place) -> Option<&str>
    ensures { option_map (λ t. t.now) result ≡ type_named_in trees.now at }
{
    attribute(trees, "type", at)
}

fn is_list(trees: &[Tree], at: Place) -> bool
    ensures { result ≡ is_list_in trees.now at }
{
    match sort_at(trees, at) {
        None => false,
        Some(PartSort::Entry) => false,
        Some(PartSort::FixedValue) => false,
        Some(PartSort::Padding) => false,
        Some(PartSort::List) => true,
        Some(PartSort::Length) => false,
        Some(PartSort::ErrorControl) => false,
    }
}

/// Whether one of some parts is a list.
pub(crate) fn has_list(trees: &[Tree], parts: &[Place]) -> bool
    ensures { result ≡ list_any (is_list_in trees.now) parts.now }
{
    parts.iter().any(|at| is_list(trees, *at))
}

// ---- names

fn is_given(name: Option<&str>) -> bool
    ensures { result ≡ is_some name.entry }
{
    name.is_some()
}

/// Whether a part has a name: padding has none, and a fixed value may do without.
pub(crate) fn has_name(trees: &[Tree], at: Place) -> bool
    ensures { result ≡ has_name_in trees.now at }
{
    match sort_at(trees, at) {
        None => is_given(attribute(trees, "name", at)),
        Some(PartSort::Entry) => true,
        Some(PartSort::FixedValue) => is_given(attribute(trees, "name", at)),
        Some(PartSort::Padding) => false,
        Some(PartSort::List) => true,
        Some(PartSort::Length) => true,
        Some(PartSort::ErrorControl) => true,
    }
}

/// Those of some parts that have a name.
pub fn named_among(alloc: Global, trees: &[Tree], parts: &[Place]) -> Result<Vec<Place>, Memory>
    ensures { IfOk result (λ p. p.items ≡ named_in trees.now parts.now) }
{
    let mut named = Vec::new(alloc);
    for at in parts {
        if has_name(trees, *at) {
            named.push(*at)?;
        }
    }
    Ok(named)
}
