//! The labels and values of enumerated types.

ghost use Rattle.std.specs.Prelude.{◌≡◌, [], ◌∷◌, ◌++◌, ℤ, List, ℕ, map, not, codes, IfOk, OnOk, string_bytes};
ghost use Rattle.std.specs.List.{list_all, list_any};
ghost use Rattle.std.specs.Ordering.{int_eq};
ghost use Rattle.eds_base.specs.Reading.{same};
ghost use Rattle.eds_type_rows.specs.Held.{named_among};
ghost use Rattle.eds_type_rows.specs.Listings.{entry_at, listing_of, label, value, all_differ, has_number, is_entry, is_listing};

use crate::element::{child_named, number_at};
use eds_base::{Memory, Text};
use eds_bits::{IntForm, bounds_of};
use eds_tree::Tree;
use eds_types::Listing;
use indexmap::IndexSet;
use std::alloc::Global;

/// The label and the value of an enumeration.
fn entry_at(alloc: Global, tree: &Tree, node: u32) -> Result<(Text, i128), Memory>
    ensures { IfOk result (λ e. e ≡ entry_at tree.now node) }
{
    let label = match tree.attribute_at(node, "label") {
        Some(label) => Text::of(alloc, label)?,
        None => Text::new(alloc),
    };
    let value = number_at(tree, node, "value").unwrap_or(0);
    Ok((label, value))
}

/// Puts the label and value of an element last, where it is an enumeration.
fn push_enumeration(
    alloc: Global,
    listing: &mut Listing,
    tree: &Tree,
    node: u32,
) -> Result<(), Memory>
    ensures { OnOk result (listing.new ≡ listing.old ++ map (entry_at tree.now) (named_among tree.now (codes "Enumeration") (node ∷ []))) }
{
    if tree.name_at(node) == "Enumeration" {
        let entry = entry_at(alloc, tree, node)?;
        listing.push(entry)?;
    }
    Ok(())
}

/// The labels of an enumerated type with their values (CCSDS 876.0-B, enumerated data types), in document order. Fails only where
/// no memory is left.
pub fn listing_of(alloc: Global, tree: &Tree, node: u32) -> Result<Listing, Memory>
    ensures { IfOk result (λ l. l ≡ listing_of tree.now node) }
{
    let mut listing = Listing::new(alloc);
    let Some(list) = child_named(tree, node, "EnumerationList") else {
        return Ok(listing);
    };
    for child in tree.children_at(list) {
        push_enumeration(alloc, &mut listing, tree, *child)?;
    }
    Ok(listing)
}

/// Whether a form has a number.
fn has_number(form: IntForm, n: i128) -> bool
    ensures { result ≡ has_number form n }
{
    let bounds = bounds_of(form);
    bounds.least <= n && n <= bounds.greatest
}

/// Whether no label is empty, and a form has all values.
fn are_entries(form: IntForm, entries: &[(Text, i128)]) -> bool
    ensures { result ≡ list_all (is_entry form) entries.now }
{
    let mut rest = entries;
    while let [(label, value), after @ ..] = rest {
        if label.as_str().is_empty() || !has_number(form, *value) {
            return false;
        }
        rest = after;
    }
    true
}

/// Puts a label among those before it, and answers whether it is a new one.
fn add_label(alloc: Global, before: &mut IndexSet<String>, label: &str) -> Result<bool, Memory>
    ensures fresh { IfOk result (λ b. b ≡ not (list_any (same label.now) (map string_bytes before.old.keys))) }
    ensures before { OnOk result ((q : List ℕ) → list_any (same q) (map string_bytes before.new.keys) ≡ list_any (same q) (label.now ∷ map string_bytes before.old.keys)) }
{
    if before.contains(label) {
        return Ok(false);
    }
    let label = String::from_str(alloc, label)?;
    let _added = before.insert(label)?;
    Ok(true)
}

/// Whether no label stands twice.
fn labels_differ(alloc: Global, entries: &[(Text, i128)]) -> Result<bool, Memory>
    ensures { IfOk result (λ b. b ≡ all_differ same (map label entries.now)) }
{
    let mut before = IndexSet::new(alloc);
    for entry in entries {
        let fresh = add_label(alloc, &mut before, entry.0.as_str())?;
        if !fresh {
            return Ok(false);
        }
    }
    Ok(true)
}

/// Puts a value among those before it, and answers whether it is a new one.
pub(crate) fn add_value(before: &mut IndexSet<i128>, value: i128) -> Result<bool, Memory>
    ensures fresh { IfOk result (λ b. b ≡ not (list_any (int_eq value) before.old.keys)) }
    ensures before { OnOk result ((q : ℤ) → list_any (int_eq q) before.new.keys ≡ list_any (int_eq q) (value ∷ before.old.keys)) }
{
    if before.contains(&value) {
        return Ok(false);
    }
    let _added = before.insert(value)?;
    Ok(true)
}

/// Whether no value stands twice.
fn values_differ(alloc: Global, entries: &[(Text, i128)]) -> Result<bool, Memory>
    ensures { IfOk result (λ b. b ≡ all_differ int_eq (map value entries.now)) }
{
    let mut before = IndexSet::new(alloc);
    for entry in entries {
        let fresh = add_value(&mut before, entry.1)?;
        if !fresh {
            return Ok(false);
        }
    }
    Ok(true)
}

/// Whether an enumerated type of a form may list these: there is an enumeration, no label or value stands twice, no label is
/// empty, and the form has all values.
pub fn is_listing(alloc: Global, form: IntForm, entries: &[(Text, i128)]) -> Result<bool, Memory>
    ensures { IfOk result (λ b. b ≡ is_listing form entries.now) }
{
    if entries.is_empty() || !are_entries(form, entries) {
        return Ok(false);
    }
    if !labels_differ(alloc, entries)? {
        return Ok(false);
    }
    values_differ(alloc, entries)
}
