//! The types that references find, and rules that are judged at each reference.

ghost use Rattle.std.specs.Prelude.{◌≡◌, ℕ, List, option_map, IfOk};
ghost use Rattle.eds_base.specs.declared.ids.Place.{Place as place};
ghost use Rattle.eds_base.specs.declared.refusal.Refusal.{Refusal as refusal};
ghost use Rattle.eds_base.specs.Refusals.{least};
ghost use Rattle.eds_tree.specs.declared.tree.Node.{Node as node};
ghost use Rattle.eds_names.specs.LookUp.{Names};
ghost use Rattle.eds_read_types.specs.declared.reference_row.Wanted.{Wanted as wanted_type};
ghost use Rattle.eds_read_types.specs.References.{type_of as type_of_item, admits as admits_type, text_by as text_by_wanted, judged_text, at_references};

use crate::breaks::{PlaceRule, least_over};
use crate::reference_row::{Wanted, row_for};
use eds_base::{Memory, Place, Refusal};
use eds_names::Item;
use eds_tree::Tree;
use eds_type_rows::element::{attribute, is_container, is_index, is_number, name_at};
use eds_type_rows::named_trees::NamedTrees;
use std::alloc::Global;
use std::marker::PhantomData;

/// The element of the type that an item is.
pub(crate) fn type_of(sheet: &NamedTrees, item: Item) -> Option<Place>
    ensures { result ≡ type_of_item sheet.now.space.now item }
{
    match item {
        Item::Sort(id) => sheet.types.get(id.0 as usize).copied(),
        Item::Face(_) => None,
        Item::Comp(_) => None,
    }
}

/// Whether the type at a place is one that is wanted.
pub(crate) fn admits(trees: &[Tree], wanted: Wanted, found: Place) -> bool
    ensures { result ≡ admits_type trees.now wanted found }
{
    match wanted {
        Wanted::AnyType => true,
        Wanted::NumberType => is_number(trees, found),
        Wanted::ContainerType => is_container(trees, found),
        Wanted::IndexType => is_index(trees, found),
    }
}

// ---- rules that are judged at each reference

/// A rule that is judged at one reference at a time.
pub(crate) trait ReferenceRule {
    /// All that breaks it in a sheet, of which the trees and the names are given, at a place, by a text that is to find something.
    ghost breaks: { List (List node) → Names → place → List ℕ → wanted_type → List refusal };

    /// The least of them.
    fn least_at(
        alloc: Global,
        sheet: &NamedTrees,
        at: Place,
        text: &str,
        wanted: Wanted,
    ) -> Result<Option<Refusal>, Memory>
        ensures { IfOk result (λ r. r ≡ least (breaks sheet.now.trees.now sheet.now.space.now at text.now wanted)) };
}

fn least_by_text<R: ReferenceRule>(
    alloc: Global,
    sheet: &NamedTrees,
    at: Place,
    wanted: Wanted,
    text: Option<&str>,
) -> Result<Option<Refusal>, Memory>
    ensures { IfOk result (λ r. r ≡ least (judged_text (R.breaks sheet.now.trees.now sheet.now.space.now) at wanted (option_map (λ t. t.now) text.entry))) }
{
    match text {
        None => Ok(None),
        Some(text) => R::least_at(alloc, sheet, at, text, wanted),
    }
}

/// The text by which an element refers: a dimension that has a size refers to no index type.
fn text_by<'a>(wanted: Wanted, size: Option<&str>, reference: Option<&'a str>) -> Option<&'a str>
    ensures { option_map (λ t. t.now) result ≡ text_by_wanted wanted (option_map (λ t. t.now) size.entry) (option_map (λ t. t.now) reference.entry) }
{
    match wanted {
        Wanted::AnyType => reference,
        Wanted::NumberType => reference,
        Wanted::ContainerType => reference,
        Wanted::IndexType => match size {
            None => reference,
            Some(_) => None,
        },
    }
}

/// A rule that is judged at the reference of an element.
struct AtElement<R>(PhantomData<R>);

impl<R: ReferenceRule> PlaceRule for AtElement<R> {
    ghost use Rattle.eds_read_types.specs.References.{judged_at};

    ghost breaks = { λ trees names. judged_at (R.breaks trees names) trees };

    fn least_at(alloc: Global, sheet: &NamedTrees, at: Place) -> Result<Option<Refusal>, Memory> {
        match row_for(name_at(sheet.trees, at)) {
            None => Ok(None),
            Some(row) => {
                let size = attribute(sheet.trees, "size", at);
                let text = text_by(row.wanted, size, attribute(sheet.trees, row.attribute, at));
                least_by_text::<R>(alloc, sheet, at, row.wanted, text)
            }
        }
    }
}

/// The least break of a rule at all references of a sheet, that of the TYPE word among them.
pub(crate) fn least_over_references<R: ReferenceRule>(
    alloc: Global,
    sheet: &NamedTrees,
) -> Result<Option<Refusal>, Memory>
    ensures { IfOk result (λ r. r ≡ least (at_references (R.breaks sheet.now.trees.now sheet.now.space.now) sheet.now.trees.now (option_map (λ w. w.now) sheet.now.asked))) }
{
    let elements = least_over::<AtElement<R>>(alloc, sheet, sheet.elements)?;
    let at = sheet.word_place();
    let word = least_by_text::<R>(alloc, sheet, at, Wanted::AnyType, sheet.asked)?;
    Ok(Refusal::first(elements, word))
}
