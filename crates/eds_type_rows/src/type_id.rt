//! The types that references find, by their numbers.

ghost use Rattle.std.specs.Prelude.{◌≡◌, option_map, IfOk};
ghost use Rattle.eds_type_rows.specs.ReadTypes.{id_of, id_found as id_found_by, word_type as word_type_of};

use crate::named_trees::NamedTrees;
use eds_base::{Memory, Place, TypeId};
use eds_names::Item;
use std::alloc::Global;

/// The number of the type that an item is.
fn id_of(item: Item) -> Option<TypeId>
    ensures { result ≡ id_of item }
{
    match item {
        Item::Sort(id) => Some(id),
        Item::Face(_) => None,
        Item::Comp(_) => None,
    }
}

/// The number of the type that a reference from a place finds, where there is a reference.
pub fn id_found(
    alloc: Global,
    sheet: &NamedTrees,
    at: Place,
    reference: Option<&str>,
) -> Result<Option<TypeId>, Memory>
    ensures { IfOk result (λ id. id ≡ id_found_by sheet.now.space.now at (option_map (λ r. r.now) reference.entry)) }
{
    let Some(text) = reference else {
        return Ok(None);
    };
    match sheet.space.look_up(alloc, at, text)? {
        None => Ok(None),
        Some(item) => Ok(id_of(item)),
    }
}

/// The number of the type that the TYPE word names.
pub fn word_type(alloc: Global, sheet: &NamedTrees) -> Result<Option<TypeId>, Memory>
    ensures { IfOk result (λ id. id ≡ word_type_of sheet.now.trees.now sheet.now.space.now (option_map (λ w. w.now) sheet.now.asked)) }
{
    id_found(alloc, sheet, sheet.word_place(), sheet.asked)
}
