//! The rule that an enumerated type has labels and values.

ghost use Rattle.std.specs.Prelude.{◌≡◌, IfOk};
ghost use Rattle.eds_base.specs.Refusals.{least};
ghost use Rattle.eds_read_types.specs.BadEnumeration.{misses_listing, enumeration_breaks};

use crate::breaks::{PlaceRule, refusal_where};
use eds_base::{Memory, Place, Refusal, Rule};
use eds_tree::Tree;
use eds_type_rows::element::tree_at;
use eds_type_rows::form::int_form_of;
use eds_type_rows::listing::{is_listing, listing_of};
use eds_type_rows::named_trees::NamedTrees;
use eds_type_rows::scalar_kind::is_enumerated;
use std::alloc::Global;

/// Whether an enumerated type lists what it may not.
fn misses_listing(alloc: Global, tree: &Tree, node: u32) -> Result<bool, Memory>
    ensures { IfOk result (λ b. b ≡ misses_listing tree.now node) }
{
    if !is_enumerated(tree, node) {
        return Ok(false);
    }
    match int_form_of(tree, node) {
        None => Ok(false),
        Some(form) => {
            let listing = listing_of(alloc, tree, node)?;
            let good = is_listing(alloc, form, listing.as_slice())?;
            Ok(!good)
        }
    }
}

/// Whether an enumerated type has no enumeration, a label or value twice, an empty label, or a value that its form lacks. The
/// refusal is `BadEnumeration` at the type; a type without a form has none.
pub(crate) fn bad_enumeration(
    alloc: Global,
    tree: &Tree,
    at: Place,
) -> Result<Option<Refusal>, Memory>
    ensures { IfOk result (λ r. r ≡ least (enumeration_breaks tree.now at)) }
{
    let misses = misses_listing(alloc, tree, at.node)?;
    Ok(refusal_where(misses, Rule::BadEnumeration, at))
}

/// An enumerated type has labels and values.
pub(crate) struct BadEnumeration;

impl PlaceRule for BadEnumeration {
    ghost use Rattle.eds_read_types.specs.BadEnumeration.{enumeration_breaks};
    ghost use Rattle.eds_read_types.specs.Breaks.{breaks_at};

    ghost breaks = { breaks_at enumeration_breaks };

    fn least_at(alloc: Global, sheet: &NamedTrees, at: Place) -> Result<Option<Refusal>, Memory> {
        match tree_at(sheet.trees, at.file) {
            None => Ok(None),
            Some(tree) => bad_enumeration(alloc, tree, at),
        }
    }
}
