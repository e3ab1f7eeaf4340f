//! The rule that an integer, enumerated or boolean type and a string have a form, and a binary has a size.

ghost use Rattle.std.specs.Prelude.{◌≡◌};
ghost use Rattle.eds_base.specs.Refusals.{least};
ghost use Rattle.eds_read_types.specs.BadEncoding.{encoding_breaks};

use crate::breaks::{PlaceRule, refusal_where};
use eds_base::{Memory, Place, Refusal, Rule};
use eds_tree::Tree;
use eds_type_rows::element::tree_at;
use eds_type_rows::lacking_form::lacks_form;
use eds_type_rows::named_trees::NamedTrees;
use std::alloc::Global;

/// Whether the form of a type is none of the profile: the size of an integer, enumerated or boolean type is outside 1 to 64 bits,
/// has no whole decimal digits or, in little-endian order, no whole octets; a string that is not fixed has no termination octet, or
/// an open binary no whole octets. The refusal is `BadEncoding` at the type.
pub(crate) fn bad_encoding(tree: &Tree, at: Place) -> Option<Refusal>
    ensures { result ≡ least (encoding_breaks tree.now at) }
{
    refusal_where(lacks_form(tree, at.node), Rule::BadEncoding, at)
}

/// An integer, enumerated or boolean type and a string have a form, and a binary has a size.
pub(crate) struct BadEncoding;

impl PlaceRule for BadEncoding {
    ghost use Rattle.eds_read_types.specs.BadEncoding.{encoding_breaks};
    ghost use Rattle.eds_read_types.specs.Breaks.{breaks_at};

    ghost breaks = { breaks_at encoding_breaks };

    fn least_at(_: Global, sheet: &NamedTrees, at: Place) -> Result<Option<Refusal>, Memory> {
        match tree_at(sheet.trees, at.file) {
            None => Ok(None),
            Some(tree) => Ok(bad_encoding(tree, at)),
        }
    }
}
