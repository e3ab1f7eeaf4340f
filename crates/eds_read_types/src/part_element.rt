//! Rules that are judged at the element of each part of a container.

use crate::breaks::{PlaceRule, least_over};
use eds_base::{Memory, Place, Refusal};
use eds_type_rows::entry::parts_at;
use eds_type_rows::named_trees::NamedTrees;
use std::alloc::Global;
use std::marker::PhantomData;

/// A rule that is judged at the elements of a type's parts, in both its lists.
pub(crate) struct AtPartElements<R>(PhantomData<R>);

impl<R: PlaceRule> PlaceRule for AtPartElements<R> {
    ghost use Rattle.eds_read_types.specs.PartElements.{judged_elements};

    ghost breaks = { judged_elements R.breaks };

    fn least_at(alloc: Global, sheet: &NamedTrees, at: Place) -> Result<Option<Refusal>, Memory> {
        let parts = parts_at(alloc, sheet.trees, at)?;
        least_over::<R>(alloc, sheet, &parts)
    }
}
