//! The rule that a reference to a type finds something.

use crate::breaks::broken_with;
use crate::reference::ReferenceRule;
use crate::reference_row::Wanted;
use eds_base::{Memory, Place, Refusal, Rule};
use eds_type_rows::named_trees::NamedTrees;
use std::alloc::Global;

/// A reference to a type finds something.
pub(crate) struct Unresolved;

impl ReferenceRule for Unresolved {
    ghost use Rattle.eds_read_types.specs.Unresolved.{unresolved_at};

    ghost breaks = { unresolved_at };

    fn least_at(
        alloc: Global,
        sheet: &NamedTrees,
        at: Place,
        text: &str,
        _: Wanted,
    ) -> Result<Option<Refusal>, Memory> {
        match sheet.space.look_up(alloc, at, text)? {
            Some(_) => Ok(None),
            None => Ok(Some(broken_with(alloc, Rule::Unresolved, at, text)?)),
        }
    }
}
