//! The rule that what a reference finds is a type of the kind that is wanted.

ghost use Rattle.std.specs.Prelude.{◌≡◌, IfOk};
ghost use Rattle.eds_base.specs.Refusals.{least};
ghost use Rattle.eds_read_types.specs.WrongKind.{kind_by};

use crate::breaks::broken_with;
use crate::reference::{ReferenceRule, admits, type_of};
use crate::reference_row::Wanted;
use eds_base::{Memory, Place, Refusal, Rule};
use eds_tree::Tree;
use eds_type_rows::named_trees::NamedTrees;
use std::alloc::Global;

fn judge_found(
    alloc: Global,
    trees: &[Tree],
    at: Place,
    text: &str,
    wanted: Wanted,
    found: Option<Place>,
) -> Result<Option<Refusal>, Memory>
    ensures { IfOk result (λ r. r ≡ least (kind_by trees.now at text.now wanted found)) }
{
    if let Some(found) = found {
        if admits(trees, wanted, found) {
            return Ok(None);
        }
    }
    Ok(Some(broken_with(alloc, Rule::WrongKind, at, text)?))
}

/// What a reference finds is a type of the kind that is wanted.
pub(crate) struct WrongKind;

impl ReferenceRule for WrongKind {
    ghost use Rattle.eds_read_types.specs.WrongKind.{wrong_kind_at};

    ghost breaks = { wrong_kind_at };

    fn least_at(
        alloc: Global,
        sheet: &NamedTrees,
        at: Place,
        text: &str,
        wanted: Wanted,
    ) -> Result<Option<Refusal>, Memory> {
        match sheet.space.look_up(alloc, at, text)? {
            None => Ok(None),
            Some(item) => judge_found(alloc, sheet.trees, at, text, wanted, type_of(sheet, item)),
        }
    }
}
