//! The rule on open binaries in type constraints.

ghost use Rattle.std.specs.Prelude.{◌≡◌};
ghost use Rattle.std.specs.List.{flat_map};
ghost use Rattle.eds_base.specs.Refusals.{least};
ghost use Rattle.eds_read_types.specs.OpenConstraint.{open_test, open_asked, open_among};

use crate::breaks::broken;
use crate::constraint_element::asked_lists;
use crate::rules::SheetRule;
use crate::sheet_rows::{SheetRows, is_open};
use eds_base::{Memory, Place, Refusal, Rule};
use eds_constraints::{Asked, AskedOf, Test};
use eds_types::TypeRows;
use std::alloc::Global;

fn judge_test(rows: &TypeRows, at: Place, test: &Test) -> Option<Refusal>
    ensures { result ≡ least (open_test rows.now at test.now) }
{
    match test {
        Test::Value(_) => None,
        Test::Within(_) => None,
        Test::Under(id) => {
            if is_open(rows, *id) {
                Some(broken(Rule::LengthField, at))
            } else {
                None
            }
        }
    }
}

/// The least break at some constraints.
fn least_asked(rows: &TypeRows, asked: &[Asked]) -> Option<Refusal>
    ensures { result ≡ least (flat_map (open_asked rows.now) asked.now) }
{
    let mut found = None;
    for one in asked {
        let here = judge_test(rows, one.place, &one.test);
        found = Refusal::first(found, here);
    }
    found
}

/// The least break at the constraints of all types.
fn least_open(rows: &TypeRows, lists: &[AskedOf]) -> Option<Refusal>
    ensures { result ≡ least (flat_map (open_among rows.now) lists.now) }
{
    let mut found = None;
    for asked in lists {
        let here = least_asked(rows, asked.as_slice());
        found = Refusal::first(found, here);
    }
    found
}

/// No type constraint names an open binary.
pub(crate) struct OpenConstraint;

impl SheetRule for OpenConstraint {
    ghost use Rattle.eds_read_types.specs.OpenConstraint.{breaks_open_constraint};

    ghost breaks = { λ trees names word. breaks_open_constraint trees names };

    fn least(alloc: Global, sheet: &SheetRows) -> Result<Option<Refusal>, Memory> {
        let lists = asked_lists(alloc, sheet.graph.sheet)?;
        Ok(least_open(sheet.rows, &lists))
    }
}
