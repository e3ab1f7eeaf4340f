//! The rules on the constraints of containers.

ghost use Rattle.std.specs.Prelude.{◌≡◌, ◌++◌, length, IfOk};
ghost use Rattle.eds_base.specs.Refusals.{least};
ghost use Rattle.eds_constraints.specs.Breaks.{breaks_target, breaks_value, breaks_empty};
ghost use Rattle.eds_constraints.specs.ConstrainedRows.{AreRead};
ghost use Rattle.eds_read_types.specs.Faults.{is_constraint_broken};
ghost use Rattle.eds_read_types.specs.Kin.{AreMarks};

use crate::constraint_element::asked_lists;
use crate::rules::SheetRule;
use crate::sheet_rows::SheetRows;
use eds_base::{Memory, Refusal};
use eds_constraints::{
    AskedRows, broken_containers, constraint_empty, constraint_target, constraint_value,
};
use std::alloc::Global;

/// The least break of the three rules.
fn least_constraint(alloc: Global, asked: &AskedRows) -> Result<Option<Refusal>, Memory>
    requires { AreRead asked.now.rows.now }
    ensures { IfOk result (λ r. r ≡ least (breaks_target asked.now.rows.now asked.now.lists.now ++ (breaks_value asked.now.rows.now asked.now.lists.now ++ breaks_empty asked.now.rows.now asked.now.lists.now))) }
{
    let values = constraint_value(alloc, asked)?;
    let empties = constraint_empty(alloc, asked)?;
    let others = Refusal::first(values, empties);
    let targets = constraint_target(alloc, asked)?;
    Ok(Refusal::first(targets, others))
}

/// For each type whether a constraint of it breaks one of them.
pub(crate) fn broken_constraints(alloc: Global, sheet: &SheetRows) -> Result<Vec<bool>, Memory>
    ensures { IfOk result (λ m. AreMarks (length sheet.now.rows.now) (is_constraint_broken sheet.now.graph.now.sheet.now.trees.now sheet.now.graph.now.sheet.now.space.now) m.items) }
{
    let lists = asked_lists(alloc, sheet.graph.sheet)?;
    let asked = AskedRows::of(alloc, sheet.rows.as_slice(), &lists)?;
    broken_containers(alloc, &asked)
}

/// Where constraints lead, what they stand for there, and what they leave.
pub(crate) struct ConstraintRules;

impl SheetRule for ConstraintRules {
    ghost use Rattle.eds_read_types.specs.ConstraintRules.{breaks_constraints};

    ghost breaks = { λ trees names word. breaks_constraints trees names };

    fn least(alloc: Global, sheet: &SheetRows) -> Result<Option<Refusal>, Memory> {
        let lists = asked_lists(alloc, sheet.graph.sheet)?;
        let asked = AskedRows::of(alloc, sheet.rows.as_slice(), &lists)?;
        least_constraint(alloc, &asked)
    }
}
