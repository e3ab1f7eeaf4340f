//! The containers of which a constraint breaks a rule.

ghost use Rattle.std.specs.Prelude.{◌≡◌, map, IfOk};
ghost use Rattle.eds_base.specs.Refusals.{least};
ghost use Rattle.eds_types.specs.Rows.{numbers};
ghost use Rattle.eds_constraints.specs.Broken.{breaks_of, is_broken};
ghost use Rattle.eds_constraints.specs.ConstrainedRows.{AreRead};
ghost use Rattle.eds_constraints.specs.Lefts.{AreAllLeft, AreRising};

use crate::asked_rows::AskedRows;
use crate::breaks::{ConstraintTarget, ConstraintValue, least_in};
use crate::left::{Left, all_lefts, least_empty, rows_rise};
use eds_base::{Memory, Refusal, TypeId};
use std::alloc::Global;

/// The least break of the three rules at the constraints of a container.
fn least_of(
    alloc: Global,
    rows: &AskedRows,
    lefts: &[Left],
    id: TypeId,
) -> Result<Option<Refusal>, Memory>
    requires read { AreRead rows.now.rows.now }
    requires rise { AreRising rows.now.rows.now }
    requires lefts { AreAllLeft rows.now.rows.now rows.now.lists.now lefts.now }
    ensures { IfOk result (λ r. r ≡ least (breaks_of rows.now.rows.now rows.now.lists.now id.0)) }
{
    let values = least_in::<ConstraintValue>(alloc, rows, id)?;
    let empties = least_empty(alloc, rows, lefts, id)?;
    let others = Refusal::first(values, empties);
    let targets = least_in::<ConstraintTarget>(alloc, rows, id)?;
    Ok(Refusal::first(targets, others))
}

// Whether a constraint of a container breaks one of them.
fn is_broken_at(alloc: Global, rows: &AskedRows, lefts: &[Left], id: TypeId) -> Result<bool, Memory>
    requires read { AreRead rows.now.rows.now }
    requires rise { AreRising rows.now.rows.now }
    requires lefts { AreAllLeft rows.now.rows.now rows.now.lists.now lefts.now }
    ensures { IfOk result (λ b. b ≡ is_broken rows.now.rows.now rows.now.lists.now id.0) }
{
    let found = least_of(alloc, rows, lefts, id)?;
    Ok(found.is_some())
}

/// For each type whether a constraint of its container breaks one of the three rules.
pub fn broken_containers(alloc: Global, rows: &AskedRows) -> Result<Vec<bool>, Memory>
    requires { AreRead rows.now.rows.now }
    ensures { IfOk result (λ m. m.items ≡ map (is_broken rows.now.rows.now rows.now.lists.now) (numbers rows.now.rows.now)) }
{
    rows_rise(rows.rows);
    let lefts = all_lefts(alloc, rows)?;
    let mut marks = Vec::new(alloc);
    for id in 0..rows.rows.len() {
        let broken = is_broken_at(alloc, rows, lefts.as_slice(), TypeId(id as u32))?;
        marks.push(broken)?;
    }
    Ok(marks)
}
