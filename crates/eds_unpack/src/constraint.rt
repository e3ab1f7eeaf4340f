//! The constraints of containers.

ghost use Rattle.std.specs.Prelude.{◌≡◌, ◌≤◌, ◌+◌, ℕ, ◌++◌, [], length, OnOk, IfErr};
ghost use Rattle.std.specs.List.{AllByRecursion};
ghost use Rattle.eds_types.specs.Failing.{path_steps};
ghost use Rattle.eds_types.specs.Reading.{holds, check_all};
ghost use Rattle.eds_types.specs.Choices.{IsNear};
ghost use Rattle.eds_unpack.specs.Courses.{fields_of};
ghost use Rattle.eds_unpack.specs.Readers.{Gives, with_path, StopsReading};

use crate::fields::ReadFields;
use crate::number::number_on;
use eds_base::{Fail, Path, Reason, Step, TypeId};
use eds_types::{Constraint, TypeTable};

/// Whether a constraint holds.
pub(crate) fn holds(table: &TypeTable, fields: &ReadFields, constraint: &Constraint) -> bool
    ensures { result ≡ holds table.now (fields_of fields.now) constraint.now }
{
    match number_on(table, fields, constraint.path.as_slice()) {
        Some(number) => constraint.set.holds(number),
        None => false,
    }
}

/// Puts the steps along a path into it.
pub(crate) fn put_steps(path: &mut Path, steps: &[(TypeId, u16)])
    requires { length path.old + length steps.now ≤ 64 }
    ensures { path.new ≡ path_steps steps.now ++ path.old }
{
    let mut rest = steps;
    while let [front @ .., last] = rest {
        path.put_first(Step::Part(last.0, last.1));
        rest = front;
    }
}

/// All of a container's own constraints hold, or the first one that doesn't is told.
#[tactic(auto, unfolding(eds_types::specs::Reading::check_all))]
pub(crate) fn check_constraints(
    table: &TypeTable,
    constraints: &[Constraint],
    fields: &ReadFields,
    path: &mut Path,
) -> Result<(), Fail<Reason>>
    requires near { AllByRecursion (IsNear 32) constraints.now }
    requires root { path.old ≡ [] }
    ensures gives { Gives (λ u. u) (with_path path.new result) (check_all table.now constraints.now (fields_of fields.now)) }
    ensures near { (n : ℕ) → AllByRecursion (IsNear n) constraints.now → length path.new ≤ n }
    ensures calm { OnOk result (path.new ≡ []) }
    ensures reason { IfErr result StopsReading }
{
    for constraint in constraints {
        if !holds(table, fields, constraint) {
            put_steps(path, constraint.path.as_slice());
            return Err(Fail::Named(Reason::Constraint));
        }
    }
    Ok(())
}
