//! The constraints of containers.

ghost use Rattle.std.specs.Prelude.{◌≡◌, ◌≤◌, ◌+◌, ℕ, ◌++◌, List, [], length, map, option_map, slice_get, OnOk};
ghost use Rattle.std.specs.Option.{option_copied};
ghost use Rattle.std.specs.List.{AllByRecursion};
ghost use Rattle.eds_types.specs.Choices.{IsNear};
ghost use Rattle.eds_types.specs.Seeking.{first_on};
ghost use Rattle.eds_pack.specs.Counting.{found};
ghost use Rattle.eds_pack.specs.Seeking.{fields_of};
ghost use Rattle.eds_types.specs.Failing.{condition, path_steps};
ghost use Rattle.eds_types.specs.PackedSizes.{Size, stations_size};
ghost use Rattle.eds_types.specs.Plain.{Plain, plain};
ghost use Rattle.eds_types.specs.Reading.{holds};

use crate::fields::Fields;
use eds_base::{Path, Step, TypeId};
use eds_types::{Constraint, PackReason, TypeTable, Value, holds_from, value_of};

/// The value that a path begins with.
fn first_value<'a>(
    table: &TypeTable,
    own: TypeId,
    values: &'a [Value],
    path: &[(TypeId, u16)],
) -> Option<&'a Value>
    ensures { option_map plain (option_copied result) ≡ first_on (fields_of table.now own.0 values.now) path.now }
{
    match path {
        [] => None,
        [first, ..] => value_of(table, own, values, *first),
    }
}

/// Whether a constraint holds.
pub(crate) fn holds(fields: &Fields<'_>, constraint: &Constraint) -> bool
    ensures { result ≡ holds fields.now.table.now (fields_of fields.now.table.now fields.now.own.0 fields.now.values.now) constraint.now }
{
    let path = constraint.path.as_slice();
    let first = first_value(fields.table, fields.own, fields.values, path);
    holds_from(fields.table, first, constraint)
}

/// Puts the steps along a path into it.
fn put_steps(path: &mut Path, steps: &[(TypeId, u16)])
    requires { length path.old + length steps.now ≤ 64 }
    ensures { path.new ≡ path_steps steps.now ++ path.old }
{
    let mut rest = steps;
    while let [front @ .., last] = rest {
        path.put_first(Step::Part(last.0, last.1));
        rest = front;
    }
}

/// All of the constraints hold, or the path of the first one that doesn't is told.
pub(crate) fn check_constraints(
    fields: &Fields<'_>,
    constraints: &[Constraint],
    path: &mut Path,
) -> Result<(), PackReason>
    requires near { AllByRecursion (IsNear 32) constraints.now }
    requires root { path.old ≡ [] }
    ensures adds { (size : ℕ → Plain → Size) (k y : ℕ) → found result 0 path.new ≡ stations_size fields.now.table.now size (fields_of fields.now.table.now fields.now.own.0 fields.now.values.now) k 0 (map (condition y) constraints.now) }
    ensures near { (n : ℕ) → AllByRecursion (IsNear n) constraints.now → length path.new ≤ n }
    ensures calm { OnOk result (path.new ≡ []) }
{
    for constraint in constraints {
        if !holds(fields, constraint) {
            put_steps(path, constraint.path.as_slice());
            return Err(PackReason::Constraint);
        }
    }
    Ok(())
}
