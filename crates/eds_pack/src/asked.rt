//! The numbers that constraints ask of an entry.

ghost use Rattle.std.specs.Prelude.{◌≡◌, ◌↔◌, ◌++◌, [], ◌∷◌, List, IfOk, IsTrue};
ghost use Rattle.std.specs.List.{flat_map};
ghost use Rattle.eds_types.specs.declared.row.Constraint.{Constraint as Asking};
ghost use Rattle.eds_types.specs.Rows.{constraints_of, numbers_of};
ghost use Rattle.eds_pack.specs.Building.{Asked, Meets};

use eds_base::{Memory, Spans, TypeId};
use eds_types::{Constraint, TypeTable};
use std::alloc::Global;

/// Whether a path is that of the part at a place alone.
fn is_at(path: &[(TypeId, u16)], place: (TypeId, u16)) -> bool
    ensures { IsTrue result ↔ (path.now ≡ place ∷ []) }
{
    match path {
        [] => false,
        [one] => one.0.0 == place.0.0 && one.1 == place.1,
        [_, _, ..] => false,
    }
}

/// The numbers of a set that others, if there are any, have too.
fn met(alloc: Global, others: Option<Spans>, set: &Spans) -> Result<Spans, Memory>
    ensures { IfOk result (λ s. Meets others set.now s) }
{
    match others {
        Some(others) => others.meet(alloc, set),
        None => set.meet(alloc, set),
    }
}

/// What is asked of the part at a place, with one constraint more.
fn narrowed(
    alloc: Global,
    asked: Option<Spans>,
    constraint: &Constraint,
    place: (TypeId, u16),
) -> Result<Option<Spans>, Memory>
    ensures { (before : List Asking) → Asked before (place ∷ []) asked → IfOk result (λ o. Asked (before ++ constraint.now ∷ []) (place ∷ []) o) }
{
    if is_at(constraint.path.as_slice(), place) {
        Ok(Some(met(alloc, asked, &constraint.set)?))
    } else {
        Ok(asked)
    }
}

/// What is asked of it with the constraints of one container more.
fn asked_by(
    alloc: Global,
    before: Option<Spans>,
    constraints: &[Constraint],
    place: (TypeId, u16),
) -> Result<Option<Spans>, Memory>
    ensures { (done : List Asking) → Asked done (place ∷ []) before → IfOk result (λ o. Asked (done ++ constraints.now) (place ∷ []) o) }
{
    let mut asked = before;
    for constraint in constraints {
        asked = narrowed(alloc, asked, constraint, place)?;
    }
    Ok(asked)
}

/// The numbers that all constraints of a chain of containers on the part at a place have in common; none where there is no
/// such constraint.
pub(crate) fn asked_along(
    alloc: Global,
    table: &TypeTable,
    chain: &[TypeId],
    place: (TypeId, u16),
) -> Result<Option<Spans>, Memory>
    ensures { IfOk result (λ o. Asked (flat_map (constraints_of table.now) (numbers_of chain.now)) (place ∷ []) o) }
{
    let mut asked = None;
    for id in chain {
        asked = asked_by(alloc, asked, table.constraints_of(*id), place)?;
    }
    Ok(asked)
}
