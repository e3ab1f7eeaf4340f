//! The choice of the most derived container.

ghost use Rattle.std.specs.Prelude.{◌≡◌, ◌&&◌, ◌==◌, ◌≤◌, ℕ, [], not, length, option_map, OnOk};
ghost use Rattle.std.specs.List.{list_all, flat_map};
ghost use Rattle.eds_base.specs.declared.ids.TypeId.{TypeId as Id};
ghost use Rattle.eds_types.specs.Choices.{meets, fits_choice};
ghost use Rattle.eds_pack.specs.Counting.{found};
ghost use Rattle.eds_pack.specs.Seeking.{fields_of};
ghost use Rattle.eds_types.specs.Families.{first_of};
ghost use Rattle.eds_types.specs.Fields.{constraints_along};
ghost use Rattle.eds_types.specs.PackedSizes.{Size, choice_size};
ghost use Rattle.eds_types.specs.Plain.{Plain};
ghost use Rattle.eds_types.specs.Reading.{starts_above, candidate_under};
ghost use Rattle.eds_types.specs.Rows.{constraints_of, numbers_of};

use crate::constraint::holds;
use crate::fields::Fields;
use eds_base::{Path, Step, TypeId};
use eds_types::{Constraint, PackReason, TypeTable, is_under};

/// Whether a path starts in an entry of a container or of its bases.
fn starts_above(table: &TypeTable, id: TypeId, path: &[(TypeId, u16)]) -> bool
    ensures { result ≡ starts_above table.now id.0 path.now }
{
    match path {
        [] => false,
        [first, ..] => {
            is_under(table, id, first.0) && (first.1 as usize) < table.entries_of(first.0).len()
        }
    }
}

/// Whether the constraints on entries before the choice hold.
fn meets_own(fields: &Fields<'_>, constraints: &[Constraint]) -> bool
    ensures { result ≡ list_all (meets fields.now.table.now fields.now.own.0 (fields_of fields.now.table.now fields.now.own.0 fields.now.values.now)) constraints.now }
{
    for constraint in constraints {
        if starts_above(fields.table, fields.own, constraint.path.as_slice())
            && !holds(fields, constraint)
        {
            return false;
        }
    }
    true
}

/// Whether those of a chain of containers do.
fn meets_all(fields: &Fields<'_>, chain: &[TypeId]) -> bool
    ensures { result ≡ list_all (meets fields.now.table.now fields.now.own.0 (fields_of fields.now.table.now fields.now.own.0 fields.now.values.now)) (flat_map (constraints_of fields.now.table.now) (numbers_of chain.now)) }
{
    for one in chain {
        if !meets_own(fields, fields.table.constraints_of(*one)) {
            return false;
        }
    }
    true
}

/// Whether those of a container's chain do. Its own come first, since these tell it from its siblings.
fn fits_under(fields: &Fields<'_>, under: TypeId) -> bool
    ensures { result ≡ list_all (meets fields.now.table.now fields.now.own.0 (fields_of fields.now.table.now fields.now.own.0 fields.now.values.now)) (constraints_along fields.now.table.now under.0) }
{
    meets_own(fields, fields.table.constraints_of(under))
        && meets_all(fields, fields.table.chain_of(under).as_slice())
}

/// The first of some containers, strictly under that of the fields, that may be theirs.
#[tactic(auto, unfolding(eds_types::specs::Families::first_of))]
fn first_candidate(fields: &Fields<'_>, family: &[TypeId]) -> Option<TypeId>
    ensures { option_map (λ (l : Id). l.0) result ≡ first_of (fits_choice fields.now.table.now fields.now.own.0 (fields_of fields.now.table.now fields.now.own.0 fields.now.values.now)) (numbers_of family.now) }
{
    for under in family {
        if under.0 != fields.own.0 && fits_under(fields, *under) {
            return Some(*under);
        }
    }
    None
}

/// The first container strictly under that of the fields that may be theirs.
fn candidate_under(fields: &Fields<'_>) -> Option<TypeId>
    ensures { option_map (λ (l : Id). l.0) result ≡ candidate_under fields.now.table.now fields.now.own.0 (fields_of fields.now.table.now fields.now.own.0 fields.now.values.now) }
{
    first_candidate(fields, fields.table.family_of(fields.own))
}

/// No container strictly under that of the fields may be theirs, or the choice is told.
pub(crate) fn check_most_derived(fields: &Fields<'_>, path: &mut Path) -> Result<(), PackReason>
    requires root { path.old ≡ [] }
    ensures adds { (size : ℕ → Plain → Size) → found result 0 path.new ≡ choice_size fields.now.table.now size (fields_of fields.now.table.now fields.now.own.0 fields.now.values.now) fields.now.own.0 (candidate_under fields.now.table.now fields.now.own.0 (fields_of fields.now.table.now fields.now.own.0 fields.now.values.now)) }
    ensures near { length path.new ≤ 1 }
    ensures calm { OnOk result (path.new ≡ []) }
{
    match candidate_under(fields) {
        Some(_) => {
            path.put_first(Step::Choice(fields.own));
            Err(PackReason::NotMostDerived)
        }
        None => Ok(()),
    }
}
