//! The choice of the most derived container.

ghost use Rattle.std.specs.Prelude.{◌≡◌, List, true, ◌&&◌, ◌==◌, not, length, option_map, unwrap_or, slice_get};
ghost use Rattle.std.specs.List.{AllByRecursion, list_all, flat_map};
ghost use Rattle.eds_base.specs.declared.ids.TypeId.{TypeId as Id};
ghost use Rattle.eds_types.specs.Families.{first_of};
ghost use Rattle.eds_types.specs.Fields.{Field, constraints_along};
ghost use Rattle.eds_types.specs.Reading.{starts_above, candidate_under, next};
ghost use Rattle.eds_types.specs.Rows.{chain, chain as chain_of, constraints_of, numbers_of};
ghost use Rattle.eds_types.specs.Choices.{meets, fits_choice};
ghost use Rattle.eds_unpack.specs.Courses.{fields_of};
ghost use Rattle.eds_unpack.specs.Choices.{TellsAbove, TellsChoice, next_in};
ghost use Rattle.eds_unpack.specs.Selectors.{IsSelectorOf};

use crate::fields::ReadFields;
use crate::known::{Known, holds_known, number_known};
use crate::segments::Segments;
use crate::selector::{Selector, stretch_at};
use eds_base::TypeId;
use eds_types::{Constraint, TypeTable, is_among};

/// Where reading goes on behind a container's entries.
pub(crate) enum Next {
    /// It is this container.
    Stay,
    /// It is abstract, and none that derives from it may be it.
    Nowhere,
    /// It is one at or under this child.
    Under(TypeId),
}

/// Whether a path starts in an entry of a container or of its bases.
pub(crate) fn starts_above(
    table: &TypeTable,
    id: TypeId,
    chain: &[TypeId],
    path: &[(TypeId, u16)],
) -> bool
    requires { numbers_of chain.now ≡ chain_of table.now id.0 }
    ensures { result ≡ starts_above table.now id.0 path.now }
{
    match path {
        [] => false,
        [first, ..] => {
            is_among(chain, first.0) && (first.1 as usize) < table.entries_of(first.0).len()
        }
    }
}

/// Whether a constraint holds, if it is one on an entry before the choice.
fn meets_one(
    table: &TypeTable,
    id: TypeId,
    chain: &[TypeId],
    known: &Known<'_>,
    constraint: &Constraint,
) -> bool
    requires { numbers_of chain.now ≡ chain_of table.now id.0 }
    ensures { (fs : List Field) → TellsAbove table.now id.0 fs known.now constraint.now → result ≡ meets table.now id.0 fs constraint.now }
{
    !starts_above(table, id, chain, constraint.path.as_slice())
        || holds_known(table, known, constraint)
}

/// Whether the constraints on entries before the choice hold.
fn meets_own(
    table: &TypeTable,
    id: TypeId,
    chain: &[TypeId],
    known: &Known<'_>,
    constraints: &[Constraint],
) -> bool
    requires { numbers_of chain.now ≡ chain_of table.now id.0 }
    ensures { (fs : List Field) → AllByRecursion (TellsAbove table.now id.0 fs known.now) constraints.now → result ≡ list_all (meets table.now id.0 fs) constraints.now }
{
    for constraint in constraints {
        if !meets_one(table, id, chain, known, constraint) {
            return false;
        }
    }
    true
}

/// Whether those of some containers do.
fn meets_all(
    table: &TypeTable,
    id: TypeId,
    chain: &[TypeId],
    known: &Known<'_>,
    containers: &[TypeId],
) -> bool
    requires { numbers_of chain.now ≡ chain_of table.now id.0 }
    ensures { (fs : List Field) → TellsChoice table.now id.0 fs known.now → result ≡ list_all (meets table.now id.0 fs) (flat_map (constraints_of table.now) (numbers_of containers.now)) }
{
    for one in containers {
        if !meets_own(table, id, chain, known, table.constraints_of(*one)) {
            return false;
        }
    }
    true
}

/// Whether those of a container's chain do, where its own do.
fn meets_bases(
    table: &TypeTable,
    id: TypeId,
    chain: &[TypeId],
    known: &Known<'_>,
    under: TypeId,
) -> bool
    requires { numbers_of chain.now ≡ chain_of table.now id.0 }
    ensures { (fs : List Field) → TellsChoice table.now id.0 fs known.now → list_all (meets table.now id.0 fs) (constraints_of table.now under.0) ≡ true → result ≡ list_all (meets table.now id.0 fs) (constraints_along table.now under.0) }
{
    let line = table.chain_of(under);
    match line.as_slice() {
        [bases @ .., _] => meets_all(table, id, chain, known, bases),
        [] => true,
    }
}

/// Whether those of a container's chain do. Its own come first, since these tell it from its siblings.
fn fits_under(
    table: &TypeTable,
    id: TypeId,
    chain: &[TypeId],
    known: &Known<'_>,
    under: TypeId,
) -> bool
    requires { numbers_of chain.now ≡ chain_of table.now id.0 }
    ensures { (fs : List Field) → TellsChoice table.now id.0 fs known.now → result ≡ list_all (meets table.now id.0 fs) (constraints_along table.now under.0) }
{
    meets_own(table, id, chain, known, table.constraints_of(under))
        && meets_bases(table, id, chain, known, under)
}

/// The first of some containers, strictly under another one, that may be that of the fields.
#[tactic(auto, unfolding(eds_types::specs::Families::first_of))]
fn first_candidate(
    table: &TypeTable,
    id: TypeId,
    chain: &[TypeId],
    known: &Known<'_>,
    family: &[TypeId],
) -> Option<TypeId>
    requires { numbers_of chain.now ≡ chain_of table.now id.0 }
    ensures { (fs : List Field) → TellsChoice table.now id.0 fs known.now → option_map (λ (l : Id). l.0) result ≡ first_of (fits_choice table.now id.0 fs) (numbers_of family.now) }
{
    for under in family {
        if under.0 != id.0 && fits_under(table, id, chain, known, *under) {
            return Some(*under);
        }
    }
    None
}

/// The members of a family that may have the number that is known on a selector's path, and all of them where none is known.
fn selected<'a>(
    table: &'a TypeTable,
    selector: &'a Selector,
    id: TypeId,
    known: &Known<'_>,
) -> &'a [TypeId]
    requires { IsSelectorOf table.now id.0 selector.now }
    ensures { (fs : List Field) → TellsChoice table.now id.0 fs known.now → first_of (fits_choice table.now id.0 fs) (numbers_of result.now) ≡ candidate_under table.now id.0 fs }
{
    if let Some(number) = number_known(table, known, selector.path.as_slice()) {
        if let Some(stretch) = stretch_at(selector.stretches.as_slice(), number) {
            return stretch.members.as_slice();
        }
    }
    table.family_of(id)
}

/// The members of a container's family among which a candidate is the first: those that its selector leaves, and all of them
/// where it has none.
fn members_left<'a>(
    table: &'a TypeTable,
    segments: &'a Segments<'_>,
    id: TypeId,
    known: &Known<'_>,
) -> &'a [TypeId]
    requires { segments.now ≡ table.now }
    ensures { (fs : List Field) → TellsChoice table.now id.0 fs known.now → first_of (fits_choice table.now id.0 fs) (numbers_of result.now) ≡ candidate_under table.now id.0 fs }
{
    match segments.selector(id) {
        Some(selector) => selected(table, selector, id, known),
        None => table.family_of(id),
    }
}

/// The first container strictly under one that may be that of the fields.
fn candidate_under(
    table: &TypeTable,
    segments: &Segments<'_>,
    id: TypeId,
    known: &Known<'_>,
) -> Option<TypeId>
    requires { segments.now ≡ table.now }
    ensures { (fs : List Field) → TellsChoice table.now id.0 fs known.now → option_map (λ (l : Id). l.0) result ≡ candidate_under table.now id.0 fs }
{
    let members = members_left(table, segments, id, known);
    if members.is_empty() {
        return None;
    }
    let chain = table.chain_of(id);
    first_candidate(table, id, chain.as_slice(), known, members)
}

/// Where reading goes on behind the entries of a container, by its fields.
pub(crate) fn next_container(
    table: &TypeTable,
    segments: &Segments<'_>,
    id: TypeId,
    fields: &ReadFields,
) -> Next
    requires { segments.now ≡ table.now }
    ensures { next_in result ≡ next table.now id.0 (fields_of fields.now) }
{
    let known = Known::Fields(fields);
    next_known(table, segments, id, &known)
}

/// Where it goes on, by what is known of them.
pub(crate) fn next_known(
    table: &TypeTable,
    segments: &Segments<'_>,
    id: TypeId,
    known: &Known<'_>,
) -> Next
    requires { segments.now ≡ table.now }
    ensures { (fs : List Field) → TellsChoice table.now id.0 fs known.now → next_in result ≡ next table.now id.0 fs }
{
    match candidate_under(table, segments, id, known) {
        None if table.is_concrete(id) => Next::Stay,
        None => Next::Nowhere,
        Some(under) => Next::Under(child(table, id, under)),
    }
}

/// The child of a container on the way to one under it.
fn child(table: &TypeTable, id: TypeId, under: TypeId) -> TypeId
    ensures { result.0 ≡ unwrap_or (slice_get (chain table.now under.0) (length (chain table.now id.0))) 0 }
{
    let above = table.chain_of(id).len();
    match table.chain_of(under).get(above) {
        Some(child) => *child,
        None => TypeId(0),
    }
}
