//! Where the paths of constraints lead.

ghost use Rattle.std.specs.Prelude.{◌≡◌, ◌≤◌, [], ◌∷◌, length, option_map, is_some, slice_get, IfOk};
ghost use Rattle.eds_types.specs.Rows.{container_by, number_of_id};
ghost use Rattle.eds_constraints.specs.Paths.{names_in, names_after, octets_left, first_step as first_step_of, further_step as further_step_of, follow as follow_names, aim_from as aim_from_names, is_scalar as is_scalar_kind, is_integer as is_integer_kind, suits as suits_kind, suits_row, suited as suited_aim, aim_of as aim_of_asked};

use crate::asked::{Aim, Asked, Test};
use crate::rows::{NamedRows, container_of, entry_at, is_listed, row_of};
use eds_base::{Items, Memory, TypeId};
use eds_types::{Kind, TypeRow};
use std::alloc::Global;

// The names of a text: the first, and the rest behind its point.
fn first_name(text: &str) -> (&str, Option<&str>)
    ensures names { names_in text.now ≡ result.0.now ∷ names_after (option_map (λ t. t.now) result.1) }
    ensures shorter { octets_left (option_map (λ t. t.now) result.1) ≤ length text.now }
{
    match text.split_once('.') {
        Some((first, rest)) => (first, Some(rest)),
        None => (text, None),
    }
}

// The first step of a path: an entry that stands in an `EntryList` of the base or of its own bases.
fn first_step(rows: &NamedRows, base: TypeId, name: &str) -> Option<((TypeId, u16), TypeId)>
    ensures { result ≡ first_step_of rows.now.rows.now base.0 name.now }
{
    let at = rows.first_called(base, name)?;
    if is_listed(rows.rows, at) {
        entry_at(rows.rows, at)
    } else {
        None
    }
}

// A further one, in a container: any entry of its chain, also in a list of trailers.
fn further_step(rows: &NamedRows, id: TypeId, name: &str) -> Option<((TypeId, u16), TypeId)>
    ensures { result ≡ further_step_of rows.now.rows.now id.0 name.now }
{
    if container_of(rows.rows, id).is_none() {
        return None;
    }
    entry_at(rows.rows, rows.first_called(id, name)?)
}

// From an entry on, by the names of a text.
fn follow(rows: &NamedRows, aim: Aim, names: Option<&str>) -> Result<Option<Aim>, Memory>
    ensures { IfOk result (λ a. a ≡ follow_names rows.now.rows.now aim (names_after (option_map (λ t. t.now) names.entry))) }
{
    let mut aim = aim;
    let mut rest = names;
    while let Some(text) = rest {
        let (name, after) = first_name(text);
        match further_step(rows, aim.target, name) {
            None => return Ok(None),
            Some((at, id)) => {
                aim.path.push(at)?;
                aim.target = id;
            }
        }
        rest = after;
    }
    Ok(Some(aim))
}

fn aim_at(alloc: Global, step: ((TypeId, u16), TypeId)) -> Result<Aim, Memory>
    ensures { IfOk result (λ a. (a.path ≡ step.0 ∷ []) × (a.target ≡ step.1)) }
{
    let mut path = Items::new(alloc);
    path.push(step.0)?;
    Ok(Aim {
        path,
        target: step.1,
    })
}

// Where a path leads from the base of the container that has the constraint.
fn aim_from(
    alloc: Global,
    rows: &NamedRows,
    base: TypeId,
    path: &str,
) -> Result<Option<Aim>, Memory>
    ensures { IfOk result (λ a. a ≡ aim_from_names rows.now.rows.now base.0 (names_in path.now)) }
{
    let (name, rest) = first_name(path);
    match first_step(rows, base, name) {
        None => Ok(None),
        Some(step) => {
            let aim = aim_at(alloc, step)?;
            follow(rows, aim, rest)
        }
    }
}

// ---- what a constraint may be on

fn is_scalar(kind: &Kind) -> bool
    ensures { result ≡ is_scalar_kind kind.now }
{
    matches!(kind, Kind::Int(_, _) | Kind::Enum(_, _) | Kind::Bool(_))
}

fn is_integer(kind: &Kind) -> bool
    ensures { result ≡ is_integer_kind kind.now }
{
    matches!(kind, Kind::Int(_, _))
}

fn is_container(kind: &Kind) -> bool
    ensures { result ≡ is_some (container_by kind.now) }
{
    matches!(kind, Kind::Con(_))
}

fn suits(test: &Test, kind: &Kind) -> bool
    ensures { result ≡ suits_kind test.now kind.now }
{
    match test {
        Test::Value(_) => is_scalar(kind),
        Test::Within(_) => is_integer(kind),
        Test::Under(_) => is_container(kind),
    }
}

fn suits_type(rows: &[TypeRow], test: &Test, id: TypeId) -> bool
    ensures { result ≡ suits_row test.now (slice_get rows.now id.0) }
{
    row_of(rows, id).is_some_and(|row| suits(test, &row.kind))
}

fn suited(rows: &[TypeRow], test: &Test, aim: Option<Aim>) -> Option<Aim>
    ensures { result ≡ suited_aim rows.now test.now aim }
{
    let aim = aim?;
    if suits_type(rows, test, aim.target) {
        Some(aim)
    } else {
        None
    }
}

/// Where a constraint leads that stands in a container with this base, None exactly where it leads nowhere, or to an entry that such
/// a constraint isn't on.
pub(crate) fn aim_of(
    alloc: Global,
    rows: &NamedRows,
    base: Option<TypeId>,
    asked: &Asked,
) -> Result<Option<Aim>, Memory>
    ensures { IfOk result (λ a. a ≡ aim_of_asked rows.now.rows.now (number_of_id base) asked.now) }
{
    match base {
        None => Ok(None),
        Some(base) => {
            let aim = aim_from(alloc, rows, base, asked.path.as_str())?;
            Ok(suited(rows.rows, &asked.test, aim))
        }
    }
}
