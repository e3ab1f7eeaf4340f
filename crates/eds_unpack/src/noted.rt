//! The numbers that are noted of the fields of containers, each in the slot of its path.

ghost use Rattle.std.specs.Prelude.{◌≡◌, ◌≤◌, ◌<◌, ℕ, ℤ, List, [], ◌∷◌, Some, None, Ok, Err, length, nat_abs, slice_get, unwrap_or, OnOk, IfErr};
ghost use Rattle.std.specs.List.{AllByRecursion};
ghost use Rattle.eds_base.specs.declared.ids.TypeId.{TypeId as Id};
ghost use Rattle.eds_types.specs.Choices.{IsNear};
ghost use Rattle.eds_types.specs.Fields.{Field, value_at};
ghost use Rattle.eds_types.specs.Plain.{num};
ghost use Rattle.eds_types.specs.Reading.{check_all, holds};
ghost use Rattle.eds_types.specs.Rows.{Table};
ghost use Rattle.eds_unpack.specs.Answers.{IsOfReading};
ghost use Rattle.eds_unpack.specs.Index.{Among};
ghost use Rattle.eds_overlap.specs.Pairs.{Steps};
ghost use Rattle.eds_unpack.specs.Noted.{IsNoted, IsNotedFor};

use crate::constraint::put_steps;
use crate::notes::Notes;
use eds_base::{Path, Reason, TypeId};
use eds_types::Constraint;

/// The number that is noted on a path.
pub(crate) fn number_noted(
    notes: &Notes,
    numbers: &[Option<i128>],
    path: &[(TypeId, u16)],
) -> Option<i128>
    ensures { Among notes.now path.now → (h : ℕ) × (slice_get notes.now h ≡ Some path.now) × (result ≡ unwrap_or (slice_get numbers.now h) None) }
{
    let at = notes.find(path)?;
    *numbers.get(at as usize)?
}

// ---- fields

/// The number on a path whose first entry has this number: its own where it is the last one, and else the one that is
/// noted on what follows.
fn number_behind(
    notes: &Notes,
    numbers: &[Option<i128>],
    rest: &[(TypeId, u16)],
    number: Option<i128>,
) -> Option<i128>
    ensures last { rest.now ≡ [] → result ≡ number }
    ensures longer { 1 ≤ length rest.now → Among notes.now rest.now → (h : ℕ) × (slice_get notes.now h ≡ Some rest.now) × (result ≡ unwrap_or (slice_get numbers.now h) None) }
{
    match rest {
        [] => number,
        [_, ..] => number_noted(notes, numbers, rest),
    }
}

/// Notes the number of the part at a place of a container on a path that begins in the container, where it begins in the
/// part.
fn note_path(notes: &Notes, numbers: &mut [Option<i128>], at: u32, place: u16, number: Option<i128>)
    requires there { at < length notes.now }
    requires room { length notes.now ≤ length numbers.old }
    ensures others { (g : ℕ) → (g ≡ at → ⊥) → slice_get numbers.new g ≡ slice_get numbers.old g }
    ensures elsewhere { (p : Id × ℕ) (path : Steps) → slice_get notes.now at ≡ Some (p ∷ path) → (p.1 ≡ place → ⊥) → numbers.new ≡ numbers.old }
    ensures last { (p : Id × ℕ) → slice_get notes.now at ≡ Some (p ∷ []) → p.1 ≡ place → slice_get numbers.new at ≡ Some number }
    ensures longer { (p q : Id × ℕ) (path : Steps) → slice_get notes.now at ≡ Some (p ∷ q ∷ path) → p.1 ≡ place → Among notes.now (q ∷ path) → (h : ℕ) × (slice_get notes.now h ≡ Some (q ∷ path)) × (slice_get numbers.new at ≡ slice_get numbers.old h) }
{
    if let [first, rest @ ..] = notes.path(at) {
        if first.1 == place {
            numbers[at as usize] = number_behind(notes, numbers, rest, number);
        }
    }
}

/// Notes the number of the part at a place of a container, if it has one, on each path that begins in the part: on a
/// longer path stands what is noted on what follows.
pub(crate) fn note_field(
    notes: &Notes,
    numbers: &mut [Option<i128>],
    container: TypeId,
    place: u16,
    number: Option<i128>,
)
    requires room { length notes.now ≤ length numbers.old }
    ensures long { length numbers.new ≡ length numbers.old }
    ensures others { (g : ℕ) (p : Id × ℕ) (path : Steps) → slice_get notes.now g ≡ Some (p ∷ path) → ((p.0).0 ≡ container.0 → p.1 ≡ place → ⊥) → slice_get numbers.new g ≡ slice_get numbers.old g }
    ensures last { (g : ℕ) (p : Id × ℕ) → slice_get notes.now g ≡ Some (p ∷ []) → (p.0).0 ≡ container.0 → p.1 ≡ place → slice_get numbers.new g ≡ Some number }
    ensures longer { (g : ℕ) (p q : Id × ℕ) (path : Steps) → slice_get notes.now g ≡ Some (p ∷ q ∷ path) → (p.0).0 ≡ container.0 → p.1 ≡ place → ((q.0).0 ≡ container.0 → ⊥) → Among notes.now (q ∷ path) → (h : ℕ) × (slice_get notes.now h ≡ Some (q ∷ path)) × (slice_get numbers.new g ≡ slice_get numbers.old h) }
{
    for at in notes.own(container) {
        note_path(notes, numbers, *at, place, number);
    }
}

// ---- constraints

/// Whether a constraint holds, by the number that is noted on its path.
pub(crate) fn holds_noted(notes: &Notes, numbers: &[Option<i128>], constraint: &Constraint) -> bool
    ensures { (t : Table) (fs : List Field) → IsNotedFor t notes.now numbers.now fs constraint.now → result ≡ holds t fs constraint.now }
{
    match number_noted(notes, numbers, constraint.path.as_slice()) {
        Some(number) => constraint.set.holds(number),
        None => false,
    }
}

/// All of a container's own constraints hold, or the first one that doesn't is told.
pub(crate) fn check_noted(
    notes: &Notes,
    numbers: &[Option<i128>],
    constraints: &[Constraint],
    path: &mut Path,
) -> Result<(), Reason>
    requires near { AllByRecursion (IsNear 32) constraints.now }
    requires root { path.old ≡ [] }
    ensures passes { OnOk result ((t : Table) (fs : List Field) → AllByRecursion (IsNotedFor t notes.now numbers.now fs) constraints.now → check_all t constraints.now fs ≡ Ok tt) }
    ensures stops { IfErr result (λ r. (t : Table) (fs : List Field) → AllByRecursion (IsNotedFor t notes.now numbers.now fs) constraints.now → check_all t constraints.now fs ≡ Err (record { reason = r; path = path.new })) }
    ensures near { (n : ℕ) → AllByRecursion (IsNear n) constraints.now → length path.new ≤ n }
    ensures calm { OnOk result (path.new ≡ []) }
    ensures reason { IfErr result IsOfReading }
{
    for constraint in constraints {
        if !holds_noted(notes, numbers, constraint) {
            put_steps(path, constraint.path.as_slice());
            return Err(Reason::Constraint);
        }
    }
    Ok(())
}

// ---- lists

/// How many items the entry at a place of a container tells, by the number that is noted of it.
pub(crate) fn count_noted(
    notes: &Notes,
    numbers: &[Option<i128>],
    container: TypeId,
    place: u16,
) -> u128
    ensures { (t : Table) (fs : List Field) (n : ℤ) → Among notes.now ((container, place) ∷ []) → IsNoted t notes.now numbers.now fs ((container, place) ∷ []) → value_at fs container.0 place ≡ Some (num n) → result ≡ nat_abs n }
{
    let path = [(container, place)];
    match number_noted(notes, numbers, &path) {
        Some(number) => number.unsigned_abs(),
        None => 0,
    }
}
