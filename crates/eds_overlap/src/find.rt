//! The first two containers whose values can't be told apart.

ghost use Rattle.std.specs.Prelude.{◌≡◌, ◌≤◌, ◌∷◌, [], ℕ, false, ℤ, ◌≤ℤ◌, ◌<◌, ◌↔◌, length, map, slice_get, Some, IsTrue, IfOk, IfSome, IfNone};
ghost use Rattle.std.specs.List.{AllByRecursion};
ghost use Rattle.eds_base.specs.Spans.{IsWithin};
ghost use Rattle.eds_types.specs.Reading.{starts_above};
ghost use Rattle.eds_types.specs.Overlap.{Overlapping};
ghost use Rattle.eds_overlap.specs.FirstOverlap.{first_overlap};
ghost use Rattle.eds_overlap.specs.Index.{AreListed, AreMetWith, IsReached, MayMeet};
ghost use Rattle.eds_overlap.specs.Pairs.{AllSets, Meets, Agrees, ArePartedAt, IsReadThrough, Named, IsWithinOn, IsFirstPair, IsFirstWith, set_on, shared, has_used};

use crate::common::{Common, common_numbers};
use crate::index::{
    Places, all_key, family_of, free_key, held_key, listed, mark_of, models_of, place_all,
};
use crate::sets::{SetsByPath, sets_by_path};
use eds_base::{Items, Memory, TypeId};
use eds_types::{PathSet, TypeTable, Used, is_among};
use std::alloc::Global;

/// Two concrete containers that overlap, the nearest base that both have, and for each path that is judged the least number
/// that both can have there, in the order of the paths' texts.
#[derive(Drop)]
pub struct Overlap {
    pub first: TypeId,
    pub second: TypeId,
    pub ancestor: TypeId,
    pub common: Items<Common>,
}

// Two containers that overlap, and the nearest base that both have.
#[derive(Clone, Copy)]
pub(crate) struct Pair {
    pub first: TypeId,
    pub second: TypeId,
    pub ancestor: TypeId,
}

/// The first two containers that overlap where these types are used: of all such pairs the one with the least second, and
/// then the least first, which is declared before the second. None exactly where no two containers overlap.
pub fn find_overlap(
    alloc: Global,
    table: &TypeTable,
    used: &Used,
) -> Result<Option<Overlap>, Memory>
    ensures { IfOk result (λ found. found ≡ first_overlap table.now used.now) }
{
    table.keeps_rules();
    let sets = all_sets(alloc, table)?;
    let sets = sets.as_slice();
    let found = first_pair(alloc, table, used.as_slice(), sets)?;
    match found {
        None => Ok(None),
        Some(pair) => {
            let ours = &sets[pair.first.0 as usize];
            let theirs = &sets[pair.second.0 as usize];
            let common = common_numbers(alloc, table, pair, ours, theirs)?;
            Ok(Some(Overlap {
                first: pair.first,
                second: pair.second,
                ancestor: pair.ancestor,
                common,
            }))
        }
    }
}

// How many types two chains have in common at their front.
fn shared_front(one: &[TypeId], other: &[TypeId]) -> usize
    ensures { result ≡ shared one.now other.now }
{
    let mut count = 0;
    let mut ours = one;
    let mut theirs = other;
    while let [id, ours_after @ ..] = ours {
        let [with, theirs_after @ ..] = theirs else {
            return count;
        };
        if id.0 != with.0 {
            return count;
        }
        count += 1;
        ours = ours_after;
        theirs = theirs_after;
    }
    count
}

// The nearest common base of two types, neither of which derives from the other.
fn parting(table: &TypeTable, first: TypeId, second: TypeId) -> Option<TypeId>
    ensures some { IfSome result (λ x. ArePartedAt table.now x.0 first.0 second.0) }
    ensures none { IfNone result ((x : ℕ) → ArePartedAt table.now x first.0 second.0 → ⊥) }
{
    table.keeps_rules();
    let one = table.chain_of(first);
    let other = table.chain_of(second);
    let ours = one.as_slice();
    let theirs = other.as_slice();
    let count = shared_front(ours, theirs);
    if 0 < count && count < ours.len() && count < theirs.len() {
        Some(ours[count - 1])
    } else {
        None
    }
}

// Whether a type is used or derives from a used one.
fn is_read_through(table: &TypeTable, used: &[TypeId], id: TypeId) -> bool
    ensures { IsTrue result ↔ IsReadThrough table.now (Named used.now) id.0 }
{
    let chain = table.chain_of(id);
    has_used_one(used, chain.as_slice())
}

// Whether some of the types are used.
fn has_used_one(used: &[TypeId], ids: &[TypeId]) -> bool
    ensures { result ≡ has_used used.now ids.now }
{
    for one in ids {
        if is_among(used, *one) {
            return true;
        }
    }
    false
}

/// Whether a path starts in an entry of a container or of one of its bases.
pub(crate) fn starts_in(table: &TypeTable, id: TypeId, path: &[(TypeId, u16)]) -> bool
    ensures { result ≡ starts_above table.now id.0 path.now }
{
    let [step, ..] = path else {
        return false;
    };
    let chain = table.chain_of(id);
    is_among(chain.as_slice(), step.0) && (step.1 as usize) < table.entries_of(step.0).len()
}

// The least number of a path's set that the set on that path among others has too, if there is one.
fn least_common(ours: &PathSet, theirs: &SetsByPath) -> Option<i128>
    ensures some { IfSome result (λ n. IsWithin ours.now.set n × IsWithinOn (set_on theirs.now ours.now.path) n) }
    ensures least { IfSome result (λ n. (m : ℤ) → IsWithin ours.now.set m → IsWithinOn (set_on theirs.now ours.now.path) m → n ≤ℤ m) }
    ensures none { IfNone result ((m : ℤ) → IsWithin ours.now.set m → IsWithinOn (set_on theirs.now ours.now.path) m → ⊥) }
{
    match theirs.find(ours.path.as_slice()) {
        Some(set) => ours.set.first_common(set),
        None => ours.set.first_common(&ours.set),
    }
}

// Whether a path starts below a choice, or its set has a number that the set on that path among others has too.
fn agrees(table: &TypeTable, id: TypeId, one: &PathSet, theirs: &SetsByPath) -> bool
    ensures { IsTrue result ↔ Agrees table.now id.0 theirs.now one.now }
{
    if !starts_in(table, id, one.path.as_slice()) {
        return true;
    }
    match least_common(one, theirs) {
        Some(_) => true,
        None => false,
    }
}

// Whether on each path that starts above a choice the sets have a common number.
fn agree(table: &TypeTable, id: TypeId, ours: &[PathSet], theirs: &SetsByPath) -> bool
    ensures { IsTrue result ↔ AllByRecursion (Agrees table.now id.0 theirs.now) ours.now }
{
    for one in ours {
        if !agrees(table, id, one, theirs) {
            return false;
        }
    }
    true
}

// The container at which two types overlap. Where they don't there is none.
fn overlap_of(
    table: &TypeTable,
    used: &[TypeId],
    sets: &[SetsByPath],
    first: TypeId,
    second: TypeId,
) -> Option<TypeId>
    requires sets { AllSets table.now sets.now }
    requires first { first.0 < length table.now }
    requires second { second.0 < length table.now }
    ensures some { IfSome result (λ x. Overlapping table.now (Named used.now) x.0 first.0 second.0) }
    ensures none { IfNone result ((x : ℕ) → Overlapping table.now (Named used.now) x first.0 second.0 → ⊥) }
{
    table.keeps_rules();
    if !table.is_concrete(first) || !table.is_concrete(second) {
        return None;
    }
    let ours = &sets[first.0 as usize];
    let theirs = &sets[second.0 as usize];
    let id = parting(table, first, second)?;
    met_at(table, used, id, ours, theirs)
}

// The container at which two types part, where their sets agree and it is read.
fn met_at(
    table: &TypeTable,
    used: &[TypeId],
    id: TypeId,
    ours: &SetsByPath,
    theirs: &SetsByPath,
) -> Option<TypeId>
    ensures some { IfSome result (λ x. (x ≡ id) × Meets table.now (Named used.now) id.0 ours.now theirs.now) }
    ensures none { IfNone result (Meets table.now (Named used.now) id.0 ours.now theirs.now → ⊥) }
{
    if agree(table, id, ours.as_slice(), theirs)
        && agree(table, id, theirs.as_slice(), ours)
        && is_read_through(table, used, id)
    {
        Some(id)
    } else {
        None
    }
}

// Whether what was found is a type or comes before it.
fn is_reached(best: Option<Pair>, first: TypeId) -> bool
    ensures yes { IsTrue result → IsReached best first.0 }
    ensures no { result ≡ false → (k : ℕ) → IsReached best k → first.0 ≤ k }
{
    match best {
        Some(pair) => pair.first.0 <= first.0,
        None => false,
    }
}

// What was found, or a type before another one with which it overlaps, if it comes earlier.
fn better(
    table: &TypeTable,
    used: &[TypeId],
    sets: &[SetsByPath],
    first: TypeId,
    second: TypeId,
    best: Option<Pair>,
) -> Option<Pair>
    requires sets { AllSets table.now sets.now }
    requires second { second.0 < length table.now }
    ensures { AreMetWith table.now (Named used.now) second.0 (first ∷ []) best result }
{
    if second.0 <= first.0 || is_reached(best, first) {
        return best;
    }
    match overlap_of(table, used, sets, first, second) {
        Some(ancestor) => Some(Pair {
            first,
            second,
            ancestor,
        }),
        None => best,
    }
}

// What was found, or the first of some types before another one with which it overlaps, if it comes earlier.
fn first_among(
    table: &TypeTable,
    used: &[TypeId],
    sets: &[SetsByPath],
    ids: &[TypeId],
    second: TypeId,
    best: Option<Pair>,
) -> Option<Pair>
    requires sets { AllSets table.now sets.now }
    requires second { second.0 < length table.now }
    ensures { AreMetWith table.now (Named used.now) second.0 ids.now best result }
{
    let mut found = best;
    for first in ids {
        found = better(table, used, sets, *first, second, found);
    }
    found
}

// The lists of the containers that may overlap with one: those of its family with its numbers and those without a mark; or, where
// it has no mark, its whole family.
fn may_meet<'a>(
    alloc: Global,
    table: &TypeTable,
    sets: &[SetsByPath],
    models: &[TypeId],
    places: &'a Places,
    id: TypeId,
) -> Result<(&'a [TypeId], &'a [TypeId]), Memory>
    ensures { IfOk result (λ lists. MayMeet table.now sets.now models.now places.now id.0 lists.0.now lists.1.now) }
{
    let family = family_of(table, id);
    match mark_of(alloc, table, sets, models, id)? {
        Some(numbers) => {
            let held = held_key(alloc, family, numbers.as_slice())?;
            let free = free_key(alloc, family)?;
            Ok((listed(places, held.as_str()), listed(places, free.as_str())))
        }
        None => {
            let all = all_key(alloc, family)?;
            Ok((listed(places, all.as_str()), &[]))
        }
    }
}

// The first of the types before another one with which it overlaps.
fn first_with(
    alloc: Global,
    table: &TypeTable,
    used: &[TypeId],
    sets: &[SetsByPath],
    models: &[TypeId],
    places: &Places,
    second: TypeId,
) -> Result<Option<Pair>, Memory>
    requires sets { AllSets table.now sets.now }
    requires places { AreListed table.now sets.now models.now (length table.now) places.now }
    requires second { second.0 < length table.now }
    ensures some { IfOk result (λ r. IfSome r (λ p. (p.second ≡ second) × IsFirstWith table.now (Named used.now) p.ancestor.0 p.first.0 second.0)) }
    ensures none { IfOk result (λ r. IfNone r ((x k : ℕ) → k < second.0 → Overlapping table.now (Named used.now) x k second.0 → ⊥)) }
{
    table.keeps_rules();
    if !table.is_concrete(second) {
        return Ok(None);
    }
    let (near, others) = may_meet(alloc, table, sets, models, places, second)?;
    let found = first_among(table, used, sets, near, second, None);
    Ok(first_among(table, used, sets, others, second, found))
}

// The first pair of types that overlap.
fn first_pair(
    alloc: Global,
    table: &TypeTable,
    used: &[TypeId],
    sets: &[SetsByPath],
) -> Result<Option<Pair>, Memory>
    requires { AllSets table.now sets.now }
    ensures some { IfOk result (λ r. IfSome r (λ p. IsFirstPair table.now (Named used.now) p.ancestor.0 p.first.0 p.second.0)) }
    ensures none { IfOk result (λ r. IfNone r ((x k l : ℕ) → Overlapping table.now (Named used.now) x k l → ⊥)) }
{
    let models = models_of(alloc, table, sets)?;
    let models = models.as_slice();
    let places = place_all(alloc, table, sets, models)?;
    for second in 0..table.len() {
        let second = TypeId(second);
        let found = first_with(alloc, table, used, sets, models, &places, second)?;
        if found.is_some() {
            return Ok(found);
        }
    }
    Ok(None)
}

// The solution sets of all types.
fn all_sets(alloc: Global, table: &TypeTable) -> Result<Items<SetsByPath>, Memory>
    ensures { IfOk result (λ sets. AllSets table.now sets) }
{
    let mut all = Items::new(alloc);
    for id in 0..table.len() {
        all.push(sets_by_path(alloc, table, TypeId(id))?)?;
    }
    Ok(all)
}
