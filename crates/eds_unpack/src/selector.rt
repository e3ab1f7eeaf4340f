//! Which members of a container's family may be that of some fields, by the number on one path.

ghost use Rattle.std.specs.Prelude.{◌≡◌, ℕ, ℤ, FitsSigned, map, true, IsTrue, IfOk, IfSome};
ghost use Rattle.std.specs.Int.{w128};
ghost use Rattle.std.specs.List.{AllByRecursion, flat_map};
ghost use Rattle.eds_base.specs.Spans.{IsWithin, Lies};
ghost use Rattle.eds_bits.specs.Lists.{Has};
ghost use Rattle.eds_overlap.specs.Pairs.{Steps};
ghost use Rattle.eds_types.specs.Reading.{starts_above as above};
ghost use Rattle.eds_types.specs.Rows.{Table, constraints_of, family, id_of, numbers_of};
ghost use Rattle.eds_unpack.specs.Selectors.{Allows, AreHulls, AreSelectors, AreStretches, IsHull, IsSelectorOf, IsStretchOf, MayBe, members_of};

use crate::choice::starts_above;
use eds_base::{Items, Memory, Span, Spans, TypeId};
use eds_overlap::{copied_path, is_same};
use eds_types::{Constraint, EntryPath, TypeTable};
use std::alloc::Global;

/// A member of a family, and between which numbers those lie that its chain allows on a path.
#[derive(Clone, Copy)]
pub(crate) struct Hull {
    pub numbers: Span,
    pub member: TypeId,
}

/// A stretch of numbers, and the members of a family, in its order, that may have one of them on a path.
#[derive(Drop)]
pub(crate) struct Stretch {
    pub numbers: Span,
    pub members: Items<TypeId>,
}

/// What tells the members of a container's family apart: a path to an entry that is read before the choice among them, and
/// stretches of the numbers on it, in rising order.
#[derive(Drop)]
pub(crate) struct Selector {
    pub path: EntryPath,
    pub stretches: Items<Stretch>,
}

/// The most paths that are tried for a selector.
const TRIED: usize = 16;

/// The most constraints that the chains of a family may have, all of which are looked at for each path that is tried.
const MOST: usize = 65536;

/// The most times that a member of a family may stand in the stretches of a selector, on average.
const TIMES: usize = 8;

/// An interval with no numbers.
const NOTHING: Span = Span { low: 1, high: 0 };

// ---- the numbers that containers allow

/// The interval from the least number of a set to the greatest one.
fn ends_of(set: &Spans) -> Span
    ensures { (n : ℤ) → IsWithin set.now n → Lies result n }
{
    match set.as_slice() {
        [] => NOTHING,
        [span] => *span,
        [first, .., last] => Span {
            low: first.low,
            high: last.high,
        },
    }
}

/// The numbers of both intervals.
fn common(one: Span, other: Span) -> Span
    ensures { (n : ℤ) → Lies one n → Lies other n → Lies result n }
{
    Span {
        low: one.low.max(other.low),
        high: one.high.min(other.high),
    }
}

/// An interval with those of its numbers that a constraint allows on a path.
fn narrowed(numbers: Span, constraint: &Constraint, path: &[(TypeId, u16)]) -> Span
    ensures { (n : ℤ) → Lies numbers n → Allows path.now n constraint.now → Lies result n }
{
    if is_same(constraint.path.as_slice(), path) {
        common(numbers, ends_of(&constraint.set))
    } else {
        numbers
    }
}

/// An interval with those of its numbers that some constraints allow on a path.
fn narrowed_by(before: Span, constraints: &[Constraint], path: &[(TypeId, u16)]) -> Span
    ensures { (n : ℤ) → Lies before n → AllByRecursion (Allows path.now n) constraints.now → Lies result n }
{
    let mut numbers = before;
    for constraint in constraints {
        numbers = narrowed(numbers, constraint, path);
    }
    numbers
}

/// An interval with the numbers that those of some containers allow on it.
fn numbers_along(table: &TypeTable, containers: &[TypeId], path: &[(TypeId, u16)]) -> Span
    ensures { (n : ℤ) → FitsSigned w128 n → AllByRecursion (Allows path.now n) (flat_map (constraints_of table.now) (numbers_of containers.now)) → Lies result n }
{
    let mut numbers = Span {
        low: i128::MIN,
        high: i128::MAX,
    };
    for one in containers {
        numbers = narrowed_by(numbers, table.constraints_of(*one), path);
    }
    numbers
}

/// An interval with the numbers that a member of a container's family may have on a path, with none if it is that container.
fn numbers_of_member(table: &TypeTable, id: TypeId, path: &[(TypeId, u16)], member: TypeId) -> Span
    ensures { (n : ℤ) → FitsSigned w128 n → MayBe table.now id.0 path.now n member → Lies result n }
{
    if member.0 == id.0 {
        return NOTHING;
    }
    let chain = table.chain_of(member);
    numbers_along(table, chain.as_slice(), path)
}

/// The hulls of the members of a container's family.
fn hulls_of(
    alloc: Global,
    table: &TypeTable,
    id: TypeId,
    path: &[(TypeId, u16)],
    members: &[TypeId],
) -> Result<Items<Hull>, Memory>
    ensures { IfOk result (AreHulls table.now id.0 path.now members.now) }
{
    let mut hulls = Items::new(alloc);
    for member in members {
        let numbers = numbers_of_member(table, id, path, *member);
        hulls.push(Hull {
            numbers,
            member: *member,
        })?;
    }
    Ok(hulls)
}

// ---- stretches

/// Whether two intervals have a number in common, if neither is empty.
fn meets(one: &Span, other: &Span) -> bool
    ensures { (n : ℤ) → Lies one.now n → Lies other.now n → IsTrue result }
{
    one.low <= other.high && other.low <= one.high
}

/// The stretch of some numbers, if it has no more members than are allowed.
fn stretch_of(
    alloc: Global,
    hulls: &[Hull],
    numbers: Span,
    most: usize,
) -> Result<Option<Stretch>, Memory>
    ensures { (t : Table) (x : ℕ) (path : Steps) → AllByRecursion (IsHull t x path) hulls.now → IfOk result (λ found. IfSome found (IsStretchOf t x path (members_of hulls.now))) }
{
    let mut members = Items::new(alloc);
    for hull in hulls {
        if meets(&hull.numbers, &numbers) {
            if members.len() >= most {
                return Ok(None);
            }
            members.push(hull.member)?;
        }
    }
    Ok(Some(Stretch { numbers, members }))
}

/// Puts the stretch of some numbers last, if it has no more members than are allowed. Whether it has.
fn put_stretch(
    alloc: Global,
    hulls: &[Hull],
    numbers: Span,
    most: usize,
    stretches: &mut Items<Stretch>,
) -> Result<bool, Memory>
    ensures { (t : Table) (x : ℕ) (path : Steps) → AllByRecursion (IsHull t x path) hulls.now → AreStretches t x path (members_of hulls.now) stretches.old → IfOk result (λ put. IsTrue put → AreStretches t x path (members_of hulls.now) stretches.new) }
{
    match stretch_of(alloc, hulls, numbers, most)? {
        Some(stretch) => {
            stretches.push(stretch)?;
            Ok(true)
        }
        None => Ok(false),
    }
}

/// The least number, and those at which hulls begin or behind which they end, in rising order, and the greatest number.
fn cuts_of(alloc: Global, hulls: &[Hull]) -> Result<Vec<i128>, Memory> {
    let mut cuts = Vec::new(alloc);
    for hull in hulls {
        cuts.push(hull.numbers.low)?;
        cuts.push(hull.numbers.high.saturating_add(1))?;
    }
    cuts.push(i128::MAX)?;
    cuts.sort_unstable();
    Ok(cuts)
}

/// The stretches between some cuts, if none has more members than are allowed.
fn stretches_of(
    alloc: Global,
    hulls: &[Hull],
    cuts: &[i128],
    most: usize,
) -> Result<Option<Items<Stretch>>, Memory>
    ensures { (t : Table) (x : ℕ) (path : Steps) → AllByRecursion (IsHull t x path) hulls.now → IfOk result (λ found. IfSome found (AreStretches t x path (members_of hulls.now))) }
{
    let mut stretches = Items::new(alloc);
    let mut low = i128::MIN;
    for cut in cuts {
        if low < *cut {
            let numbers = Span {
                low,
                high: *cut - 1,
            };
            if !put_stretch(alloc, hulls, numbers, most, &mut stretches)? {
                return Ok(None);
            }
            low = *cut;
        }
    }
    Ok(Some(stretches))
}

/// The stretch in which a number lies, as a search by halves finds it. All are found so where they rise.
pub(crate) fn stretch_at(stretches: &[Stretch], number: i128) -> Option<&Stretch>
    ensures { IfSome result (λ s. Has stretches.now s.now × Lies s.now.numbers number) }
{
    let mut low = 0;
    let mut high = stretches.len();
    while low < high {
        let middle = low + (high - low) / 2;
        let stretch = &stretches[middle];
        if number < stretch.numbers.low {
            high = middle;
        } else if stretch.numbers.high < number {
            low = middle + 1;
        } else {
            return Some(stretch);
        }
    }
    None
}

// ---- selectors

/// The stretches of a container's family on a path, if none has more members than are allowed.
fn family_stretches(
    alloc: Global,
    table: &TypeTable,
    id: TypeId,
    path: &[(TypeId, u16)],
    most: usize,
) -> Result<Option<Items<Stretch>>, Memory>
    ensures { IfOk result (λ found. IfSome found (AreStretches table.now id.0 path.now (map id_of (family table.now id.0)))) }
{
    let hulls = hulls_of(alloc, table, id, path, table.family_of(id))?;
    let cuts = cuts_of(alloc, hulls.as_slice())?;
    stretches_of(alloc, hulls.as_slice(), cuts.as_slice(), most)
}

/// How many members stretches have in all, as far as numbers of a word go.
fn size_of(stretches: &[Stretch]) -> usize {
    let mut sum = 0usize;
    for stretch in stretches {
        sum = sum.saturating_add(stretch.members.len());
    }
    sum
}

/// The most members that one of some stretches has.
fn longest_of(stretches: &[Stretch]) -> usize {
    let mut longest = 0;
    for stretch in stretches {
        longest = stretch.members.len().max(longest);
    }
    longest
}

/// The selector of a container on a path, if none of its stretches has more members than are allowed, and not too many members
/// stand in several.
fn selector_on(
    alloc: Global,
    table: &TypeTable,
    id: TypeId,
    path: &[(TypeId, u16)],
    most: usize,
) -> Result<Option<Selector>, Memory>
    requires { above table.now id.0 path.now ≡ true }
    ensures { IfOk result (λ found. IfSome found (IsSelectorOf table.now id.0)) }
{
    match family_stretches(alloc, table, id, path, most)? {
        Some(stretches) if size_of(stretches.as_slice()) / TIMES <= table.family_of(id).len() => {
            let path = copied_path(alloc, path)?;
            Ok(Some(Selector { path, stretches }))
        }
        _ => Ok(None),
    }
}

/// The second of two selectors where it is there, and else the first.
fn finer(first: Option<Selector>, second: Option<Selector>) -> Option<Selector>
    ensures { (t : Table) (x : ℕ) → IfSome first (IsSelectorOf t x) → IfSome second (IsSelectorOf t x) → IfSome result (IsSelectorOf t x) }
{
    match second {
        Some(second) => Some(second),
        None => first,
    }
}

/// How many constraints a container's chain has, as far as numbers of a word go.
fn weight_of(table: &TypeTable, id: TypeId) -> usize {
    let mut sum = 0usize;
    for one in table.chain_of(id).as_slice() {
        sum = sum.saturating_add(table.constraints_of(*one).len());
    }
    sum
}

/// How many the chains of some containers have.
fn weight(table: &TypeTable, containers: &[TypeId]) -> usize {
    let mut sum = 0usize;
    for one in containers {
        sum = sum.saturating_add(weight_of(table, *one));
    }
    sum
}

/// The first of the members of a family whose chains have the most constraints, if some have any.
fn model_of(table: &TypeTable, family: &[TypeId]) -> Option<TypeId> {
    let mut model = None;
    let mut most = 0;
    for member in family {
        let weight = weight_of(table, *member);
        if weight > most {
            model = Some(*member);
            most = weight;
        }
    }
    model
}

/// Whether a path starts in an entry that is read before the choice among a container's family.
fn starts_before(table: &TypeTable, id: TypeId, path: &[(TypeId, u16)]) -> bool
    ensures { result ≡ above table.now id.0 path.now }
{
    let chain = table.chain_of(id);
    starts_above(table, id, chain.as_slice(), path)
}

/// The most members that a stretch of a selector may have that is better than another one, and where there is none, that of a
/// selector that is worth its look-up.
fn most_of(selector: &Option<Selector>, family: &[TypeId]) -> usize {
    match selector {
        Some(selector) => longest_of(selector.stretches.as_slice()).saturating_sub(1),
        None => family.len() / 2,
    }
}

/// The finest of another selector of a container and those on the paths of some constraints, of which the first are tried that
/// start in an entry that is read before the choice.
fn finest(
    alloc: Global,
    table: &TypeTable,
    id: TypeId,
    constraints: &[Constraint],
    tried: &mut usize,
    before: Option<Selector>,
) -> Result<Option<Selector>, Memory>
    requires { IfSome before (IsSelectorOf table.now id.0) }
    ensures { IfOk result (λ found. IfSome found (IsSelectorOf table.now id.0)) }
{
    let mut best = before;
    let mut most = most_of(&best, table.family_of(id));
    for constraint in constraints {
        let path = constraint.path.as_slice();
        if *tried < TRIED && most > 0 && starts_before(table, id, path) {
            *tried += 1;
            best = finer(best, selector_on(alloc, table, id, path, most)?);
            most = most_of(&best, table.family_of(id));
        }
    }
    Ok(best)
}

/// The finest selector of a container on the paths of the constraints of a chain, of which the first few are tried, those of its
/// last container first.
fn selector_by(
    alloc: Global,
    table: &TypeTable,
    id: TypeId,
    model: TypeId,
) -> Result<Option<Selector>, Memory>
    ensures { IfOk result (λ found. IfSome found (IsSelectorOf table.now id.0)) }
{
    let chain = table.chain_of(model);
    let mut tried = 0;
    let mut best = None;
    let mut rest = chain.as_slice();
    while let [before @ .., one] = rest {
        let constraints = table.constraints_of(*one);
        best = finest(alloc, table, id, constraints, &mut tried, best)?;
        rest = before;
    }
    Ok(best)
}

/// The selector of a container, if its family has several members and a path tells them apart.
fn selector_of(alloc: Global, table: &TypeTable, id: TypeId) -> Result<Option<Selector>, Memory>
    ensures { IfOk result (λ found. IfSome found (IsSelectorOf table.now id.0)) }
{
    let family = table.family_of(id);
    if family.len() < 2 || weight(table, family) > MOST {
        return Ok(None);
    }
    match model_of(table, family) {
        Some(model) => selector_by(alloc, table, id, model),
        None => Ok(None),
    }
}

/// The selector of each container of a table, at its number, if it has one.
pub(crate) fn selectors_of(
    alloc: Global,
    table: &TypeTable,
) -> Result<Vec<Option<Selector>>, Memory>
    ensures { IfOk result (λ each. AreSelectors table.now each.items) }
{
    let mut each = Vec::with_capacity(alloc, table.len() as usize)?;
    for number in 0..table.len() {
        let selector = selector_of(alloc, table, TypeId(number))?;
        each.push(selector)?;
    }
    Ok(each)
}
